//! The command `member`: a round as one member, over a link.
ghost use Rattle.std.specs.Prelude.{◌≡◌, ◌≢◌, ◌⊎◌, ◌≤◌, ℕ, List as Items, IfErr, Some, string_bytes};
ghost use Rattle.outside.specs.Faults.{Rose};
ghost use Rattle.round_spec.specs.Result.{result_of};
ghost use Rattle.round_spec.specs.Say.{Configuration};
ghost use Rattle.member_core.specs.Promises.{IsPlainMember};
ghost use Rattle.outside.specs.Changes.{change_of};
ghost use Rattle.offline_commands.specs.Delivery.{answer_bytes};
ghost use Rattle.offline_commands.specs.Outside.{OthersStay, telling};
ghost use Rattle.online_commands.specs.Promise.{IsMemberAnswered};
ghost use Rattle.online_commands.specs.TakingPart.{IsIdle, Settles, TellsEnd};
ghost use Rattle.round_link.specs.Traffic.{shown_by};

use crash_disk::Disk;
use group_report::slots_text;
use member_core::{Conduct, Config, Member};
use member_entry::{Entrant, MemberCommand, begin_round, enter};
use member_run::{RunEnd, run_member};
use member_spec::{Honest, State};
use offline_commands::{Files, Status, write_whole};
use round_link::{Link, LinkAnswer};
use std::alloc::Global;
use wire_core::List;

// Takes part in a round.
pub(crate) fn take_part<F: Files, D: Disk, L: Link>(
    alloc: Global,
    command: &MemberCommand,
    files: &mut F,
    disk: &mut D,
    link: &mut L,
    fresh: &[u8; 32],
) -> Result<Vec<u8>, Status>
    ensures { IsMemberAnswered
        (record {
          files = change_of F.faults F.told files.old files.new;
          disk = change_of D.faults (telling D.file D.names) disk.old disk.new;
          link_before = shown_by L.faults L.frames L.ends L.told link.old;
          link_now = shown_by L.faults L.frames L.ends L.told link.new;
        })
        fresh.now (Some command.now) (answer_bytes result) }
{
    let mut entrant = enter(alloc, command, files, disk)?;
    begin_link(command, entrant.number, link)?;
    let leaves = begin_round(alloc, &mut entrant.key, disk, command.round)?;
    let config = config_of(entrant, command.round, fresh);
    let mut member = Member::start(alloc, config, leaves, Honest)?;
    let end = run_member(alloc, &mut member, link);
    let answer = answer_of(alloc, &member, end, files, &command.transcript);
    member.close();
    answer
}

// Brings the member in touch with the others.
fn begin_link<L: Link>(command: &MemberCommand, number: u8, link: &mut L) -> Result<(), Status>
    ensures failed { IfErr result (λ status. (status ≡ Status.OutOfMemory) ⊎ ((status ≡ Status.LinkFault) × Rose (L.faults link.old) (L.faults link.new))) }
    ensures idle { IsIdle (shown_by L.faults L.frames L.ends L.told link.old) (shown_by L.faults L.frames L.ends L.told link.new) }
    ensures no_fall { L.faults link.old ≤ L.faults link.new }
{
    match link.begin(number, &command.addresses, u32::from(command.wait)) {
        LinkAnswer::Done => Ok(()),
        LinkAnswer::Failed => Err(Status::LinkFault),
        LinkAnswer::OutOfMemory => Err(Status::OutOfMemory),
    }
}

// What a member enters the round with.
fn config_of(entrant: Entrant, round: u64, fresh: &[u8; 32]) -> Config
    ensures { result ≡ record {
      roster = entrant.roster;
      number = entrant.number;
      round = round;
      fresh = fresh.now;
      message = entrant.message.items;
    } }
{
    Config {
        roster: entrant.roster,
        number: entrant.number,
        round,
        fresh: *fresh,
        message: List::of(entrant.message),
    }
}

// What the round came to: the slots of the list, or the status that ends the command.
fn answer_of<F: Files>(
    alloc: Global,
    member: &Member<Honest>,
    end: RunEnd,
    files: &mut F,
    transcript: &String,
) -> Result<Vec<u8>, Status>
    ensures answer { (c : Configuration) (delivered : Items (Items ℕ)) →
        (end ≢ RunEnd.OutOfMemory → IsPlainMember ⟦<Honest as Conduct>⟧.replies c delivered member.now) →
        TellsEnd (change_of F.faults F.told files.old files.new) (string_bytes transcript.now) end (result_of c delivered) (answer_bytes result) }
    ensures others { OthersStay (F.told files.old) (F.told files.new) (string_bytes transcript.now) }
    ensures no_fall { F.faults files.old ≤ F.faults files.new }
{
    match end {
        RunEnd::Ended | RunEnd::Waiting => outcome_of(alloc, member, files, transcript),
        RunEnd::LinkFault => Err(Status::LinkFault),
        RunEnd::Flooded => Err(Status::Flooded),
        RunEnd::OutOfMemory => Err(Status::OutOfMemory),
    }
}

// The same where the round ended or nothing comes any more; evidence is written.
fn outcome_of<F: Files>(
    alloc: Global,
    member: &Member<Honest>,
    files: &mut F,
    transcript: &String,
) -> Result<Vec<u8>, Status>
    ensures answer { (c : Configuration) (delivered : Items (Items ℕ)) → IsPlainMember ⟦<Honest as Conduct>⟧.replies c delivered member.now →
        Settles (change_of F.faults F.told files.old files.new) (string_bytes transcript.now) (result_of c delivered) (answer_bytes result) }
    ensures others { OthersStay (F.told files.old) (F.told files.new) (string_bytes transcript.now) }
    ensures no_fall { F.faults files.old ≤ F.faults files.new }
{
    match (member.state(), member.slots(), member.evidence()) {
        (State::Done, Some(slots), _) => Ok(slots_text(alloc, slots)?),
        (State::Blamed { accused, claim }, _, Some(evidence)) => {
            write_whole(files, transcript, evidence)?;
            Err(Status::Blamed { accused, claim })
        }
        (State::Waiting { stage, missing }, _, _) => Err(Status::Open { stage, missing }),
        _ => Err(Status::OutOfMemory),
    }
}
