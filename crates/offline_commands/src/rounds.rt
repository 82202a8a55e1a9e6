//! The commands that run a whole group, and print what its members come to.
ghost use Rattle.std.specs.Prelude.{◌≡◌, ◌⊎◌, ◌≤◌, ◌∷◌, [], OnOk, IfErr, IsSome, Err, option_map, string_bytes};
ghost use Rattle.outside.specs.Faults.{Rose};
ghost use Rattle.outside.specs.Changes.{change_of};
ghost use Rattle.round_script.specs.declared.script.TheConstants.{MESSAGE_LIMIT};
ghost use Rattle.offline_commands.specs.Command.{fault_given};
ghost use Rattle.offline_commands.specs.Outside.{AllOthersStay};
ghost use Rattle.offline_commands.specs.Outcome.{make_outcome};
ghost use Rattle.offline_commands.specs.Delivery.{answer_bytes};
ghost use Rattle.offline_commands.specs.Promise.{IsMadeRun, IsScriptRun, OnOutput, WritesGroup};

use crate::commands::{SCRIPT_LIMIT, read_within, write_whole};
use crate::interfaces::Files;
use crate::status::Status;
use group_report::{evidence, group_text, make_text};
use group_threads::{Fault, make_script, parse_script, run_scripted};
use round_script::MESSAGE_LIMIT;
use std::alloc::Global;

// The command `group`. Nothing is written before there is memory for all of the answer.
pub(crate) fn run_group<F: Files>(
    alloc: Global,
    script: &String,
    roster: &String,
    transcript: &String,
    files: &mut F,
) -> Result<Vec<u8>, Status>
    ensures { IsScriptRun (change_of F.faults F.told files.old files.new) (string_bytes script.now) (string_bytes roster.now)
        (string_bytes transcript.now) (answer_bytes result) }
{
    let bytes = read_within(files, script, SCRIPT_LIMIT)?;
    let script = parse_script(alloc, &bytes)?;
    let end = run_scripted(alloc, &script)?;
    let members = end.members.items();
    let spelled = end.roster.encode(alloc)?;
    let text = group_text(alloc, members)?;
    write_group(files, roster, &spelled, transcript, evidence(members))?;
    Ok(text)
}

// Writes a roster, and then a transcript if there is one.
fn write_group<F: Files>(
    files: &mut F,
    roster: &String,
    spelled: &Vec<u8>,
    transcript: &String,
    evidence: Option<&Vec<u8>>,
) -> Result<(), Status>
    ensures written { OnOk result (WritesGroup (F.told files.old) (F.told files.new) (string_bytes roster.now)
        (string_bytes transcript.now) spelled.now.items (option_map (λ bytes. bytes.now.items) evidence.entry)) }
    ensures failed { IfErr result (λ status. (status ≡ Status.OutOfMemory)
        ⊎ ((status ≡ Status.WriteFault) × Rose (F.faults files.old) (F.faults files.new))) }
    ensures others { AllOthersStay (F.told files.old) (F.told files.new)
        (string_bytes roster.now ∷ string_bytes transcript.now ∷ []) }
    ensures no_fall { F.faults files.old ≤ F.faults files.new }
{
    write_whole(files, roster, spelled)?;
    match evidence {
        Some(bytes) => write_whole(files, transcript, bytes),
        None => Ok(()),
    }
}

// The command `make`.
pub(crate) fn run_make(
    alloc: Global,
    number: u64,
    members: u8,
    bytes: u32,
    fault: Fault,
) -> Result<Vec<u8>, Status>
    requires least { 2 ≤ members }
    requires most { members ≤ 8 }
    requires short { bytes ≤ MESSAGE_LIMIT }
    ensures answers { (answer_bytes result ≡ make_outcome number members bytes fault)
        ⊎ (answer_bytes result ≡ Err Status.OutOfMemory) }
    ensures made { OnOutput (IsMadeRun number members bytes fault) (answer_bytes result) }
{
    let script = make_script(alloc, number, members, bytes, fault)?;
    let end = run_scripted(alloc, &script)?;
    Ok(make_text(alloc, end.members.items())?)
}

// The fault of a name, where a script is made for so many members, with messages of so many bytes.
pub(crate) fn fault_given(members: u8, bytes: u32, name: &String) -> Option<Fault>
    ensures exact { result ≡ fault_given members bytes (string_bytes name.now) }
    ensures in_range { IsSome result → (2 ≤ members) × (members ≤ 8) × (bytes ≤ MESSAGE_LIMIT) }
{
    if 2 <= members && members <= 8 && bytes <= MESSAGE_LIMIT {
        Fault::of_name(name.as_bytes())
    } else {
        None
    }
}
