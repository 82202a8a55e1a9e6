//! The top call of the program.
ghost use Rattle.outside.specs.Changes.{change_of};
ghost use Rattle.dissent_words.specs.Request.{texts};
ghost use Rattle.offline_commands.specs.Outside.{telling};
ghost use Rattle.online_commands.specs.Promise.{IsComplete, IsMemberAnswered, IsMemberRun, IsWholeRun, is_for_member, member_words};
ghost use Rattle.dissent_words.specs.Forms.{requested};
ghost use Rattle.offline_commands.specs.Delivery.{answer_bytes};
ghost use Rattle.std.specs.Prelude.{◌≡◌, IfSome};
ghost use Rattle.round_link.specs.Traffic.{shown_by};

use crate::taking_part::take_part;
use crash_disk::Disk;
use dissent_words::{Command, WordsRefusal, read_words};
use member_entry::MemberCommand;
use offline_commands::{Files, Sink, Status, print, run_offline};
use round_link::Link;
use std::alloc::Global;
use std::sync::Wait;
use std::thread::Threads;

/// Runs a command on files, a disk for a key file, a link to the other members, and a sink. The words don't hold the
/// program's name. `fresh` is what `keygen` makes a key of, and `member` its secrets of the round. With the words of
/// `member` it waits for the others; all other words are those of `run_offline`.
pub fn run<R: Threads + Wait + Sync, F: Files, D: Disk, L: Link, O: Sink>(
    rt: &R,
    alloc: Global,
    words: &Vec<String>,
    files: &mut F,
    disk: &mut D,
    link: &mut L,
    fresh: [u8; 32],
    out: &mut O,
) -> Status
    ensures { IsWholeRun
        (record { words = texts words.now.items; fresh = fresh })
        (record {
          files = change_of F.faults F.told files.old files.new;
          disk = change_of D.faults (telling D.file D.names) disk.old disk.new;
          link_before = shown_by L.faults L.frames L.ends L.told link.old;
          link_now = shown_by L.faults L.frames L.ends L.told link.new;
        })
        (change_of O.faults O.told out.old out.new)
        result }
{
    if is_for_member(words) {
        run_online(alloc, words, files, disk, link, &fresh, out)
    } else {
        run_offline(rt, alloc, words, files, disk, fresh, out)
    }
}

// Whether the first word is `member`.
fn is_for_member(words: &Vec<String>) -> bool
    ensures { result ≡ is_for_member (texts words.now.items) }
{
    match words.first() {
        Some(word) => word.as_str() == "member",
        None => false,
    }
}

// A call with words of which the first is `member`.
fn run_online<F: Files, D: Disk, L: Link, O: Sink>(
    alloc: Global,
    words: &Vec<String>,
    files: &mut F,
    disk: &mut D,
    link: &mut L,
    fresh: &[u8; 32],
    out: &mut O,
) -> Status
    ensures member { IsMemberRun
        (record {
          files = change_of F.faults F.told files.old files.new;
          disk = change_of D.faults (telling D.file D.names) disk.old disk.new;
          link_before = shown_by L.faults L.frames L.ends L.told link.old;
          link_now = shown_by L.faults L.frames L.ends L.told link.new;
        })
        (change_of O.faults O.told out.old out.new) fresh.now (member_words (requested (texts words.now.items))) result }
    ensures complete { IfSome (member_words (requested (texts words.now.items))) (λ given. IsComplete
        (record {
          files = change_of F.faults F.told files.old files.new;
          disk = change_of D.faults (telling D.file D.names) disk.old disk.new;
          link_before = shown_by L.faults L.frames L.ends L.told link.old;
          link_now = shown_by L.faults L.frames L.ends L.told link.new;
        })
        (change_of O.faults O.told out.old out.new) fresh.now given result) }
{
    let answer = answer_member(alloc, words, files, disk, link, fresh);
    print(alloc, answer, out)
}

// The answer to words of which the first is `member`.
fn answer_member<F: Files, D: Disk, L: Link>(
    alloc: Global,
    words: &Vec<String>,
    files: &mut F,
    disk: &mut D,
    link: &mut L,
    fresh: &[u8; 32],
) -> Result<Vec<u8>, Status>
    ensures { IsMemberAnswered
        (record {
          files = change_of F.faults F.told files.old files.new;
          disk = change_of D.faults (telling D.file D.names) disk.old disk.new;
          link_before = shown_by L.faults L.frames L.ends L.told link.old;
          link_now = shown_by L.faults L.frames L.ends L.told link.new;
        })
        fresh.now (member_words (requested (texts words.now.items))) (answer_bytes result) }
{
    match read_words(alloc, words) {
        Ok(
            Command::Member {
                roster,
                key,
                round,
                message,
                transcript,
                wait,
                addresses,
            },
        ) => {
            let command = MemberCommand {
                roster,
                key,
                round,
                message,
                transcript,
                wait,
                addresses,
            };
            take_part(alloc, &command, files, disk, link, fresh)
        }
        Ok(_) | Err(WordsRefusal::Usage) => Err(Status::Usage),
        Err(WordsRefusal::Memory) => Err(Status::OutOfMemory),
    }
}
