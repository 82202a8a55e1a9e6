//! The top call: the answer to the words, and its printing.
ghost use Rattle.outside.specs.Changes.{change_of};
ghost use Rattle.offline_commands.specs.Outside.{telling};
ghost use Rattle.dissent_words.specs.Request.{texts};
ghost use Rattle.offline_commands.specs.Delivery.{answer_bytes};
ghost use Rattle.offline_commands.specs.Promise.{IsAnswered, IsRun};

use crate::commands::{run_judge, run_keygen, run_roster, run_show};
use crate::delivery::print;
use crate::interfaces::{Files, Sink};
use crate::rounds::{fault_given, run_group, run_make};
use crate::status::Status;
use crash_disk::Disk;
use dissent_words::{Command, read_words};
use std::alloc::Global;
use std::thread::Threads;

/// Runs a command on files, a disk for a key file, and a sink. The words don't hold the program's name. `fresh` is what
/// `keygen` makes a key of.
pub fn run_offline<R: Threads + Sync, F: Files, D: Disk, O: Sink>(
    _rt: &R,
    alloc: Global,
    words: &Vec<String>,
    files: &mut F,
    disk: &mut D,
    fresh: [u8; 32],
    out: &mut O,
) -> Status
    ensures { IsRun
        (record { words = texts words.now.items; fresh = fresh })
        (change_of F.faults F.told files.old files.new)
        (change_of D.faults (telling D.file D.names) disk.old disk.new)
        (change_of O.faults O.told out.old out.new)
        result }
{
    let answer = answer_words(alloc, words, files, disk, &fresh);
    print(alloc, answer, out)
}

// The output of the command that the words ask for, or the status that ends it.
fn answer_words<F: Files, D: Disk>(
    alloc: Global,
    words: &Vec<String>,
    files: &mut F,
    disk: &mut D,
    fresh: &[u8; 32],
) -> Result<Vec<u8>, Status>
    ensures { IsAnswered
        (record { words = texts words.now.items; fresh = fresh.now })
        (change_of F.faults F.told files.old files.new)
        (change_of D.faults (telling D.file D.names) disk.old disk.new)
        (answer_bytes result) }
{
    let command = read_words(alloc, words)?;
    match command {
        Command::Judge { roster, transcript } => run_judge(alloc, &roster, &transcript, files),
        Command::Show {
            roster,
            round,
            post,
        } => run_show(alloc, &roster, round, &post, files),
        Command::Roster { toml, out } => run_roster(alloc, &toml, &out, files),
        Command::Keygen { key, height, width } => run_keygen(
            alloc, &key, height, width, disk, fresh,
        ),
        Command::Group {
            script,
            roster,
            transcript,
        } => run_group(alloc, &script, &roster, &transcript, files),
        Command::Make {
            number,
            members,
            bytes,
            fault,
        } => match fault_given(members, bytes, &fault) {
            Some(fault) => run_make(alloc, number, members, bytes, fault),
            None => Err(Status::Usage),
        },
        Command::Member { .. } | Command::Live { .. } => Err(Status::Usage),
    }
}
