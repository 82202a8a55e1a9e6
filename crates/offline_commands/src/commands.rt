//! The commands on rosters, posts and transcripts, and the one that makes a key file.
ghost use Rattle.std.specs.Prelude.{◌≡◌, ◌⊎◌, ◌≤◌, ◌≢◌, OnOk, IfOk, IfErr, IfSome, IsSomeAnd, Some, Err, length, string_bytes};
ghost use Rattle.outside.specs.Faults.{Rose};
ghost use Rattle.outside.specs.Changes.{change_of};
ghost use Rattle.crash_disk.specs.Names.{StoodStays};
ghost use Rattle.offline_commands.specs.Outside.{Shows, HoldsNow, OthersStay, telling};
ghost use Rattle.offline_commands.specs.Outcome.{Yields, YieldsOr, within, judge_outcome, show_outcome, keygen_outcome};
ghost use Rattle.offline_commands.specs.Delivery.{answer_bytes};
ghost use Rattle.offline_commands.specs.Promise.{IsMade, IsRosterRun, FilesConvict, FilesShow, OnOutput};

use crate::delivery::{accepted_text, id_text, key_text};
use crate::interfaces::{FileRead, FileWrite, Files};
use crate::show::{check_file, shown_text};
use crate::status::Status;
use crash_disk::{Disk, DiskAnswer};
use group_roster::{decode, from_toml};
use judge_core::judge;
use key_store::StoreRefusal;
use lms_tree::{MadeHeight, OtsType};
use std::alloc::Global;

/// The most bytes of a roster file.
pub const ROSTER_LIMIT: u32 = 4096;

/// The most bytes of a roster in TOML.
pub const TOML_LIMIT: u32 = 65_536;

/// The most bytes of a script.
pub const SCRIPT_LIMIT: u32 = 2_097_152;

/// The most bytes of a transcript.
pub const TRANSCRIPT_LIMIT: u32 = 134_217_728;

/// The most bytes of a post's file.
pub const POST_FILE_LIMIT: u32 = 16_777_216;

// The command `judge`.
pub(crate) fn run_judge<F: Files>(
    alloc: Global,
    roster: &String,
    transcript: &String,
    files: &mut F,
) -> Result<Vec<u8>, Status>
    ensures answers { (roster_file transcript_file : _) × Shows (F.told files.old) (string_bytes roster.now) roster_file
        × Shows (F.told files.old) (string_bytes transcript.now) transcript_file
        × Yields (Rose (F.faults files.old) (F.faults files.new)) (judge_outcome (within ROSTER_LIMIT roster_file) (within TRANSCRIPT_LIMIT transcript_file)) (answer_bytes result) }
    ensures convicts { OnOutput (FilesConvict (F.told files.old) (string_bytes roster.now) (string_bytes transcript.now))
        (answer_bytes result) }
    ensures kept { F.told files.new ≡ F.told files.old }
    ensures no_fall { F.faults files.old ≤ F.faults files.new }
{
    let roster_bytes = read_within(files, roster, ROSTER_LIMIT)?;
    let roster = decode(alloc, &roster_bytes)?;
    let bytes = read_within(files, transcript, TRANSCRIPT_LIMIT)?;
    let accepted = judge(alloc, &roster, &bytes)?;
    Ok(accepted_text(alloc, accepted)?)
}

// The command `show`.
pub(crate) fn run_show<F: Files>(
    alloc: Global,
    roster: &String,
    round: u64,
    post: &String,
    files: &mut F,
) -> Result<Vec<u8>, Status>
    ensures answers { (roster_file post_file : _) × Shows (F.told files.old) (string_bytes roster.now) roster_file
        × Shows (F.told files.old) (string_bytes post.now) post_file
        × Yields (Rose (F.faults files.old) (F.faults files.new)) (show_outcome round (within ROSTER_LIMIT roster_file) (within POST_FILE_LIMIT post_file)) (answer_bytes result) }
    ensures shows { OnOutput (FilesShow (F.told files.old) (string_bytes roster.now) round (string_bytes post.now))
        (answer_bytes result) }
    ensures kept { F.told files.new ≡ F.told files.old }
    ensures no_fall { F.faults files.old ≤ F.faults files.new }
{
    let roster_file = read_within(files, roster, ROSTER_LIMIT)?;
    let roster = decode(alloc, &roster_file)?;
    let bytes = read_within(files, post, POST_FILE_LIMIT)?;
    let content = check_file(alloc, &roster, round, &bytes)?;
    Ok(shown_text(alloc, &content)?)
}

// The command `roster`. Nothing is written before there is memory for all of the answer.
pub(crate) fn run_roster<F: Files>(
    alloc: Global,
    toml: &String,
    out: &String,
    files: &mut F,
) -> Result<Vec<u8>, Status>
    ensures { IsRosterRun (change_of F.faults F.told files.old files.new) (string_bytes toml.now) (string_bytes out.now)
        (answer_bytes result) }
{
    let bytes = read_within(files, toml, TOML_LIMIT)?;
    let roster = from_toml(alloc, &bytes)?;
    let spelled = roster.encode(alloc)?;
    let text = id_text(alloc, &roster)?;
    write_whole(files, out, &spelled)?;
    Ok(text)
}

// The command `keygen`.
pub(crate) fn run_keygen<D: Disk>(
    alloc: Global,
    name: &String,
    height: MadeHeight,
    width: OtsType,
    disk: &mut D,
    fresh: &[u8; 32],
) -> Result<Vec<u8>, Status>
    ensures answers { YieldsOr Status.DiskFault (Rose (D.faults disk.old) (D.faults disk.new))
        (keygen_outcome fresh.now height width) (answer_bytes result) }
    ensures made { OnOutput (IsMade height width fresh.now (string_bytes name.now)
        (change_of D.faults (telling D.file D.names) disk.old disk.new)) (answer_bytes result) }
    ensures stood { StoodStays (D.names disk.old) (D.names disk.new) }
    ensures no_fall { D.faults disk.old ≤ D.faults disk.new }
{
    match disk.choose(name, true) {
        DiskAnswer::Done => {}
        DiskAnswer::Failed => return Err(Status::DiskFault),
    }
    match key_store::create(alloc, disk, height, width, fresh) {
        Ok(key) => Ok(key_text(alloc, &key)?),
        Err(StoreRefusal::Memory) => Err(Status::OutOfMemory),
        Err(_) => Err(Status::DiskFault),
    }
}

/// Reads a file that a command names.
pub fn read_within<F: Files>(files: &mut F, name: &String, limit: u32) -> Result<Vec<u8>, Status>
    ensures answer { (file : _) × Shows (F.told files.old) (string_bytes name.now) file
        × Yields (Rose (F.faults files.old) (F.faults files.new)) (within limit file) (answer_bytes result) }
    ensures bounded { IfOk result (λ bytes. length bytes.items ≤ limit) }
    ensures shown { IfOk result (λ bytes. Shows (F.told files.old) (string_bytes name.now) (Some bytes.items)) }
    ensures status { IfErr result (λ status. status ≢ Status.Done) }
    ensures memory { result ≡ Err Status.OutOfMemory → IfSome (F.told files.old) (λ held.
        IsSomeAnd (held (string_bytes name.now)) (λ bytes. length bytes ≤ limit)) }
    ensures kept { F.told files.new ≡ F.told files.old }
    ensures no_fall { F.faults files.old ≤ F.faults files.new }
{
    match files.read(name, limit) {
        FileRead::Bytes(bytes) => Ok(bytes.into_items()),
        FileRead::TooLong => Err(Status::TooLong { limit }),
        FileRead::Failed => Err(Status::ReadFault),
        FileRead::OutOfMemory => Err(Status::OutOfMemory),
    }
}

/// Writes a file that a command names.
pub fn write_whole<F: Files>(files: &mut F, name: &String, bytes: &Vec<u8>) -> Result<(), Status>
    ensures written { OnOk result (HoldsNow (F.told files.old) (F.told files.new) (string_bytes name.now) bytes.now.items) }
    ensures failed { IfErr result (λ status. (status ≡ Status.OutOfMemory)
        ⊎ ((status ≡ Status.WriteFault) × Rose (F.faults files.old) (F.faults files.new))) }
    ensures others { OthersStay (F.told files.old) (F.told files.new) (string_bytes name.now) }
    ensures no_fall { F.faults files.old ≤ F.faults files.new }
{
    match files.write(name, bytes) {
        FileWrite::Written => Ok(()),
        FileWrite::Failed => Err(Status::WriteFault),
        FileWrite::OutOfMemory => Err(Status::OutOfMemory),
    }
}
