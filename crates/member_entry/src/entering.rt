//! What a member enters a round with: its group, its message and its key file are read, and the round is begun.
ghost use Rattle.outside.specs.Changes.{change_of};
ghost use Rattle.offline_commands.specs.Outside.{telling};
ghost use Rattle.std.specs.Prelude.{◌≡◌, ◌<◌, IfOk, IfSome, bytes_eq, length, string_bytes};
ghost use Rattle.std.specs.List.{position};
ghost use Rattle.group_roster.specs.Given.{roster_of};
ghost use Rattle.crash_disk.specs.Names.{StaysBeside};
ghost use Rattle.key_store.specs.declared.layout.KeyContent.{KeyContent};
ghost use Rattle.key_store.specs.Store.{IsCurrent};
ghost use Rattle.member_entry.specs.Entering.{number_in};
ghost use Rattle.member_entry.specs.Steps.{Begins, Enters, IsOpen, Opens};

use crate::member_command::MemberCommand;
use bulk_descriptor::MESSAGE_LIMIT;
use crash_disk::{Disk, DiskAnswer};
use group_roster::{Roster, decode};
use key_store::{KeyFile, StoreRefusal};
use lms_tree::LeafRun;
use offline_commands::{Files, ROSTER_LIMIT, Status, read_within};
use std::alloc::Global;

// How many leaves a round takes.
const ROUND_LEAVES: u32 = 12;

/// What a member comes with: its group, its number in it, its message, and its key file.
#[derive(Drop)]
pub struct Entrant {
    pub roster: Roster,
    pub number: u8,
    pub message: Vec<u8>,
    pub key: KeyFile,
}

/// Reads the roster, of at most 4,096 bytes, the message, of at most 65,536, and the key file, in this order; then finds the
/// member's number, the place of its key in the roster. `Usage` comes where there is not an address for each member, before
/// the message is read; `NotMember` where the roster does not have the key.
pub fn enter<F: Files, D: Disk>(
    alloc: Global,
    command: &MemberCommand,
    files: &mut F,
    disk: &mut D,
) -> Result<Entrant, Status>
    ensures entered { Enters
        (change_of F.faults F.told files.old files.new)
        (change_of D.faults (telling D.file D.names) disk.old disk.new)
        command.now
        result }
    ensures current { IfOk result (λ e. IsCurrent e.key (D.file disk.new) (D.may_leave disk.new)) }
{
    let bytes = read_within(files, &command.roster, ROSTER_LIMIT)?;
    let roster = decode(alloc, &bytes)?;
    if command.addresses.len() != usize::from(roster.members()) {
        return Err(Status::Usage);
    }
    let message = read_within(files, &command.message, MESSAGE_LIMIT)?;
    let key = open_key(alloc, &command.key, disk)?;
    match number_in(&roster, &key.public().bytes()) {
        Some(number) => Ok(Entrant {
            roster,
            number,
            message,
            key,
        }),
        None => Err(Status::NotMember),
    }
}

// Reads the key file of a name.
fn open_key<D: Disk>(alloc: Global, name: &String, disk: &mut D) -> Result<KeyFile, Status>
    ensures opened { Opens (change_of D.faults (telling D.file D.names) disk.old disk.new) (string_bytes name.now) result }
    ensures current { IfOk result (λ key. IsCurrent key (D.file disk.new) (D.may_leave disk.new)) }
{
    match disk.choose(name, false) {
        DiskAnswer::Done => {}
        DiskAnswer::Failed => return Err(Status::DiskFault),
    }
    match KeyFile::load(alloc, disk) {
        Ok(key) => Ok(key),
        Err(StoreRefusal::NotKeyFile { at }) => Err(Status::BadKeyFile { at }),
        Err(StoreRefusal::Memory) => Err(Status::OutOfMemory),
        Err(StoreRefusal::DiskFault) => Err(Status::DiskFault),
        Err(StoreRefusal::OldRound { .. } | StoreRefusal::Exhausted { .. }) => unreachable!(),
    }
}

// The number of a member by its key.
fn number_in(roster: &Roster, key: &[u8; 56]) -> Option<u8>
    ensures { result ≡ number_in (roster_of roster.now) key.now }
{
    match place_of(roster.keys.items(), key) {
        Some(place) => Some(place as u8 + 1),
        None => None,
    }
}

// The first place of a key.
fn place_of(keys: &[[u8; 56]], key: &[u8]) -> Option<usize>
    ensures value { result ≡ position (bytes_eq key.now) keys.now }
    ensures within { IfSome result (λ place. place < length keys.now) }
{
    keys.iter().position(|k| key == k.as_slice())
}

/// Raises the key file for a round, and takes twelve leaves for it. `OldRound` comes exactly where the round is not above
/// the one that the file keeps, else `Exhausted` exactly where fewer leaves are left; both leave the disk as it is.
pub fn begin_round<D: Disk>(
    alloc: Global,
    key: &mut KeyFile,
    disk: &mut D,
    round: u64,
) -> Result<LeafRun, Status>
    requires { IsCurrent key.old (D.file disk.old) (D.may_leave disk.old) }
    ensures begun { (content : KeyContent) → IsOpen key.old content →
        Begins (change_of D.faults (telling D.file D.names) disk.old disk.new) round content key.new result }
    ensures current { IsCurrent key.new (D.file disk.new) (D.may_leave disk.new) }
    ensures beside { StaysBeside (D.names disk.old) (D.names disk.new) }
{
    match key.begin_round(alloc, disk, round, ROUND_LEAVES) {
        Ok(leaves) => Ok(leaves),
        Err(StoreRefusal::OldRound { kept }) => Err(Status::OldRound { kept }),
        Err(StoreRefusal::Exhausted { next }) => Err(Status::Exhausted {
            next,
            height: key.public().lms_type.height(),
        }),
        Err(StoreRefusal::Memory) => Err(Status::OutOfMemory),
        Err(_) => Err(Status::DiskFault),
    }
}
