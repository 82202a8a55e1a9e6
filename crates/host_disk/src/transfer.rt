//! What a disk asks of its file, which may not be chosen: reads and writes from a place on, and syncs. A call that is
//! interrupted is made again, 2^64 - 1 times at most.
ghost use Rattle.std.specs.Prelude.{◌≡◌, ◌+◌, ◌≤◌, IfOk, IfSome, IsErr, IsNone, OnOk, OnErr, length, option_map};
ghost use Rattle.host_disk.specs.Placed.{IsReadFrom, KeepsContent, moved_to, ReadsSome, synced, told_in, with_written, WritesFirstOf, WritesPart, written_at};

use crate::placed_file::PlacedFile;
use std::io;
use std::io::ErrorKind;

/// Reads once from the place `at` on, into the first of `into`. It fails where no file is chosen, where a call of the
/// file does, and where more than 2^32 - 1 bytes were read.
pub fn read_from<F: PlacedFile>(file: &mut Option<F>, at: u32, into: &mut [u8]) -> io::Result<u32>
    ensures bounded { IfOk result (λ taken. taken ≤ length into.old) }
    ensures read { IfOk result (λ taken. IfSome (told_in F.told file.old) (λ held.
        IsReadFrom (moved_to at held) taken into.old into.new)) }
    ensures kept { KeepsContent (told_in F.told file.old) (told_in F.told file.new) }
    ensures unchosen { IsNone file.old → IsErr result }
{
    let Some(source) = file else {
        return Err(not_chosen());
    };
    source.seek_to(at)?;
    let taken = read_once(source, into)?;
    match u32::try_from(taken) {
        Ok(taken) => Ok(taken),
        Err(_) => Err(io::Error::from(ErrorKind::FileTooLarge)),
    }
}

/// Writes all bytes from the place `at` on. It fails where no file is chosen, where a call of the file does, and where
/// the file takes none of the bytes that are left; some first bytes may then stand there.
pub fn write_from<F: PlacedFile>(file: &mut Option<F>, at: u32, bytes: &[u8]) -> io::Result<()>
    ensures written { OnOk result (told_in F.told file.new ≡ written_at at bytes.now (told_in F.told file.old)) }
    ensures part { OnErr result (WritesFirstOf (told_in F.told file.old) (told_in F.told file.new) at bytes.now) }
    ensures unchosen { IsNone file.old → IsErr result }
{
    let Some(target) = file else {
        return Err(not_chosen());
    };
    target.seek_to(at)?;
    write_all(target, bytes)
}

/// Brings what was written onto the disk. It fails where no file is chosen, and where a call of the file does.
pub fn sync_all<F: PlacedFile>(file: &mut Option<F>) -> io::Result<()>
    ensures synced { OnOk result (told_in F.told file.new ≡ option_map synced (told_in F.told file.old)) }
    ensures kept { OnErr result (told_in F.told file.new ≡ told_in F.told file.old) }
    ensures unchosen { IsNone file.old → IsErr result }
{
    let Some(file) = file else {
        return Err(not_chosen());
    };
    sync_once(file)
}

// What is answered where no file is chosen.
fn not_chosen() -> io::Error {
    io::Error::from(ErrorKind::NotFound)
}

// One read, and again where it was interrupted.
fn read_once<F: PlacedFile>(file: &mut F, into: &mut [u8]) -> io::Result<usize>
    ensures bounded { IfOk result (λ taken. taken ≤ length into.old) }
    ensures read { ReadsSome (F.told file.old) (F.told file.new) into.old into.new result }
{
    for _ in 0..u64::MAX {
        match file.read_some(into) {
            Err(error) if error.kind() == ErrorKind::Interrupted => {}
            answer => return answer,
        }
    }
    Err(io::Error::from(ErrorKind::Interrupted))
}

// Writes until all is written.
fn write_all<F: PlacedFile>(file: &mut F, bytes: &[u8]) -> io::Result<()>
    ensures written { OnOk result (F.told file.new ≡ option_map (with_written bytes.now) (F.told file.old)) }
    ensures part { OnErr result (WritesPart (F.told file.old) (F.told file.new) bytes.now) }
{
    let mut put = 0;
    for _ in 0..u64::MAX {
        if put == bytes.len() {
            return Ok(());
        }
        let (_, rest) = bytes.split_at(put);
        match file.write_some(rest) {
            Ok(0) => return Err(io::Error::from(ErrorKind::WriteZero)),
            Ok(count) => put += count,
            Err(error) if error.kind() == ErrorKind::Interrupted => {}
            Err(error) => return Err(error),
        }
    }
    Err(io::Error::from(ErrorKind::Interrupted))
}

// One sync, and again where it was interrupted.
fn sync_once<F: PlacedFile>(file: &mut F) -> io::Result<()>
    ensures synced { OnOk result (F.told file.new ≡ option_map synced (F.told file.old)) }
    ensures kept { OnErr result (F.told file.new ≡ F.told file.old) }
{
    for _ in 0..u64::MAX {
        match file.sync() {
            Err(error) if error.kind() == ErrorKind::Interrupted => {}
            answer => return answer,
        }
    }
    Err(io::Error::from(ErrorKind::Interrupted))
}
