//! What a disk asks of its file, over files in memory of which calls are interrupted, and a real file as a disk.
ghost use Rattle.std.specs.Prelude.{◌<◌};

use super::*;
use crash_disk::{Disk, DiskAnswer, DiskRead};
use std::alloc::{AllocError, Global};
use std::io;
use std::os::unix::fs::PermissionsExt;
use std::test::Fail;

// A file of these bytes, of which the second and the fifth call are interrupted, and one takes `most` bytes at most.
fn file_of(alloc: Global, bytes: &[u8], most: usize) -> Result<Option<MemoryFile>, AllocError>
    requires { 0 < most }
{
    let bytes = Vec::from_slice(alloc, bytes)?;
    let interrupted = vec![in alloc; 2, 5]?;
    Ok(Some(MemoryFile::new(bytes, most, interrupted)))
}

// What is read from a place on, of at most eight bytes.
fn read_of<F: PlacedFile>(file: &mut Option<F>, at: u32) -> io::Result<(u32, [u8; 8])> {
    let mut read = [b'.'; 8];
    let taken = read_from(file, at, &mut read)?;
    Ok((taken, read))
}

// Writes two pieces, of which the second begins past the end, and syncs.
fn write_pieces<F: PlacedFile>(file: &mut Option<F>) -> io::Result<()> {
    write_from(file, 2, b"DISK")?;
    write_from(file, 8, b"!")?;
    sync_all(file)
}

#[test]
fn bytes_are_written_at_a_place(rt: HostRuntime) -> Result<(), Fail> {
    let mut file = file_of(rt.alloc(), b"a disk", 1)?;
    write_pieces(&mut file)?;
    if let Some(file) = &file {
        assert!(rt; file.bytes() == b"a DISK\0\0!".as_slice());
        assert_eq!(rt; file.syncs(), 1);
    }
    Ok(())
}

#[test]
fn bytes_are_read_from_a_place(rt: HostRuntime) -> Result<(), Fail> {
    let mut file = file_of(rt.alloc(), b"a disk", 8)?;
    assert!(rt; read_of(&mut file, 2)? == (4, *b"disk...."));
    assert!(rt; read_of(&mut file, 6)? == (0, *b"........"));
    Ok(())
}

#[test]
fn a_file_that_is_not_chosen_fails(rt: HostRuntime) {
    assert!(rt; read_of::<MemoryFile>(&mut None, 0).is_err());
    assert!(rt; write_pieces::<MemoryFile>(&mut None).is_err());
    assert!(rt; sync_all::<MemoryFile>(&mut None).is_err());
}

#[test]
fn a_real_file_is_a_disk(rt: HostRuntime) -> Result<(), Fail> {
    let alloc = rt.alloc();
    let name = String::from_str(alloc, "host-disk-test")?;
    let _ = std::fs::remove_file(&rt, name.as_str());
    let mut disk = HostDisk::new(&rt);
    assert_eq!(rt; disk.sync(), DiskAnswer::Failed);
    assert_eq!(rt; disk.choose(&name, true), DiskAnswer::Done);
    let mode = std::fs::metadata(&rt, name.as_str())?.permissions().mode();
    assert_eq!(rt; mode & 0o777, 0o600);
    // A second opener can't choose the file while it is chosen.
    let mut other = HostDisk::new(&rt);
    assert_eq!(rt; other.choose(&name, false), DiskAnswer::Failed);
    assert_eq!(rt; disk.write_at(0, b"a disk"), DiskAnswer::Done);
    assert_eq!(rt; disk.write_at(2, b"DISK"), DiskAnswer::Done);
    assert_eq!(rt; disk.sync(), DiskAnswer::Done);
    let mut read = [0; 8];
    assert_eq!(rt; disk.read_at(0, &mut read), DiskRead::Read { taken: 6 });
    assert_eq!(rt; &read, b"a DISK\0\0");
    assert_eq!(rt; disk.read_at(6, &mut read), DiskRead::Read { taken: 0 });
    assert_eq!(rt; disk.choose(&name, true), DiskAnswer::Failed);
    assert_eq!(rt; disk.read_at(0, &mut read), DiskRead::Failed);
    assert_eq!(rt; disk.choose(&name, false), DiskAnswer::Done);
    assert_eq!(rt; disk.read_at(2, &mut read), DiskRead::Read { taken: 4 });
    std::fs::remove_file(&rt, name.as_str())?;
    Ok(())
}
