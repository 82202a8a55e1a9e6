//! Names that are chosen on a disk in memory.

use crash_disk::{Disk, DiskAnswer, MemoryDisk};
use std::test::Fail;

fn choose<D: Disk>(disk: &mut D, name: &String, fresh: bool) -> DiskAnswer {
    disk.choose(name, fresh)
}

fn write<D: Disk>(disk: &mut D) -> DiskAnswer {
    disk.write_at(0, b"x")
}

#[test]
fn one_name_is_chosen(rt: HostRuntime) -> Result<(), Fail> {
    let alloc = rt.alloc();
    let mut disk = MemoryDisk::new(alloc, 40, Vec::new(alloc))?;
    // A name, whether it is to be fresh, and the answer to its choice, and then to a write.
    for (name, fresh, answer) in [
        ("key", false, DiskAnswer::Failed),
        ("key", true, DiskAnswer::Done),
        ("key", true, DiskAnswer::Failed),
        ("other", true, DiskAnswer::Failed),
        ("other", false, DiskAnswer::Failed),
        ("key", false, DiskAnswer::Done),
    ] {
        let name = String::from_str(alloc, name)?;
        assert_eq!(rt; choose(&mut disk, &name, fresh), answer);
        assert_eq!(rt; write(&mut disk), answer);
    }
    assert_eq!(rt; disk.file(), b"x".as_slice());
    Ok(())
}
