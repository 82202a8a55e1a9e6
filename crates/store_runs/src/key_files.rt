//! Key files on disks in memory, with faults, crashes and changed bytes.

ghost use Rattle.std.specs.Prelude.{◌≡◌, replicate};
ghost use Rattle.key_store.specs.Store.{IsCurrent};

use key_store::{Disk, DiskAnswer, KeyFile, MemoryDisk, Pick, StoreRefusal, create};
use lms_tree::{MadeHeight, OtsType};
use std::alloc::Global;
use std::test::Fail;

const MASTER: [u8; 32] = [7; 32];

// The first leaf of a round and how many there are, or the refusal.
type Begun = Result<(u32, u32), StoreRefusal>;

fn begun<D: Disk>(key: &mut KeyFile, alloc: Global, disk: &mut D, round: u64, leaves: u32) -> Begun
    requires { IsCurrent key.old (D.file disk.old) (D.may_leave disk.old) }
    ensures { IsCurrent key.new (D.file disk.new) (D.may_leave disk.new) }
{
    match key.begin_round(alloc, disk, round, leaves) {
        Ok(run) => {
            let answer = (run.next(), run.left());
            run.retire();
            Ok(answer)
        }
        Err(refusal) => Err(refusal),
    }
}

// What the key file answers to a round, and to the same once more.
fn begun_twice<D: Disk>(
    alloc: Global,
    disk: &mut D,
    round: u64,
    leaves: u32,
) -> Result<(Begun, Begun), StoreRefusal> {
    let mut key = KeyFile::load(alloc, disk)?;
    let first = begun(&mut key, alloc, disk, round, leaves);
    let again = begun(&mut key, alloc, disk, round, leaves);
    Ok((first, again))
}

// What the key file stands for: the greatest round, and the next leaf.
fn standing<D: Disk>(alloc: Global, disk: &mut D) -> Result<(u64, u32), StoreRefusal> {
    let mut key = KeyFile::load(alloc, disk)?;
    let old = begun(&mut key, alloc, disk, 0, 0);
    let exhausted = begun(&mut key, alloc, disk, u64::MAX, 33);
    match (old, exhausted) {
        (Err(StoreRefusal::OldRound { kept }), Err(StoreRefusal::Exhausted { next })) => {
            Ok((kept, next))
        }
        _ => Err(StoreRefusal::DiskFault),
    }
}

// The gates of both slots.
fn gates(disk: &MemoryDisk) -> (Option<u8>, Option<u8>) {
    (disk.file().get(64).copied(), disk.file().get(96).copied())
}

fn choose<D: Disk>(disk: &mut D, name: &String, fresh: bool) -> DiskAnswer {
    disk.choose(name, fresh)
}

// A disk on which a fresh file is chosen.
fn chosen(alloc: Global, failing: Vec<u64>) -> Result<MemoryDisk, Fail> {
    let mut disk = MemoryDisk::new(alloc, 40, failing)?;
    let name = String::from_str(alloc, "key")?;
    choose(&mut disk, &name, true);
    Ok(disk)
}

// Makes a key file, and says whether it is loaded with its public key.
fn made<D: Disk>(alloc: Global, disk: &mut D, width: OtsType) -> Result<bool, StoreRefusal> {
    let public = create(alloc, disk, MadeHeight::H5, width, &MASTER)?;
    let key = KeyFile::load(alloc, disk)?;
    Ok(key.public() == public && !key.failed())
}

// Makes a key file and begins two rounds.
fn two_rounds<D: Disk>(alloc: Global, disk: &mut D) -> Result<(), StoreRefusal> {
    create(alloc, disk, MadeHeight::H5, OtsType::W1, &MASTER)?;
    let mut key = KeyFile::load(alloc, disk)?;
    begun(&mut key, alloc, disk, 1, 12)?;
    begun(&mut key, alloc, disk, 2, 12)?;
    Ok(())
}

#[test]
fn what_was_begun_is_kept(rt: HostRuntime) -> Result<(), Fail> {
    let alloc = rt.alloc();
    // Of the fourth row the second call fails, the sync behind the closing of slot 0.
    let mut disk = chosen(alloc, vec![in alloc; 22]?)?;
    assert!(rt; made(alloc, &mut disk, OtsType::W4) == Ok(true));
    let old = Err(StoreRefusal::OldRound { kept: 1 });
    let few = Err(StoreRefusal::Exhausted { next: 12 });
    let fault = Err(StoreRefusal::DiskFault);
    // A round, its leaves, the answer, that to the same once more, and the gate of slot 0 then.
    for (round, leaves, first, again, gate) in [
        (1, 12, Ok((0, 12)), old, 1),
        (1, 1, old, old, 1),
        (2, 21, few, few, 1),
        (2, 12, fault, fault, 0),
        (
            2,
            12,
            Ok((12, 12)),
            Err(StoreRefusal::OldRound { kept: 2 }),
            1,
        ),
    ] {
        let answers = begun_twice(alloc, &mut disk, round, leaves);
        assert!(rt; answers == Ok((first, again)));
        assert_eq!(rt; gates(&disk), (Some(gate), Some(1)));
    }
    Ok(())
}

#[test]
fn leaves_are_handed_out_to_the_last(rt: HostRuntime) -> Result<(), Fail> {
    let alloc = rt.alloc();
    for (used, answer) in [
        (21, Err(StoreRefusal::Exhausted { next: 21 })),
        (20, Ok((20, 12))),
    ] {
        let mut disk = chosen(alloc, Vec::new(alloc))?;
        assert!(rt; made(alloc, &mut disk, OtsType::W1) == Ok(true));
        assert!(rt; begun_twice(alloc, &mut disk, 1, used).is_ok());
        let answers = begun_twice(alloc, &mut disk, 2, 12);
        assert!(rt; matches!(answers, Ok((first, _)) if first == answer));
    }
    Ok(())
}

// A disk that stops after this number of calls, of which two rounds need 17.
fn stopped(alloc: Global, calls: u32) -> Result<MemoryDisk, Fail> {
    let mut disk = chosen(alloc, Vec::new(alloc))?;
    disk.stop_after(calls);
    let ended = two_rounds(alloc, &mut disk);
    if ended.is_ok() != (calls >= 17) {
        return Err(Fail::from("ended too early or too late"));
    }
    Ok(disk)
}

// What the key file stands for after a crash.
fn left(
    alloc: Global,
    disk: &MemoryDisk,
    pick: Pick,
) -> Result<Result<(u64, u32), StoreRefusal>, Fail> {
    let mut after = disk.crash(alloc, pick)?;
    Ok(standing(alloc, &mut after))
}

// What the key file stands for where the disk stopped after this number of calls and a crash then leaves this image.
fn stands_for(calls: u32, pick: Pick) -> Result<(u64, u32), StoreRefusal> {
    let written = pick == Pick::New;
    match calls {
        0 => Err(StoreRefusal::NotKeyFile { at: 0 }),
        1 if !written => Err(StoreRefusal::NotKeyFile { at: 0 }),
        1 | 2 => Err(StoreRefusal::NotKeyFile { at: 64 }),
        3 if !written => Err(StoreRefusal::NotKeyFile { at: 64 }),
        3..=9 => Ok((0, 0)),
        10 if !written => Ok((0, 0)),
        10..=15 => Ok((1, 12)),
        16 if !written => Ok((1, 12)),
        _ => Ok((2, 24)),
    }
}

#[test]
fn a_crash_at_any_call_leaves_what_was_begun(rt: HostRuntime) -> Result<(), Fail> {
    let alloc = rt.alloc();
    for calls in [0, 1, 2, 3, 4, 10, 11, 12, 13, 14, 15, 16, 17] {
        let disk = stopped(alloc, calls)?;
        for pick in [Pick::Old, Pick::New, Pick::Ones] {
            assert_eq!(rt;
                left(alloc, &disk, pick)?,
                stands_for(calls, pick),
                "after {calls}"
            );
        }
    }
    Ok(())
}

// Zeros.
fn blank() -> [u8; 128]
    ensures { result ≡ replicate 128 0 }
{
    [0; 128]
}

// A file with this head, and with slots of these gates, rounds and next leaves.
fn file_with(head: &[u8], slots: [(u8, u8, u8); 2]) -> [u8; 128] {
    let mut file = blank();
    let size = head.len().min(64);
    file[..size].copy_from_slice(&head[..size]);
    for (at, (gate, round, next)) in [64, 96].into_iter().zip(slots) {
        file[at] = gate;
        file[at + 8] = round;
        file[at + 12] = next;
    }
    file
}

// A disk that held zeros, of which this call of two rounds fails; they make 17.
fn failed(alloc: Global, failing: u64) -> Result<MemoryDisk, Fail> {
    let mut disk = MemoryDisk::holding(alloc, b"key", &[0; 128], 40, vec![in alloc; failing]?)?;
    let ended = two_rounds(alloc, &mut disk);
    let expected = if failing > 17 {
        Ok(())
    } else {
        Err(StoreRefusal::DiskFault)
    };
    if ended != expected || disk.calls() != failing.min(17) {
        return Err(Fail::from("ended too early or too late"));
    }
    Ok(disk)
}

#[test]
fn a_fault_of_any_call_leaves_what_was_written_before(rt: HostRuntime) -> Result<(), Fail> {
    let alloc = rt.alloc();
    let whole = failed(alloc, 18)?;
    // The call that fails, how many bytes of the head are written, and both slots: gate, round, next leaf.
    for (failing, head, slots) in [
        (1, 0, [(0, 0, 0), (0, 0, 0)]),
        (2, 64, [(0, 0, 0), (0, 0, 0)]),
        (3, 64, [(0, 0, 0), (0, 0, 0)]),
        (4, 64, [(1, 0, 0), (0, 0, 0)]),
        (5, 64, [(1, 0, 0), (0, 0, 0)]),
        (6, 64, [(1, 0, 0), (0, 0, 0)]),
        (7, 64, [(1, 0, 0), (0, 0, 0)]),
        (8, 64, [(1, 0, 0), (0, 0, 0)]),
        (9, 64, [(1, 0, 0), (0, 1, 12)]),
        (10, 64, [(1, 0, 0), (0, 1, 12)]),
        (11, 64, [(1, 0, 0), (1, 1, 12)]),
        (12, 64, [(1, 0, 0), (1, 1, 12)]),
        (13, 64, [(0, 0, 0), (1, 1, 12)]),
        (14, 64, [(0, 0, 0), (1, 1, 12)]),
        (15, 64, [(0, 2, 24), (1, 1, 12)]),
        (16, 64, [(0, 2, 24), (1, 1, 12)]),
        (17, 64, [(1, 2, 24), (1, 1, 12)]),
        (18, 64, [(1, 2, 24), (1, 1, 12)]),
    ] {
        let disk = failed(alloc, failing)?;
        let head = whole.file().get(..head).unwrap_or(&[]);
        assert_eq!(rt;
            disk.file(),
            file_with(head, slots).as_slice(),
            "at {failing}"
        );
    }
    Ok(())
}

// The head of a key file: "DSKF", version 1, H5, W4.
const HEAD: [u8; 13] = [68, 83, 75, 70, 1, 0, 0, 0, 5, 0, 0, 0, 3];

// Where 128 bytes that begin with a changed head are refused.
fn changed(alloc: Global, place: usize, size: usize) -> Result<Option<StoreRefusal>, Fail> {
    let mut bytes = [0; 128];
    bytes[..13].copy_from_slice(&HEAD);
    if place < 128 {
        bytes[place] = 9;
    }
    let mut disk = MemoryDisk::holding(
        alloc,
        b"key",
        &bytes[..size.min(128)],
        40,
        Vec::new(alloc),
    )?;
    Ok(KeyFile::load(alloc, &mut disk).err())
}

#[test]
fn the_first_place_that_is_wrong_is_told(rt: HostRuntime) -> Result<(), Fail> {
    let alloc = rt.alloc();
    // A place that is changed, the bytes of the file, and where it is refused.
    for (place, size, at) in [
        (0, 128, 0),
        (3, 4, 0),
        (3, 3, 3),
        (4, 128, 4),
        (8, 9, 5),
        (8, 8, 8),
        (12, 20, 9),
        (20, 127, 127),
        (64, 128, 64),
    ] {
        assert!(rt; changed(alloc, place, size)? == Some(StoreRefusal::NotKeyFile { at }));
    }
    let mut zeros = MemoryDisk::holding(alloc, b"key", &[0; 128], 40, Vec::new(alloc))?;
    assert!(rt; standing(alloc, &mut zeros) == Err(StoreRefusal::NotKeyFile { at: 0 }));
    Ok(())
}
