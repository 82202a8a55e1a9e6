//! Commands over files and sinks in memory, and the adapters over real files.

use crate::draw;
use crate::evidence::first_other_line;
use crash_disk::{Disk, MemoryDisk};
use host_disk::{HostDisk, Lock};
use offline_commands::{
    FileRead, FileWrite, Files, HostFiles, MemoryFiles, MemorySink, Sink, SinkAnswer, WriterSink,
    run_offline,
};
use std::alloc::{AllocError, Global};
use std::io;
use std::random::RandomSource;
use std::rt::Runtime;
use std::test::Fail;
use std::thread::Threads;

// One test, since each that runs a command is proved with all that commands do.
#[test]
fn commands_end_as_they_ought_to(rt: HostRuntime) -> Result<(), Fail> {
    let alloc = rt.alloc();
    assert_eq!(rt; first_other_usage(&rt, alloc)?, None);
    assert_eq!(rt; first_other_end(&rt, alloc)?, None);
    assert_eq!(rt; first_other_line(&rt, alloc)?, None);
    assert!(rt; is_roster_made(&rt, alloc)?);
    assert!(rt; is_failed_write_told(&rt, alloc)?);
    assert!(rt; is_real_key_made(&rt, alloc)?);
    Ok(())
}

// What `keygen` makes a key of.
const FRESH: [u8; 32] = [7; 32];

// The number, from 1, of the call that fails of the files, the disk and the sink; 0 where none does. The files' calls
// count from the first write of a file that is there before the command.
#[derive(Clone, Copy)]
pub(crate) struct Failing {
    files: u64,
    disk: u64,
    sink: u64,
}

pub(crate) const NOTHING_FAILS: Failing = Failing {
    files: 0,
    disk: 0,
    sink: 0,
};

// How a command ended: the number of its status, and what it printed.
#[derive(Drop)]
pub(crate) struct Ended {
    number: u8,
    printed: Vec<u8>,
}

impl Ended {
    pub(crate) fn is(&self, number: u8, line: &[u8]) -> bool {
        self.number == number && self.printed.as_slice() == line
    }
}

// Puts a file of a name where a command finds it.
pub(crate) fn put<F: Files>(
    alloc: Global,
    files: &mut F,
    name: &str,
    bytes: &Vec<u8>,
) -> Result<(), AllocError> {
    let _ = files.write(&String::from_str(alloc, name)?, bytes);
    Ok(())
}

fn words_of(alloc: Global, words: &[&str]) -> Result<Vec<String>, AllocError> {
    let mut all = Vec::new(alloc);
    for word in words {
        all.push(String::from_str(alloc, word)?)?;
    }
    Ok(all)
}

// How a command ends over these objects of the outside.
fn run_over<R: Threads + Sync, F: Files, D: Disk>(
    rt: &R,
    alloc: Global,
    words: &[&str],
    files: &mut F,
    disk: &mut D,
    failing: Failing,
) -> Result<Ended, AllocError> {
    let words = words_of(alloc, words)?;
    let mut out = MemorySink::new(alloc, vec![in alloc; failing.sink; 1]?);
    let status = run_offline(rt, alloc, &words, files, disk, FRESH, &mut out);
    Ok(Ended {
        number: status.number(),
        printed: Vec::from_slice(alloc, out.written())?,
    })
}

// How a command ends over these files, and a disk and a sink in memory.
pub(crate) fn run_words<R: Threads + Sync, F: Files>(
    rt: &R,
    alloc: Global,
    words: &[&str],
    files: &mut F,
    failing: Failing,
) -> Result<Ended, AllocError> {
    let mut disk = MemoryDisk::new(alloc, 8, vec![in alloc; failing.disk; 1]?)?;
    run_over(rt, alloc, words, files, &mut disk, failing)
}

// What a file holds.
#[derive(Clone, Copy)]
enum Content {
    // A roster of two keys of H5 and W4.
    RosterOfTwo,
    // The same, with 1 for the number of its keys.
    RosterOfOne,
    // The roster of two in TOML.
    TomlOfTwo,
    // A post of round 7 by a member of the roster of two, with no signature.
    PostOfRound7,
    // This number of bytes 0.
    Zeros(usize),
}

impl Content {
    fn bytes(self, alloc: Global) -> Result<Vec<u8>, AllocError> {
        match self {
            Content::RosterOfTwo => roster_of_two(alloc, 2),
            Content::RosterOfOne => roster_of_two(alloc, 1),
            Content::TomlOfTwo => toml_of_two(alloc),
            Content::PostOfRound7 => post_of_round_7(alloc),
            Content::Zeros(count) => vec![in alloc; 0; count],
        }
    }
}

// A roster of this number of keys, and two of H5 and W4.
fn roster_of_two(alloc: Global, count: u8) -> Result<Vec<u8>, AllocError> {
    let mut bytes = Vec::from_slice(alloc, b"DSRO\x01")?;
    bytes.push(count)?;
    for member in [1, 2] {
        bytes.extend_from_slice(&[0, 0, 0, 5, 0, 0, 0, 3])?;
        bytes.extend_from_slice(&[member; 48])?;
    }
    Ok(bytes)
}

fn toml_of_two(alloc: Global) -> Result<Vec<u8>, AllocError> {
    let mut text = Vec::from_slice(alloc, b"version = 1\n")?;
    for digit in [b'1', b'2'] {
        text.extend_from_slice(b"[[member]]\nkey = \"0000000500000003")?;
        for _ in 0..48 {
            text.extend_from_slice(&[b'0', digit])?;
        }
        text.extend_from_slice(b"\"\n")?;
    }
    Ok(text)
}

fn post_of_round_7(alloc: Global) -> Result<Vec<u8>, AllocError> {
    let Ok(roster) = group_roster::decode(alloc, &roster_of_two(alloc, 2)?) else {
        return Err(AllocError);
    };
    let mut bytes = Vec::from_slice(alloc, &[0, 0, 0, 76, 1])?;
    bytes.extend_from_slice(&roster.id())?;
    bytes.extend_from_slice(&7u64.to_be_bytes())?;
    bytes.extend_from_slice(&[0, 1])?;
    bytes.extend_from_slice(&[0; 33])?;
    Ok(bytes)
}

// Files of these names.
fn files_of(
    alloc: Global,
    failing: Failing,
    named: &[(&str, Content)],
) -> Result<MemoryFiles, AllocError> {
    let mut files = MemoryFiles::new(alloc, vec![in alloc; failing.files; 1]?);
    for (name, content) in named {
        put(alloc, &mut files, name, &content.bytes(alloc)?)?;
    }
    Ok(files)
}

// A command over named files, and the number and the line that it ends with.
#[derive(Clone, Copy)]
struct Case {
    words: &'static [&'static str],
    named: &'static [(&'static str, Content)],
    failing: Failing,
    number: u8,
    line: &'static [u8],
}

// Whether a command ends as its case says.
fn ends<R: Threads + Sync>(rt: &R, alloc: Global, case: &Case) -> Result<bool, AllocError> {
    let mut files = files_of(alloc, case.failing, case.named)?;
    let ended = run_words(rt, alloc, case.words, &mut files, case.failing)?;
    Ok(ended.is(case.number, case.line))
}

const JUDGE: [&str; 5] = ["judge", "--roster", "r", "--transcript", "t"];

const SHOW: [&str; 7] = ["show", "--roster", "r", "--round", "8", "--post", "t"];

const ROSTER: [&str; 5] = ["roster", "--toml", "t", "--out", "o"];

const KEYGEN: [&str; 7] = ["keygen", "--key", "k", "--height", "5", "--width", "8"];

// Words that are not those of a command.
const OTHER_WORDS: [&[&str]; 15] = [
    &["judge", "--roster", "r"],
    &["judge", "--roster", "r", "--transcript"],
    &["judge", "--roster", "r", "--transcript", "-t"],
    &["judge", "--roster", "r", "--transcript", "t", "--roster=r"],
    &["show", "--roster", "r", "--round", "0", "--post", "t"],
    &["show", "--roster", "r", "--round", "08", "--post", "t"],
    &[
        "show",
        "--roster",
        "r",
        "--round",
        "18446744073709551616",
        "--post",
        "t",
    ],
    &["roster", "--toml", "t", "--transcript", "o"],
    &["roster", "--toml", "t", "--out", "o", "p"],
    &["keygen", "--key", "--height", "5", "--width", "8"],
    &["keygen", "--key=k", "--height", "5", "--width", ""],
    &["keygen", "--key", "k", "--height", "6", "--width", "8"],
    &["keygen", "--key", "k", "--height", "05", "--width", "8"],
    &["keygen", "--key", "k", "--height", "5", "--width", "3"],
    &["keygen", "--key", "k", "--width", "8", "--length", "5"],
];

// The first of these words that is not answered by `usage`.
fn first_other_usage<R: Threads + Sync>(
    rt: &R,
    alloc: Global,
) -> Result<Option<usize>, AllocError> {
    for (place, words) in OTHER_WORDS.iter().enumerate() {
        let mut files = files_of(alloc, NOTHING_FAILS, &[])?;
        let ended = run_words(rt, alloc, words, &mut files, NOTHING_FAILS)?;
        if !ended.is(1, b"usage\n") {
            return Ok(Some(place));
        }
    }
    Ok(None)
}

// Missing, failing and wrong files, each with its status and its line.
const CASES: [Case; 9] = [
    // The options of a command stand in any order, and may be joined to their values.
    Case {
        words: &["judge", "--transcript=t", "--roster", "r"],
        named: &[],
        failing: NOTHING_FAILS,
        number: 5,
        line: b"read fault\n",
    },
    // The transcript can't be read.
    Case {
        words: &JUDGE,
        named: &[("r", Content::RosterOfTwo), ("t", Content::Zeros(100))],
        failing: Failing {
            files: 4,
            disk: 0,
            sink: 0,
        },
        number: 5,
        line: b"read fault\n",
    },
    Case {
        words: &JUDGE,
        named: &[],
        failing: Failing {
            files: 0,
            disk: 0,
            sink: 1,
        },
        number: 6,
        line: b"",
    },
    Case {
        words: &JUDGE,
        named: &[("r", Content::Zeros(4097))],
        failing: NOTHING_FAILS,
        number: 13,
        line: b"too long limit 4096\n",
    },
    Case {
        words: &JUDGE,
        named: &[("r", Content::RosterOfOne)],
        failing: NOTHING_FAILS,
        number: 11,
        line: b"bad roster at 5 rule 3\n",
    },
    Case {
        words: &SHOW,
        named: &[("r", Content::RosterOfTwo), ("t", Content::Zeros(3))],
        failing: NOTHING_FAILS,
        number: 4,
        line: b"refused check 1 post 1 at 3\n",
    },
    Case {
        words: &SHOW,
        named: &[("r", Content::RosterOfTwo), ("t", Content::PostOfRound7)],
        failing: NOTHING_FAILS,
        number: 4,
        line: b"refused check 4 post 1 at 0\n",
    },
    // A text without a version.
    Case {
        words: &ROSTER,
        named: &[("t", Content::Zeros(0))],
        failing: NOTHING_FAILS,
        number: 11,
        line: b"bad roster at 0 rule 11\n",
    },
    Case {
        words: &KEYGEN,
        named: &[],
        failing: Failing {
            files: 0,
            disk: 1,
            sink: 0,
        },
        number: 8,
        line: b"disk fault\n",
    },
];

// The first of these cases that ends otherwise.
fn first_other_end<R: Threads + Sync>(rt: &R, alloc: Global) -> Result<Option<usize>, AllocError> {
    for (place, case) in CASES.iter().enumerate() {
        if !ends(rt, alloc, case)? {
            return Ok(Some(place));
        }
    }
    Ok(None)
}

// What a read of a file of at most 128 bytes gives.
fn read_of<F: Files>(alloc: Global, files: &mut F, name: &str) -> Result<FileRead, AllocError> {
    Ok(files.read(&String::from_str(alloc, name)?, 128))
}

// How `roster` ends over the roster of two in TOML, and what the file that it names holds then.
fn roster_made<R: Threads + Sync>(
    rt: &R,
    alloc: Global,
    failing: Failing,
) -> Result<(Ended, FileRead), AllocError> {
    let mut files = files_of(alloc, failing, &[("t", Content::TomlOfTwo)])?;
    let ended = run_words(rt, alloc, &ROSTER, &mut files, failing)?;
    let read = read_of(alloc, &mut files, "o")?;
    Ok((ended, read))
}

// Whether the roster of two is made of its TOML. The id is the SHA-256 of "DSNT1", the byte 2, the length 118 in four
// bytes, and the roster, by another program.
fn is_roster_made<R: Threads + Sync>(rt: &R, alloc: Global) -> Result<bool, AllocError> {
    let roster = roster_of_two(alloc, 2)?;
    let (ended, read) = roster_made(rt, alloc, NOTHING_FAILS)?;
    let id = b"17c2500c1e21f6290949ca9ccf3e0206ae311e24b1aa59f31de8dc793543b9ec\n";
    Ok(roster.len() == 118 && ended.is(0, id) && holds(&read, &roster))
}

// Whether a read gave these bytes.
fn holds(read: &FileRead, bytes: &Vec<u8>) -> bool {
    match read {
        FileRead::Bytes(read) => read.items() == bytes,
        _ => false,
    }
}

// Whether a failed write of the roster is a write fault that leaves no file.
fn is_failed_write_told<R: Threads + Sync>(rt: &R, alloc: Global) -> Result<bool, AllocError> {
    let failing = Failing {
        files: 3,
        disk: 0,
        sink: 0,
    };
    let (ended, read) = roster_made(rt, alloc, failing)?;
    Ok(ended.is(6, b"") && matches!(read, FileRead::Failed))
}

#[test]
fn real_files_are_written_and_read(rt: HostRuntime) -> Result<(), Fail> {
    let alloc = rt.alloc();
    let name = String::from_str(alloc, "dissent-files-test")?;
    let bytes = vec![in alloc; 7u8; 10]?;
    let mut files = HostFiles::new(&rt, alloc);
    assert_eq!(rt; files.write(&name, &bytes), FileWrite::Written);
    assert!(rt; matches!(files.read(&name, 10), FileRead::Bytes(read) if read.items() == &bytes));
    assert!(rt; matches!(files.read(&name, 9), FileRead::TooLong));
    std::fs::remove_file(&rt, name.as_str())?;
    assert!(rt; matches!(files.read(&name, 10), FileRead::Failed));
    Ok(())
}

const REAL_NAME: &str = "dissent-keygen-test";

const REAL_KEYGEN: [&str; 7] = [
    "keygen",
    "--key",
    "dissent-keygen-test",
    "--height",
    "5",
    "--width",
    "8",
];

// Whether a read gave 128 bytes, with a gate of 1 before the first slot.
fn is_key_file(read: &FileRead) -> bool {
    match read {
        FileRead::Bytes(file) => file.items().len() == 128 && file.items().get(64) == Some(&1),
        _ => false,
    }
}

// Whether a real key file is made, and not a second time.
fn is_real_key_made<R: Runtime + Threads + Sync>(rt: &R, alloc: Global) -> io::Result<bool>
where
    R::File: Lock,
{
    let _ = std::fs::remove_file(rt, REAL_NAME);
    let mut files = HostFiles::new(rt, alloc);
    let mut disk = HostDisk::new(rt);
    let made = run_over(
        rt,
        alloc,
        &REAL_KEYGEN,
        &mut files,
        &mut disk,
        NOTHING_FAILS,
    )?;
    let key =
        b"0000000500000004c38970f99daec961dcb56caff82ff0504de3b0aa54fe7804110429bd2ef14f4d37f7eb3c5340ecd941ae59bc02404f5c\n";
    let read = read_of(alloc, &mut files, REAL_NAME)?;
    let again = run_over(
        rt,
        alloc,
        &REAL_KEYGEN,
        &mut files,
        &mut disk,
        NOTHING_FAILS,
    )?;
    std::fs::remove_file(rt, REAL_NAME)?;
    Ok(made.is(0, key) && is_key_file(&read) && again.is(8, b"disk fault\n"))
}

#[test]
fn the_standard_output_is_written(rt: HostRuntime) -> Result<(), Fail> {
    let piece = vec![in rt.alloc(); b'.'; 1]?;
    assert_eq!(rt;
        WriterSink::new(std::io::writer(&rt)).write(&piece),
        SinkAnswer::Written
    );
    Ok(())
}

// A source of one byte, again and again.
#[derive(Drop)]
struct Always {
    byte: u8,
}

impl RandomSource for Always {
    fn fill_bytes(&self, bytes: &mut [u8]) -> io::Result<()> {
        for byte in bytes {
            *byte = self.byte;
        }
        Ok(())
    }
}

#[test]
fn all_fresh_bytes_are_drawn(rt: HostRuntime) {
    for byte in [1, 7, 255] {
        let mut fresh = [0; 32];
        assert!(rt; draw(&Always { byte }, &mut fresh).is_ok());
        assert!(rt; fresh == [byte; 32]);
    }
}

#[test]
fn two_draws_of_the_system_differ(rt: HostRuntime) {
    let mut first = [0; 32];
    let mut second = [0; 32];
    assert!(rt; draw(&rt, &mut first).is_ok());
    assert!(rt; draw(&rt, &mut second).is_ok());
    assert!(rt; first != second);
}
