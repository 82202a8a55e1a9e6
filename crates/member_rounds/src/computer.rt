//! A member's computer: its files, and the disk of its key file.

use crash_disk::{Disk, MemoryDisk};
use lms_tree::{LmsSecret, MadeHeight, OtsType};
use offline_commands::{Files, MemoryFiles, MemorySink, Status};
use online_commands::run;
use round_link::{LinkCall, MemoryLink};
use std::alloc::{AllocError, Global};
use std::sync::Wait;
use std::thread::Threads;
use wire_core::{List, Mem, Register, Tag};

const SEED: [u8; 32] =
    *b"\xa9\x5a\xdc\x64\x4b\x94\xc1\x0c\x3a\x3f\x49\x5e\x83\x24\x17\x0d\x5c\x85\x6b\x86\x6a\xb3\x84\x8f\xe8\xa4\xb1\x75\xbf\x65\x1b\xdc";

const KEYGEN: [&str; 7] = ["keygen", "--key", "k", "--height", "5", "--width", "4"];

/// How a command ended: the number of its status, the posts that it made, and what it printed.
#[derive(Drop)]
pub(crate) struct Ended {
    pub(crate) number: u8,
    pub(crate) posts: Vec<List<u8>>,
    pub(crate) printed: String,
}

/// The files and the disk that a member's commands run over.
#[derive(Drop)]
pub(crate) struct Computer {
    pub(crate) files: MemoryFiles,
    pub(crate) disk: MemoryDisk,
}

impl Computer {
    /// The roster of members 1 and 2 in the file r, a member's message in m, a letter, and its key file k, as `keygen`
    /// makes it.
    pub(crate) fn of_member<R: Threads + Wait + Sync>(
        rt: &R,
        alloc: Global,
        member: u8,
    ) -> Mem<Computer> {
        let files = MemoryFiles::new(alloc, Vec::new(alloc));
        let disk = MemoryDisk::new(alloc, 64, Vec::new(alloc))?;
        let mut computer = Computer { files, disk };
        computer.put(alloc, "r", &roster_of(alloc, 1, 2)?)?;
        let letter = if member == 1 { b'a' } else { b'b' };
        computer.put(alloc, "m", &vec![in alloc; letter; 1]?)?;
        let key = Given {
            fresh: of_seed(Tag::ScriptKey, member),
            arrivals: Vec::new(alloc),
            failing: 0,
        };
        computer.run(rt, alloc, &KEYGEN, key)?;
        Ok(computer)
    }

    /// Puts a file under a name.
    pub(crate) fn put(&mut self, alloc: Global, name: &str, bytes: &Vec<u8>) -> Mem<()> {
        let _ = self.files.write(&String::from_str(alloc, name)?, bytes);
        Ok(())
    }

    /// Puts a key file of at most 128 bytes in the place of that which is there.
    pub(crate) fn hold(&mut self, alloc: Global, bytes: &[u8]) -> Mem<()> {
        if bytes.len() <= 128 {
            self.disk = MemoryDisk::holding(alloc, b"k", bytes, 64, Vec::new(alloc))?;
        }
        Ok(())
    }

    /// How a command ends here.
    pub(crate) fn run<R: Threads + Wait + Sync>(
        &mut self,
        rt: &R,
        alloc: Global,
        words: &[&str],
        given: Given,
    ) -> Mem<Ended> {
        run_over(rt, alloc, words, &mut self.files, &mut self.disk, given)
    }
}

/// What a command is given beside its words: bytes for secrets; the frames that arrive; and the number, from
/// 1, of the call of the link that fails, or 0.
#[derive(Drop)]
pub(crate) struct Given {
    pub(crate) fresh: [u8; 32],
    pub(crate) arrivals: Vec<List<u8>>,
    pub(crate) failing: u64,
}

/// How a command ends over these files and this disk.
pub(crate) fn run_over<R: Threads + Wait + Sync, F: Files, D: Disk>(
    rt: &R,
    alloc: Global,
    words: &[&str],
    files: &mut F,
    disk: &mut D,
    given: Given,
) -> Mem<Ended> {
    let Given {
        fresh,
        arrivals,
        failing,
    } = given;
    let words = words_of(alloc, words)?;
    // No frame here has 2^32 bytes.
    let Some(mut link) = MemoryLink::new(alloc, arrivals, vec![in alloc; failing; 1]?) else {
        return Err(AllocError);
    };
    let mut out = MemorySink::new(alloc, Vec::new(alloc));
    let status = status_over(rt, alloc, &words, files, disk, &mut link, fresh, &mut out);
    Ok(Ended {
        number: status.number(),
        posts: posts_on(alloc, &link)?,
        printed: String::from_utf8_lossy(alloc, out.written())?,
    })
}

// The status of a command. It stands alone, so that what `run` promises is not carried along where nobody asks for it.
fn status_over<R: Threads + Wait + Sync, F: Files, D: Disk>(
    rt: &R,
    alloc: Global,
    words: &Vec<String>,
    files: &mut F,
    disk: &mut D,
    link: &mut MemoryLink,
    fresh: [u8; 32],
    out: &mut MemorySink,
) -> Status {
    run(rt, alloc, words, files, disk, link, fresh, out)
}

fn words_of(alloc: Global, words: &[&str]) -> Mem<Vec<String>> {
    let mut all = Vec::new(alloc);
    for word in words {
        all.push(String::from_str(alloc, word)?)?;
    }
    Ok(all)
}

// The posts that were made on a link.
fn posts_on(alloc: Global, link: &MemoryLink) -> Mem<Vec<List<u8>>> {
    let mut posts = Vec::new(alloc);
    for call in link.calls() {
        if let LinkCall::Posted(bytes) = call {
            posts.push(List::of(bytes.items().clone()?))?;
        }
    }
    Ok(posts)
}

/// What is made of the round's seed for a member.
pub(crate) fn of_seed(tag: Tag, member: u8) -> [u8; 32] {
    let mut register = Register::new(tag);
    register.piece(&SEED);
    register.piece(&[member]);
    register.end()
}

/// The file of a roster of the keys of these members.
pub(crate) fn roster_of(alloc: Global, first: u8, second: u8) -> Mem<Vec<u8>> {
    let mut roster = Vec::from_slice(alloc, b"DSRO\x01\x02")?;
    for member in [first, second] {
        let master = of_seed(Tag::ScriptKey, member);
        let key = LmsSecret::make(alloc, MadeHeight::H5, OtsType::W4, &master, 0)?;
        roster.extend_from_slice(&key.public().bytes())?;
    }
    Ok(roster)
}
