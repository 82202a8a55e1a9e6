//! A member's computer: its files, and the disk of its key file.

use crash_disk::{Disk, MemoryDisk};
use offline_commands::{Files, MemoryFiles, MemorySink, Status};
use online_commands::run;
use round_link::{Link, LinkCall, MemoryLink};
use std::alloc::{AllocError, Global};
use std::sync::Wait;
use std::thread::Threads;
use wire_core::Mem;

/// How a command ended: the number of its status, and what it printed.
#[derive(Drop)]
pub(crate) struct Ended {
    pub(crate) number: u8,
    pub(crate) printed: String,
}

/// How a command ended where nobody else was there, and how many posts it made.
#[derive(Drop)]
pub(crate) struct Alone {
    pub(crate) ended: Ended,
    pub(crate) posts: usize,
}

/// The files and the disk that the commands of a member run over.
#[derive(Drop)]
pub(crate) struct Computer {
    pub(crate) member: u8,
    files: MemoryFiles,
    disk: MemoryDisk,
}

impl Computer {
    /// That of a member, with no file yet.
    pub(crate) fn new(alloc: Global, member: u8) -> Mem<Computer> {
        Ok(Computer {
            member,
            files: MemoryFiles::new(alloc, Vec::new(alloc)),
            disk: MemoryDisk::new(alloc, 64, Vec::new(alloc))?,
        })
    }

    /// Puts a file under a name.
    pub(crate) fn put(&mut self, alloc: Global, name: &str, bytes: &[u8]) -> Mem<()> {
        let bytes = Vec::from_slice(alloc, bytes)?;
        let _ = self.files.write(&String::from_str(alloc, name)?, &bytes);
        Ok(())
    }

    /// How a command ends here over a link.
    pub(crate) fn run<R: Threads + Wait + Sync, L: Link>(
        &mut self,
        rt: &R,
        alloc: Global,
        words: &Vec<String>,
        fresh: [u8; 32],
        link: &mut L,
    ) -> Mem<Ended> {
        let mut out = MemorySink::new(alloc, Vec::new(alloc));
        let files = &mut self.files;
        let disk = &mut self.disk;
        let status = status_over(rt, alloc, words, files, disk, link, fresh, &mut out);
        Ok(Ended {
            number: status.number(),
            printed: String::from_utf8_lossy(alloc, out.written())?,
        })
    }

    /// How a command ends here where nobody else is there.
    pub(crate) fn run_alone<R: Threads + Wait + Sync>(
        &mut self,
        rt: &R,
        alloc: Global,
        words: &Vec<String>,
        fresh: [u8; 32],
    ) -> Mem<Alone> {
        let Some(mut link) = MemoryLink::new(alloc, Vec::new(alloc), Vec::new(alloc)) else {
            return Err(AllocError);
        };
        let ended = self.run(rt, alloc, words, fresh, &mut link)?;
        let posts = posts_on(&link);
        Ok(Alone { ended, posts })
    }
}

// The status of a command. It stands alone, so that what `run` promises is not carried along where nobody asks for it.
fn status_over<R: Threads + Wait + Sync, F: Files, D: Disk, L: Link>(
    rt: &R,
    alloc: Global,
    words: &Vec<String>,
    files: &mut F,
    disk: &mut D,
    link: &mut L,
    fresh: [u8; 32],
    out: &mut MemorySink,
) -> Status {
    run(rt, alloc, words, files, disk, link, fresh, out)
}

// How many posts were made on a link.
fn posts_on(link: &MemoryLink) -> usize {
    link.calls()
        .iter()
        .filter(|call| matches!(call, LinkCall::Posted(_)))
        .count()
}
