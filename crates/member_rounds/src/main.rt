//! Prints how commands end that go through the top call, over files, disks and links in memory: the number of the status,
//! that of the posts, and what the command printed. A member of a group of two hears nothing, and then runs for the same
//! round once more; the first `recv` fails; 1,000,001 empty frames arrive; its message, roster or key file is wrong, or has
//! too few leaves; the other says two things in one slot, and what it wrote is judged. Then a whole round of two, in which
//! each member runs over what the other has posted so far. Last, evidence that lies in files is judged.
#![tactic(auto)]

mod computer;
mod rounds;

use crate::computer::{Computer, Ended, run_over};
use crate::rounds::{
    MEMBER, failing_link, flood, of_member, silence, two_in_one_slot, whole_round, with_file,
    with_other_roster, with_used_key, with_zero_key,
};
use anyhow::Result;
use crash_disk::MemoryDisk;
use offline_commands::HostFiles;
use std::alloc::Global;
use std::rt::Runtime;
use std::sync::Wait;
use std::thread::Threads;

const JUDGE: [&str; 5] = ["judge", "--roster", "r", "--transcript", "t"];

const JUDGE_STORED: [&str; 5] = ["judge", "--roster", "roster", "--transcript", "transcript"];

// Prints how a command ended.
fn print_end<R: Runtime>(rt: &R, ended: &Ended) -> Result<()> {
    let number = ended.number;
    let posts = ended.posts.len();
    let printed = &ended.printed;
    print!(rt; "{number} {posts} {printed}")?;
    Ok(())
}

// A member that hears nothing, and the same words once more.
fn print_silence<R: Runtime<A = Global> + Threads + Wait + Sync>(rt: &R) -> Result<()> {
    let alloc = rt.alloc();
    let mut computer = Computer::of_member(rt, alloc, 1)?;
    print_end(rt, &computer.run(rt, alloc, &MEMBER, silence(alloc, 1))?)?;
    print_end(rt, &computer.run(rt, alloc, &MEMBER, silence(alloc, 1))?)
}

// Links that fail or flood.
fn print_links<R: Runtime<A = Global> + Threads + Wait + Sync>(rt: &R) -> Result<()> {
    let alloc = rt.alloc();
    print_end(rt, &of_member(rt, alloc, 1, failing_link(alloc))?)?;
    print_end(rt, &of_member(rt, alloc, 1, flood(alloc)?)?)
}

// Words whose files are refused.
fn print_refused<R: Runtime<A = Global> + Threads + Wait + Sync>(rt: &R) -> Result<()> {
    let alloc = rt.alloc();
    let long = vec![in alloc; 0; 65_537]?;
    print_end(rt, &with_file(rt, alloc, "m", &long)?)?;
    print_end(rt, &with_other_roster(rt, alloc)?)?;
    print_end(rt, &with_zero_key(rt, alloc)?)?;
    print_end(rt, &with_used_key(rt, alloc)?)
}

// A member that blames the other, and the judge of what it wrote.
fn print_blame<R: Runtime<A = Global> + Threads + Wait + Sync>(rt: &R) -> Result<()> {
    let alloc = rt.alloc();
    let mut computer = Computer::of_member(rt, alloc, 1)?;
    let given = two_in_one_slot(rt, alloc)?;
    print_end(rt, &computer.run(rt, alloc, &MEMBER, given)?)?;
    print_end(rt, &computer.run(rt, alloc, &JUDGE, silence(alloc, 1))?)
}

// Both members of a whole round.
fn print_round<R: Runtime<A = Global> + Threads + Wait + Sync>(rt: &R) -> Result<()> {
    let (first, second) = whole_round(rt, rt.alloc())?;
    print_end(rt, &first)?;
    print_end(rt, &second)
}

// The judge of evidence in files.
fn print_stored<R: Runtime<A = Global> + Threads + Wait + Sync>(rt: &R) -> Result<()> {
    let alloc = rt.alloc();
    let mut files = HostFiles::new(rt, alloc);
    let mut disk = MemoryDisk::new(alloc, 0, Vec::new(alloc))?;
    let given = silence(alloc, 1);
    print_end(
        rt,
        &run_over(rt, alloc, &JUDGE_STORED, &mut files, &mut disk, given)?,
    )
}

fn main(rt: HostRuntime) -> Result<()> {
    print_silence(&rt)?;
    print_links(&rt)?;
    print_refused(&rt)?;
    print_blame(&rt)?;
    print_round(&rt)?;
    print_stored(&rt)
}
