//! Prints how runs of a member over a link in memory end, and its posts.

use crate::running::{Ran, run_over};
use crate::shown::shown;
use anyhow::{Context, Result};
use member_run::RunEnd;
use std::alloc::Global;
use std::rt::Runtime;
use wire_core::List;

// A word for how a run ends.
fn word_of(end: RunEnd) -> &'static str {
    match end {
        RunEnd::Ended => "ended",
        RunEnd::Waiting => "waiting",
        RunEnd::LinkFault => "link fault",
        RunEnd::Flooded => "flooded",
        RunEnd::OutOfMemory => "out of memory",
    }
}

// Prints how a run ends, and the number of its posts.
fn print_end<R: Runtime>(rt: &R, ran: &Ran) -> Result<()> {
    let word = word_of(ran.end);
    let posts = ran.posts.len();
    println!(rt; "{word} {posts}")?;
    Ok(())
}

// Prints how a run ends, and its posts.
fn print_whole<R: Runtime>(rt: &R, alloc: Global, ran: &Ran) -> Result<()> {
    print_end(rt, ran)?;
    for post in &ran.posts {
        let line = shown(alloc, post.items())?;
        println!(rt; "{line}")?;
    }
    Ok(())
}

// Prints how the first member's run over these frames ends, where the call with this number fails.
fn print_run<R: Runtime>(
    rt: &R,
    alloc: Global,
    arrivals: &Vec<List<u8>>,
    failing: u64,
) -> Result<()> {
    let ran = run_over(alloc, 1, b"a", arrivals, failing)?.context("no run")?;
    print_end(rt, &ran)
}

// Runs the round until no member has more to post.
fn run_round(alloc: Global) -> Result<(Ran, Ran)> {
    let nothing = Vec::new(alloc);
    let mut second = run_over(alloc, 2, b"b", &nothing, 0)?.context("no run")?;
    let mut first = run_over(alloc, 1, b"a", &second.posts, 0)?.context("no run")?;
    for _ in 0..8 {
        second = run_over(alloc, 2, b"b", &first.posts, 0)?.context("no run")?;
        first = run_over(alloc, 1, b"a", &second.posts, 0)?.context("no run")?;
    }
    Ok((first, second))
}

// The runs of the first member over nothing, and over more frames than a run takes.
fn print_short<R: Runtime>(rt: &R, alloc: Global) -> Result<()> {
    let nothing = Vec::new(alloc);
    print_run(rt, alloc, &nothing, 0)?;
    print_run(rt, alloc, &nothing, 2)?;
    let mut empty = Vec::new(alloc);
    for _ in 0..1_000_001 {
        empty.push(List::of(Vec::new(alloc)))?;
    }
    print_run(rt, alloc, &empty, 0)
}

/// Prints runs that end early, runs of a round in which each post fails in turn, and that round.
pub(crate) fn print_runs<R: Runtime>(rt: &R, alloc: Global) -> Result<()> {
    print_short(rt, alloc)?;
    let (first, second) = run_round(alloc)?;
    // The odd calls of this run are its posts, and the even ones take frames.
    for post in 0..8 {
        print_run(rt, alloc, &second.posts, 2 * post + 1)?;
    }
    print_whole(rt, alloc, &first)?;
    print_whole(rt, alloc, &second)
}
