//! Runs of a member over a link in memory.

use crate::entering::enter_honest;
use member_run::{LinkCall, MemoryLink, RunEnd, run_member};
use std::alloc::Global;
use wire_core::{List, Mem};

/// How a run ended, and the posts that it made.
#[derive(Drop)]
pub(crate) struct Ran {
    pub(crate) end: RunEnd,
    pub(crate) posts: Vec<List<u8>>,
}

fn copies(alloc: Global, frames: &Vec<List<u8>>) -> Mem<Vec<List<u8>>> {
    let mut copies = Vec::new(alloc);
    for frame in frames {
        copies.push(List::of(frame.items().clone()?))?;
    }
    Ok(copies)
}

// The posts that were made on a link.
fn posts_on(alloc: Global, link: &MemoryLink) -> Mem<Vec<List<u8>>> {
    let mut posts = Vec::new(alloc);
    for call in link.calls() {
        if let LinkCall::Posted(bytes) = call {
            posts.push(List::of(bytes.items().clone()?))?;
        }
    }
    Ok(posts)
}

// Enters the round and runs over these frames, where the call with this number fails; there is no call with the number 0.
pub(crate) fn run_over(
    alloc: Global,
    number: u8,
    message: &[u8],
    arrivals: &Vec<List<u8>>,
    failing: u64,
) -> Mem<Option<Ran>> {
    let arrivals = copies(alloc, arrivals)?;
    let failing = vec![in alloc; failing]?;
    let Some(mut link) = MemoryLink::new(alloc, arrivals, failing) else {
        return Ok(None);
    };
    let Some(mut player) = enter_honest(alloc, number, message)? else {
        return Ok(None);
    };
    let end = run_member(alloc, &mut player.member, &mut link);
    let posts = posts_on(alloc, &link)?;
    Ok(Some(Ran { end, posts }))
}
