//! Commands of members over links in memory, and how each ends.

use crate::computer::{Computer, Ended, Given, of_seed, roster_of};
use std::alloc::Global;
use std::sync::Wait;
use std::thread::Threads;
use wire_core::{List, Mem, Tag};

pub(crate) const MEMBER: [&str; 15] = [
    "member",
    "--roster",
    "r",
    "--key",
    "k",
    "--round",
    "1",
    "--message",
    "m",
    "--transcript",
    "t",
    "--wait",
    "1",
    "a",
    "b",
];

/// A link on which nothing arrives, for a member.
pub(crate) fn silence(alloc: Global, member: u8) -> Given {
    Given {
        fresh: of_seed(Tag::ScriptFresh, member),
        arrivals: Vec::new(alloc),
        failing: 0,
    }
}

/// A link of which the first `recv` fails, behind `begin` and a post.
pub(crate) fn failing_link(alloc: Global) -> Given {
    let mut given = silence(alloc, 1);
    given.failing = 3;
    given
}

/// A link on which 1,000,001 empty frames arrive.
pub(crate) fn flood(alloc: Global) -> Mem<Given> {
    let mut given = silence(alloc, 1);
    for _ in 0..1_000_001 {
        given.arrivals.push(List::of(Vec::new(alloc)))?;
    }
    Ok(given)
}

/// How a member that is given all this ends on a computer of its own.
pub(crate) fn of_member<R: Threads + Wait + Sync>(
    rt: &R,
    alloc: Global,
    member: u8,
    given: Given,
) -> Mem<Ended> {
    let mut computer = Computer::of_member(rt, alloc, member)?;
    computer.run(rt, alloc, &MEMBER, given)
}

/// How the first member ends with this file in the place of its own.
pub(crate) fn with_file<R: Threads + Wait + Sync>(
    rt: &R,
    alloc: Global,
    name: &str,
    bytes: &Vec<u8>,
) -> Mem<Ended> {
    let mut computer = Computer::of_member(rt, alloc, 1)?;
    computer.put(alloc, name, bytes)?;
    computer.run(rt, alloc, &MEMBER, silence(alloc, 1))
}

/// How it ends where the roster has the keys of two others.
pub(crate) fn with_other_roster<R: Threads + Wait + Sync>(rt: &R, alloc: Global) -> Mem<Ended> {
    with_file(rt, alloc, "r", &roster_of(alloc, 2, 3)?)
}

/// How it ends with a key file of zeros.
pub(crate) fn with_zero_key<R: Threads + Wait + Sync>(rt: &R, alloc: Global) -> Mem<Ended> {
    let mut computer = Computer::of_member(rt, alloc, 1)?;
    computer.hold(alloc, &vec![in alloc; 0; 128]?)?;
    computer.run(rt, alloc, &MEMBER, silence(alloc, 1))
}

/// How it ends with a key file of 32 leaves that says in its first slot that the next one is 21.
pub(crate) fn with_used_key<R: Threads + Wait + Sync>(rt: &R, alloc: Global) -> Mem<Ended> {
    let mut computer = Computer::of_member(rt, alloc, 1)?;
    let mut file = computer.disk.file().to_vec(alloc)?;
    if let Some(next) = file.get_mut(76) {
        *next = 21;
    }
    computer.hold(alloc, &file)?;
    computer.run(rt, alloc, &MEMBER, silence(alloc, 1))
}

// Pushes the first post of a member with these bytes for its secrets, if it makes one.
fn push_first<R: Threads + Wait + Sync>(
    rt: &R,
    alloc: Global,
    fresh: u8,
    posts: &mut Vec<List<u8>>,
) -> Mem<()> {
    let mut given = silence(alloc, 2);
    given.fresh = [fresh; 32];
    let ended = of_member(rt, alloc, 2, given)?;
    if let Some(post) = ended.posts.first() {
        posts.push(List::of(post.items().clone()?))?;
    }
    Ok(())
}

/// Frames in which the second member says two things in one slot.
pub(crate) fn two_in_one_slot<R: Threads + Wait + Sync>(rt: &R, alloc: Global) -> Mem<Given> {
    let mut given = silence(alloc, 1);
    push_first(rt, alloc, 5, &mut given.arrivals)?;
    push_first(rt, alloc, 6, &mut given.arrivals)?;
    Ok(given)
}

// What another has posted arrives, for a member.
fn posts_of(alloc: Global, member: u8, other: &Ended) -> Mem<Given> {
    let mut given = silence(alloc, member);
    for post in &other.posts {
        given.arrivals.push(List::of(post.items().clone()?))?;
    }
    Ok(given)
}

/// How both end where each runs over what the other has posted so far, until neither has more to say.
pub(crate) fn whole_round<R: Threads + Wait + Sync>(rt: &R, alloc: Global) -> Mem<(Ended, Ended)> {
    let mut second = of_member(rt, alloc, 2, silence(alloc, 2))?;
    let mut first = of_member(rt, alloc, 1, posts_of(alloc, 1, &second)?)?;
    for _ in 0..8 {
        second = of_member(rt, alloc, 2, posts_of(alloc, 2, &first)?)?;
        first = of_member(rt, alloc, 1, posts_of(alloc, 1, &second)?)?;
    }
    Ok((first, second))
}
