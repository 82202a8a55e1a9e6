//! Rounds, one delivery after the other.

use crate::entering::Player;
use member_core::{Conduct, Honest, Taken};
use std::alloc::Global;
use wire_core::Mem;

// A post, and who made it.
#[derive(Drop)]
pub(crate) struct Sent {
    pub(crate) sender: u8,
    pub(crate) bytes: Vec<u8>,
}

// Takes a delivery.
pub(crate) fn give<C: Conduct>(alloc: Global, player: &mut Player<C>, bytes: &[u8]) -> Mem<Taken> {
    player.member.deliver(alloc, bytes)
}

// Takes what a member has to hand out.
pub(crate) fn collect<C: Conduct>(
    alloc: Global,
    number: u8,
    player: &mut Player<C>,
    sent: &mut Vec<Sent>,
) -> Mem<()> {
    for _ in 0..8 {
        let Some(bytes) = player.member.next_post(alloc)? else {
            return Ok(());
        };
        let post = Sent {
            sender: number,
            bytes,
        };
        sent.push(post)?;
    }
    Ok(())
}

// Each post that the two make, delivered to the other as soon as it is made.
pub(crate) fn run_round(
    alloc: Global,
    first: &mut Player<Honest>,
    second: &mut Player<Honest>,
) -> Mem<Vec<Sent>> {
    let mut sent = Vec::new(alloc);
    collect(alloc, 1, first, &mut sent)?;
    collect(alloc, 2, second, &mut sent)?;
    for place in 0..16 {
        let Some(post) = sent.get(place) else {
            return Ok(sent);
        };
        if post.sender == 1 {
            give(alloc, second, &post.bytes)?;
        } else {
            give(alloc, first, &post.bytes)?;
        }
        collect(alloc, 1, first, &mut sent)?;
        collect(alloc, 2, second, &mut sent)?;
    }
    Ok(sent)
}

// Takes the posts of a member, the last one first.
pub(crate) fn give_reversed(
    alloc: Global,
    player: &mut Player<Honest>,
    sent: &Vec<Sent>,
    sender: u8,
) -> Mem<()> {
    for post in sent.iter().rev() {
        if post.sender == sender {
            give(alloc, player, &post.bytes)?;
        }
    }
    Ok(())
}
