//! Convictions by one or two posts.

use crate::words::{bytes, first};
use anyhow::{Result, anyhow, ensure};
use closing_verdict::{contradicted, malformed};
use phase_message::Post;
use std::alloc::Global;

// Far more bytes than such a post has.
const LIMIT: usize = 1 << 20;

// A member of a round.
struct Accused {
    round: u64,
    member: u8,
}

// The accused, by the first two words, and the rest of a line.
fn accused_of(line: &str) -> Result<(Accused, &str)> {
    let (round, rest) = first(line)?;
    let (member, rest) = first(rest)?;
    let round = round.parse::<u64>()?;
    let member = member.parse::<u8>()?;
    Ok((Accused { round, member }, rest))
}

/// The transcript of `ROUND ACCUSED POST`.
pub fn malformed_post(alloc: Global, rest: &str) -> Result<String> {
    let (Accused { round, member }, word) = accused_of(rest)?;
    let post = bytes(alloc, word)?;
    ensure!(1 <= member && member <= 8, "no such member");
    ensure!(post.len() < LIMIT, "a post is too long");
    let conviction = malformed(alloc, member, round, &post)?;
    Ok(hex::encode(alloc, conviction.transcript.items())?)
}

fn post(alloc: Global, word: &str) -> Result<Post> {
    match signed_post::read(alloc, &bytes(alloc, word)?) {
        Ok(post) => Ok(post),
        Err(_) => Err(anyhow!("no post")),
    }
}

/// The transcript of `ROUND ACCUSED KEPT OTHER`.
pub fn second_post(alloc: Global, rest: &str) -> Result<String> {
    let (Accused { round, member }, rest) = accused_of(rest)?;
    let (kept, other) = first(rest)?;
    let kept = post(alloc, kept)?;
    let other = bytes(alloc, other)?;
    ensure!(1 <= member && member <= 8, "no such member");
    ensure!(kept.content.items().len() < LIMIT, "a post is too long");
    ensure!(kept.signature.items().len() < LIMIT, "a post is too long");
    ensure!(other.len() < LIMIT, "a post is too long");
    let conviction = contradicted(alloc, member, round, &kept, &other)?;
    Ok(hex::encode(alloc, conviction.transcript.items())?)
}
