//! Evidence: votes of member 2 of a group of two in one slot, the transcripts that list them, and posts to be shown.

use crate::tests::{NOTHING_FAILS, put, run_words};
use lms_tree::{LmsSecret, MadeHeight, OtsType};
use offline_commands::{Files, MemoryFiles};
use std::alloc::{AllocError, Global};
use std::thread::Threads;
use wire_core::{Mem, Register, Tag, put_bytes, put_u8, put_u32, put_u64};

// The key of H5 and W4 that is made from a member's number.
fn secret_of(alloc: Global, member: u8) -> Mem<LmsSecret> {
    LmsSecret::make(alloc, MadeHeight::H5, OtsType::W4, &[member; 32], 0)
}

// A content in round 1, with its body behind the header.
fn content_of(alloc: Global, group: &[u8; 32], stage: u8, sender: u8, body: &[u8]) -> Mem<Vec<u8>> {
    let mut content = Vec::new(alloc);
    put_u8(&mut content, 1)?;
    put_bytes(&mut content, group)?;
    put_u64(&mut content, 1)?;
    put_bytes(&mut content, &[stage, sender])?;
    put_bytes(&mut content, &[9; 32])?;
    put_bytes(&mut content, body)?;
    Ok(content)
}

// The post of a content of this size, signed with the next leaf.
fn post_of(alloc: Global, secret: &mut LmsSecret, size: u32, content: &[u8]) -> Mem<Vec<u8>> {
    let Ok(mut run) = secret.reserve(alloc, 1) else {
        return Err(AllocError);
    };
    let signature = run.sign(alloc, content);
    run.retire();
    let mut post = Vec::new(alloc);
    put_u32(&mut post, size)?;
    put_bytes(&mut post, content)?;
    put_bytes(&mut post, &signature?)?;
    Ok(post)
}

// The transcript that accuses member 2 of these two posts of 2,429 bytes.
fn transcript_of(alloc: Global, first: &[u8], second: &[u8]) -> Mem<Vec<u8>> {
    let mut bytes = Vec::new(alloc);
    put_bytes(&mut bytes, b"DSTR\x01\x01\x02")?;
    put_u64(&mut bytes, 1)?;
    put_u32(&mut bytes, 2)?;
    for post in [first, second] {
        put_u32(&mut bytes, 2429)?;
        put_bytes(&mut bytes, post)?;
    }
    Ok(bytes)
}

// The roster of two keys, and its id.
fn roster_of(alloc: Global, first: &LmsSecret, second: &LmsSecret) -> Mem<(Vec<u8>, [u8; 32])> {
    let mut roster = Vec::new(alloc);
    put_bytes(&mut roster, b"DSRO\x01\x02")?;
    put_bytes(&mut roster, &first.public().bytes())?;
    put_bytes(&mut roster, &second.public().bytes())?;
    let mut register = Register::new(Tag::Roster);
    register.piece(&roster);
    Ok((roster, register.end()))
}

// The post of a vote of member 2.
fn vote_of(alloc: Global, secret: &mut LmsSecret, group: &[u8; 32], flag: u8) -> Mem<Vec<u8>> {
    let content = content_of(alloc, group, 4, 2, &[5, flag])?;
    post_of(alloc, secret, 77, &content)
}

// The post of a turn that member 1 calls off.
fn abort_of(alloc: Global, secret: &mut LmsSecret, group: &[u8; 32]) -> Mem<Vec<u8>> {
    let content = content_of(alloc, group, 2, 1, &[4])?;
    post_of(alloc, secret, 76, &content)
}

// Two votes in one slot and one of them signed again, in the transcripts that list them, and a vote.
fn put_votes<F: Files>(
    alloc: Global,
    files: &mut F,
    secret: &mut LmsSecret,
    group: &[u8; 32],
) -> Mem<()> {
    let yes = vote_of(alloc, secret, group, 1)?;
    let no = vote_of(alloc, secret, group, 0)?;
    let again = vote_of(alloc, secret, group, 1)?;
    put(alloc, files, "go", &yes)?;
    put(alloc, files, "two", &transcript_of(alloc, &yes, &no)?)?;
    put(alloc, files, "one", &transcript_of(alloc, &yes, &again)?)
}

// The files of a group of two: its roster, a turn that is called off, and evidence on votes.
fn files_of_two(alloc: Global) -> Mem<MemoryFiles> {
    let mut first = secret_of(alloc, 1)?;
    let mut second = secret_of(alloc, 2)?;
    let (roster, group) = roster_of(alloc, &first, &second)?;
    let mut files = MemoryFiles::new(alloc, Vec::new(alloc));
    put(alloc, &mut files, "r", &roster)?;
    let abort = abort_of(alloc, &mut first, &group)?;
    put(alloc, &mut files, "abort", &abort)?;
    put_votes(alloc, &mut files, &mut second, &group)?;
    Ok(files)
}

// Commands over these files, with the number and the line that each ends with.
const LINES: [(&[&str], u8, &[u8]); 4] = [
    (
        &["judge", "--roster", "r", "--transcript", "two"],
        0,
        b"accepted member 2 claim Equivocation\n",
    ),
    (
        &["judge", "--roster", "r", "--transcript", "one"],
        4,
        b"refused check 8 post 2 at 0\n",
    ),
    (
        &["show", "--roster", "r", "--round", "1", "--post", "go"],
        0,
        b"stage 4 sender 2 kind Go view 0909090909090909090909090909090909090909090909090909090909090909\n",
    ),
    (
        &["show", "--roster", "r", "--round", "1", "--post", "abort"],
        0,
        b"stage 2 sender 1 kind Abort view 0909090909090909090909090909090909090909090909090909090909090909\n",
    ),
];

// The first of these commands that ends otherwise.
pub(crate) fn first_other_line<R: Threads + Sync>(rt: &R, alloc: Global) -> Mem<Option<usize>> {
    let mut files = files_of_two(alloc)?;
    for (place, (words, number, line)) in LINES.iter().enumerate() {
        let ended = run_words(rt, alloc, words, &mut files, NOTHING_FAILS)?;
        if !ended.is(*number, line) {
            return Ok(Some(place));
        }
    }
    Ok(None)
}
