//! Frames of posts.

use anyhow::{Result, bail, ensure};
use signed_post::{ReadRefusal, read};
use std::alloc::Global;

// Each fault of a post's frame that a few bytes have.
pub fn frames_of_posts(alloc: Global) -> Result<()> {
    let cases = [
        (b"".as_slice(), 0),
        (b"\0\0\0".as_slice(), 3),
        (b"\0\0\0\x4b".as_slice(), 0),
        (b"\0\0\0\x4cDSNT".as_slice(), 8),
    ];
    for (bytes, want_at) in cases {
        match read(alloc, bytes) {
            Err(ReadRefusal::Frame { at }) => ensure!(at == want_at, "at {at}"),
            _ => bail!("taken"),
        }
    }
    Ok(())
}
