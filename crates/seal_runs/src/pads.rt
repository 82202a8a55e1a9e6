//! Streams, pads and their hashes.

use anyhow::{Context, Result, ensure};
use pad_stream::{is_pad, pad, pad_hash, stream, xor_into};
use std::alloc::Global;
use wire_core::{Register, Tag};

pub fn short_streams_and_pads(alloc: Global) -> Result<()> {
    let seed = [7; 32];
    ensure!(stream(alloc, &seed, 0)?.len() == 0);
    ensure!(pad(alloc, &seed, 0)?.len() == 0);
    // RFC 8439, appendix A.1, test vector 1
    ensure!(stream(alloc, &[0; 32], 3)?.as_slice() == [0x76, 0xb8, 0xe0].as_slice());
    let mut register = Register::new(Tag::PadHash);
    register.piece(&[]);
    ensure!(pad_hash(&seed, 0) == register.end());
    ensure!(is_pad(&seed, &[], 0));
    ensure!(!is_pad(&seed, &[], 1));
    Ok(())
}

pub fn exclusive_or_of_two_bytes() -> Result<()> {
    let mut into = [0x6e];
    xor_into(&mut into, &[0x0f]);
    ensure!(into == [0x61]);
    Ok(())
}

pub fn pads_at_the_limit_agree(alloc: Global) -> Result<()> {
    let seed = [7; 32];
    for length in [65_536, 65_537] {
        let mut bytes = pad(alloc, &seed, length)?;
        let mut register = Register::new(Tag::PadHash);
        if bytes.len() < 100_000 {
            register.piece(&bytes);
        }
        ensure!(pad_hash(&seed, length) == register.end(), "at {length}");
        ensure!(is_pad(&seed, &bytes, length));
        ensure!(!is_pad(&seed, &bytes, length + 1));
        let last = bytes.pop().context("a last byte")?;
        bytes.push(last ^ 1)?;
        ensure!(!is_pad(&seed, &bytes, length));
    }
    Ok(())
}
