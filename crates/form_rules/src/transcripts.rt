//! Transcripts, their claims and the checks of their form.

ghost use Rattle.std.specs.Prelude.{◌<◌, ◌^◌, length};

use anyhow::{Context, Result, bail, ensure};
use phase_message::Shape;
use std::alloc::Global;
use transcript_form::{Accusation, Claim, Refused, read_claim, read_transcript, write_transcript};

// Bytes of a transcript for a group of three, and the check of the form that they fail, with its offset.
const FAILURES: [(&[u8], u32, u32); 20] = [
    (b"", 1, 0),
    (b"DST", 1, 3),
    (b"DSTX\x01", 1, 3),
    (b"DSTR\x02", 1, 4),
    (b"DSTR\x01", 2, 5),
    (b"DSTR\x01\0\x01", 2, 5),
    (b"DSTR\x01\x07\x01", 2, 5),
    (b"DSTR\x01\x01\0", 2, 6),
    (b"DSTR\x01\x01\x04", 2, 6),
    (b"DSTR\x01\x01\x03\0\0\0\0\0\0\0\x01\0", 2, 16),
    (b"DSTR\x01\x01\x03\0\0\0\0\0\0\0\x01\0\0\0\x01", 3, 15),
    (b"DSTR\x01\x02\x03\0\0\0\0\0\0\0\x01\0\0\0\x02", 3, 15),
    (b"DSTR\x01\x03\x03\0\0\0\0\0\0\0\x01\0\0\0\x03", 3, 15),
    (b"DSTR\x01\x04\x03\0\0\0\0\0\0\0\x01\0\0\0\x02", 3, 15),
    (b"DSTR\x01\x05\x03\0\0\0\0\0\0\0\x01\0\0\0\x02", 3, 15),
    // An accusation of 34 bytes stands before the number of posts, which is to be 16.
    (b"DSTR\x01\x06\x03\0\0\0\0\0\0\0\x01\0\0\0\x10", 2, 19),
    (
        b"DSTR\x01\x06\x03\0\0\0\0\0\0\0\x01\x02\x03SeedSeedSeedSeedSeedSeedSeedSeed\0\0\0\x0f",
        3,
        49,
    ),
    (
        b"DSTR\x01\x06\x03\0\0\0\0\0\0\0\x01\x02\x03SeedSeedSeedSeedSeedSeedSeedSeed\0\0\0\x10\0\0",
        2,
        55,
    ),
    (b"DSTR\x01\x01\x03\0\0\0\0\0\0\0\x01\0\0\0\x02\0\0\0", 2, 22),
    (
        b"DSTR\x01\x01\x03\0\0\0\0\0\0\0\x01\0\0\0\x02\0\0\0\0\0\0\0\0!",
        2,
        27,
    ),
];

pub fn the_first_check_of_the_form_is_named(alloc: Global) -> Result<()> {
    let shape = Shape::new(1, 3).context("no shape")?;
    for (bytes, check, at) in FAILURES {
        match read_transcript(alloc, shape, bytes) {
            Err(refused) => ensure!(refused == Refused::Check { check, post: 0, at }),
            Ok(_) => bail!("taken"),
        }
    }
    Ok(())
}

// A transcript of each claim for a group of two: the claim, its number and its name, and the bytes. The last lists
// five posts of each member and one more.
const CLAIMS: [(Claim, u8, &str, &[u8]); 6] = [
    (
        Claim::Equivocation,
        1,
        "Equivocation",
        b"DSTR\x01\x01\x02\0\0\0\0\0\0\0\x09\0\0\0\x02\0\0\0\x03one\0\0\0\0",
    ),
    (
        Claim::Malformed,
        2,
        "Malformed",
        b"DSTR\x01\x02\x01\xff\xff\xff\xff\xff\xff\xff\xff\0\0\0\x01\0\0\0\x03one",
    ),
    (
        Claim::WrongSeed,
        3,
        "WrongSeed",
        b"DSTR\x01\x03\x02\0\0\0\0\0\0\0\x09\0\0\0\x02\0\0\0\x03one\0\0\0\x03two",
    ),
    (
        Claim::BadLog,
        4,
        "BadLog",
        b"DSTR\x01\x04\x02\0\0\0\0\0\0\0\x09\0\0\0\x01\0\0\0\x03one",
    ),
    (
        Claim::Replay,
        5,
        "Replay",
        b"DSTR\x01\x05\x02\0\0\0\0\0\0\0\x09\0\0\0\x02\0\0\0\x03one\0\0\0\x03two",
    ),
    (
        Claim::Pad,
        6,
        "Pad",
        b"DSTR\x01\x06\x02\0\0\0\0\0\0\0\x09\x01\x02SeedSeedSeedSeedSeedSeedSeedSeed\0\0\0\x0b\
            \0\0\0\x011\0\0\0\x012\0\0\0\x013\0\0\0\x014\0\0\0\x015\0\0\0\x016\0\0\0\x017\0\0\0\x018\0\0\0\x019\
            \0\0\0\x0210\0\0\0\x0211",
    ),
];

// What bytes spell, spelled again.
fn spelled_again(alloc: Global, shape: Shape, bytes: &[u8]) -> Result<Vec<u8>, Refused>
    requires { length bytes.now < 2 ^ 32 }
{
    let transcript = read_transcript(alloc, shape, bytes)?;
    Ok(write_transcript(alloc, &transcript)?)
}

pub fn a_transcript_of_each_claim_is_read_and_written(alloc: Global) -> Result<()> {
    let shape = Shape::new(1, 2).context("no shape")?;
    for (claim, number, name, bytes) in CLAIMS {
        ensure!(claim.number() == number);
        ensure!(Claim::of_number(number) == Some(claim));
        ensure!(claim.to_string(alloc)?.as_str() == name);
        ensure!(bytes.len() < 1000);
        ensure!(read_claim(bytes) == Ok(claim));
        match read_transcript(alloc, shape, bytes) {
            Ok(transcript) => {
                ensure!(transcript.claim == claim);
                ensure!(transcript.posts.items().len() == claim.posts(shape) as usize);
                ensure!(transcript.detail.is_some() == (claim == Claim::Pad));
            }
            Err(refused) => bail!("{refused:?}"),
        }
        match spelled_again(alloc, shape, bytes) {
            Ok(again) => ensure!(again.as_slice() == bytes),
            Err(refused) => bail!("{refused:?}"),
        }
    }
    Ok(())
}

pub fn an_accusation_has_34_bytes() -> Result<()> {
    let accusation = Accusation {
        slot: 1,
        member: 2,
        seed: *b"SeedSeedSeedSeedSeedSeedSeedSeed",
    };
    let bytes = b"\x01\x02SeedSeedSeedSeedSeedSeedSeedSeed";
    ensure!(accusation.encode() == *bytes);
    ensure!(Accusation::decode(bytes) == Some(accusation));
    ensure!(Accusation::decode(&bytes[..33]) == None);
    Ok(())
}
