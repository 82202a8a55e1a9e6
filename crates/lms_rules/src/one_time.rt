//! Digits, checksums, refusals and one key of lm_ots.

use anyhow::{Result, bail, ensure};
use lm_ots::{OtsRefusal, OtsType, candidate, checksum, coef, make};
use sha2::{Digest, Sha256};
use std::alloc::Global;

pub fn digits_are_those_of_the_rfc() -> Result<()> {
    let s = [0x12, 0x34];
    ensure!(coef(&s, 7, 1) == 0);
    ensure!(coef(&s, 0, 4) == 1);
    Ok(())
}

pub fn checksums_of_zeros() -> Result<()> {
    let table = [
        (OtsType::W1, [0x80, 0x00]),
        (OtsType::W2, [0x60, 0x00]),
        (OtsType::W4, [0x3c, 0x00]),
        (OtsType::W8, [0x1f, 0xe0]),
    ];
    for (width, want) in table {
        ensure!(checksum(width, &[0; 32]) == want, "at {width:?}");
    }
    Ok(())
}

pub fn the_length_is_tested_before_the_type() -> Result<()> {
    let mut sig = [0; 2180];
    sig[3] = 4;
    let short = candidate(OtsType::W4, [0; 16], 0, b"a", &sig[..2179]);
    let have = 2179;
    let need = 2180;
    ensure!(short == Err(OtsRefusal::Length { have, need }));
    let kind = candidate(OtsType::W4, [0; 16], 0, b"a", &sig);
    let found = 4;
    let expected = 3;
    ensure!(kind == Err(OtsRefusal::Kind { found, expected }));
    Ok(())
}

const IDENTIFIER: [u8; 16] = *b"\x33\xa7\xe4\x56\x23\xf9\xc8\x6d\x85\x2a\xec\xc2\x70\xf3\x32\x8e";

const SEED: [u8; 32] =
    *b"\x6c\xde\x02\x52\x87\x64\x47\x63\xd8\x23\xf1\xae\x6a\x48\xab\xea\xd7\x1b\xb4\x5a\x4c\xd2\x35\xb1\xc1\x87\x4d\xb7\xd3\x96\x78\x09";

// The SHA-256 of the signature of the empty message, and K, as another implementation has them.
const SIGNED: [u8; 32] =
    *b"\xb0\xba\xb1\x88\x3c\xa8\xda\x82\x1b\xcc\xdb\xf0\xd5\xb3\xde\x5c\x69\xf2\x29\xc3\x67\x8b\x29\x2f\xf3\xa3\x29\x16\xe2\x1c\x06\x9f";

const KEY: [u8; 32] =
    *b"\xbf\x86\xff\x18\x24\x00\xe6\x5a\x23\xcb\xf6\x94\xf9\x34\x62\x42\xa4\x3a\x0d\x42\xa4\x65\xe0\x85\xc7\x48\xaf\xfd\x24\x4a\xda\x87";

pub fn a_key_signs_what_leads_to_it(alloc: Global) -> Result<()> {
    let unused = make(OtsType::W8, IDENTIFIER, 31, SEED);
    let known = unused.public() == KEY;
    unused.retire();
    ensure!(known);
    match make(OtsType::W8, IDENTIFIER, 31, SEED).sign(alloc, b"") {
        Ok(signature) => {
            ensure!(Sha256::digest(&signature) == SIGNED);
            ensure!(signature.len() == 1124);
            let led_to = candidate(OtsType::W8, IDENTIFIER, 31, b"", &signature);
            ensure!(led_to == Ok(KEY));
        }
        Err((key, _)) => {
            key.retire();
            bail!("no memory");
        }
    }
    Ok(())
}
