//! The rules of rosters and of the documents that they are made from.

use anyhow::{Result, bail, ensure};
use group_roster::{RosterRefusal, decode, from_toml};
use std::alloc::Global;
use wire_core::{Mem, put_bytes, put_u32};

// Each rule of a roster that a few bytes break, with its offset.
pub fn rules_of_rosters(alloc: Global) -> Result<()> {
    let cases = [
        (b"".as_slice(), 0, 1),
        (b"DSRX\x01\x02".as_slice(), 3, 1),
        (b"DSRO".as_slice(), 4, 2),
        (b"DSRO\x02\x02".as_slice(), 4, 2),
        (b"DSRO\x01".as_slice(), 5, 3),
        (b"DSRO\x01\x01".as_slice(), 5, 3),
        (b"DSRO\x01\x09".as_slice(), 5, 3),
        (b"DSRO\x01\x02".as_slice(), 6, 4),
    ];
    for (bytes, want_at, want_rule) in cases {
        match decode(alloc, bytes) {
            Err(RosterRefusal::Bad { at, rule }) => {
                ensure!(at == want_at && rule == want_rule, "at {at} rule {rule}");
            }
            _ => bail!("taken"),
        }
    }
    Ok(())
}

// A roster of two keys, each of two types and 48 equal bytes, and bytes that follow.
fn two_keys(alloc: Global, keys: [[u8; 3]; 2], tail: &[u8]) -> Mem<Vec<u8>> {
    let mut bytes = Vec::new(alloc);
    put_bytes(&mut bytes, b"DSRO\x01\x02")?;
    for [lms_type, ots_type, fill] in keys {
        put_u32(&mut bytes, u32::from(lms_type))?;
        put_u32(&mut bytes, u32::from(ots_type))?;
        put_bytes(&mut bytes, &[fill; 48])?;
    }
    put_bytes(&mut bytes, tail)?;
    Ok(bytes)
}

pub fn keys_of_rosters_are_refused(alloc: Global) -> Result<()> {
    let cases = [
        ([[4, 3, 1], [5, 3, 2]], b"".as_slice(), (6, 6)),
        ([[5, 3, 1], [10, 3, 2]], b"".as_slice(), (62, 6)),
        ([[5, 0, 1], [5, 3, 2]], b"".as_slice(), (10, 7)),
        ([[5, 3, 1], [9, 5, 2]], b"".as_slice(), (66, 7)),
        ([[5, 3, 1], [5, 3, 1]], b"".as_slice(), (62, 8)),
        ([[5, 3, 1], [5, 3, 2]], b"!".as_slice(), (118, 5)),
    ];
    for (keys, tail, want) in cases {
        let bytes = two_keys(alloc, keys, tail)?;
        match decode(alloc, &bytes) {
            Err(RosterRefusal::Bad { at, rule }) => ensure!(at == want.0 && rule == want.1),
            _ => bail!("taken"),
        }
    }
    let bytes = two_keys(alloc, [[5, 3, 1], [9, 4, 2]], b"")?;
    ensure!(decode(alloc, &bytes).is_ok());
    Ok(())
}

// A key of two types and 48 equal bytes, in hexadecimal digits.
fn digits(alloc: Global, [lms_type, ots_type, fill]: [u8; 3]) -> Mem<String> {
    let mut bytes = Vec::new(alloc);
    put_u32(&mut bytes, u32::from(lms_type))?;
    put_u32(&mut bytes, u32::from(ots_type))?;
    put_bytes(&mut bytes, &[fill; 48])?;
    hex::encode(alloc, &bytes)
}

// What is written of a document's two keys is the roster of the same keys, and it is read again.
pub fn documents_are_read_as_rosters(alloc: Global) -> Result<()> {
    let first = digits(alloc, [5, 3, 0xa1])?;
    let second = digits(alloc, [9, 4, 2])?.to_uppercase(alloc)?;
    let text = format!(in alloc;
        "version = 1\n[[member]]\nkey = \"{first}\"\n[[member]]\nkey = '{second}'\n"
    )?;
    let roster = from_toml(alloc, text.as_bytes())?;
    let bytes = roster.encode(alloc)?;
    ensure!(bytes.len() == 118);
    ensure!(&bytes == &two_keys(alloc, [[5, 3, 0xa1], [9, 4, 2]], b"")?);
    ensure!(decode(alloc, &bytes).is_ok());
    Ok(())
}

// Each rule of a document, with its place, in the order in which they are tested.
pub fn rules_of_documents(alloc: Global) -> Result<()> {
    let key = digits(alloc, [5, 3, 1])?;
    let other = digits(alloc, [4, 3, 1])?;
    let cases = [
        (format!(in alloc; "version = ")?, 0, 9),
        (format!(in alloc; "more = 1")?, 0, 10),
        (format!(in alloc; "member = []")?, 0, 11),
        (format!(in alloc; "version = 1.0")?, 0, 11),
        (
            format!(in alloc; "version = 1\n[[member]]\nkey = '{key}'")?,
            0,
            12,
        ),
        (
            format!(in alloc; "version = 1\nmember = [{{ key = '{key}' }}, {{ key = '{key}0' }}]")?,
            2,
            13,
        ),
        (
            format!(in alloc; "version = 1\nmember = [{{ key = '{key}', x = 1 }}, 7]")?,
            1,
            13,
        ),
        (
            format!(in alloc;
                "version = 1\nmember = [{{ key = '{key}' }}, {{ key = '{other}' }}]"
            )?,
            62,
            6,
        ),
        (
            format!(in alloc; "version = 1\nmember = [{{ key = '{key}' }}, {{ key = '{key}' }}]")?,
            62,
            8,
        ),
    ];
    for (text, want_at, want_rule) in cases {
        match from_toml(alloc, text.as_bytes()) {
            Err(RosterRefusal::Bad { at, rule }) => {
                ensure!(
                    at == want_at && rule == want_rule,
                    "{text}: at {at} rule {rule}"
                );
            }
            _ => bail!("taken: {text}"),
        }
    }
    match from_toml(alloc, b"version = 1 # \xff") {
        Err(refusal) => {
            let told = format!(in alloc; "{refusal}")?;
            ensure!(told.as_str() == "rule 9 is broken at 0");
        }
        Ok(_) => bail!("taken"),
    }
    Ok(())
}
