//! Keys, signatures, refusals and leaves of lms_tree.

ghost use Rattle.std.specs.Prelude.{◌<◌};
ghost use Rattle.lms_tree.specs.States.{made_leaves};

use anyhow::{Context, Result, bail, ensure};
use lm_ots::{OtsRefusal, OtsType};
use lms_tree::{
    KeyRefusal, LeafRun, LmsPublic, LmsRefusal, LmsSecret, MadeHeight, ReserveRefusal, verify,
};
use sha2::{Digest, Sha256};
use std::alloc::Global;

const MASTER: [u8; 32] = [7; 32];

// The master's key of H5 and W4, and the SHA-256 of its signature of `a` with leaf 20, as another
// implementation has them.
const KEY: [u8; 56] =
    *b"\x00\x00\x00\x05\x00\x00\x00\x03\xc3\x89\x70\xf9\x9d\xae\xc9\x61\xdc\xb5\x6c\xaf\xf8\x2f\xf0\x50\xa2\x9f\xe3\x0d\x4a\xca\xc2\x07\x71\xa0\x85\x0a\x73\xf1\x3b\x74\xb2\xde\x82\x80\x44\x18\xcf\x40\x3f\x24\x2c\xb8\x0d\x99\x2c\x37";

const SIGNED: [u8; 32] =
    *b"\x08\x39\xb1\x9d\xce\x95\x67\xeb\x94\xca\x6a\x55\x23\x9d\x10\xcd\xc6\x4c\xd6\x8a\xab\xac\x6b\x00\x0a\x49\x63\xe9\x77\x0b\x12\x7b";

fn key() -> Result<LmsPublic> {
    Ok(LmsPublic::read(&KEY).ok().context("no key")?)
}

fn signature(alloc: Global, leaf: u32) -> Result<Vec<u8>>
    requires { leaf < 32 }
{
    let mut secret = LmsSecret::make(alloc, MadeHeight::H5, OtsType::W4, &MASTER, leaf)?;
    let Ok(mut run) = secret.reserve(alloc, 1) else {
        bail!("no leaf");
    };
    let sig = run.sign(alloc, b"a");
    run.retire();
    Ok(sig?)
}

fn verified(key: &LmsPublic, message: &[u8], sig: &[u8]) -> Result<Result<(), LmsRefusal>> {
    if sig.len() > 9324 {
        bail!("too long");
    }
    Ok(verify(key, message, sig))
}

fn put(sig: &mut Vec<u8>, at: usize, byte: u8) {
    if at < sig.len() {
        sig[at] = byte;
    }
}

pub fn a_signature_is_accepted_for_its_message_alone(alloc: Global) -> Result<()> {
    let key = key()?;
    let sig = signature(alloc, 3)?;
    ensure!(verified(&key, b"a", &sig)? == Ok(()));
    match verified(&key, b"b", &sig)? {
        Err(LmsRefusal::Root { computed, kept }) => {
            ensure!(kept == key.root);
            ensure!(computed != kept);
        }
        _ => bail!("another answer"),
    }
    Ok(())
}

pub fn refusals_come_in_their_order(alloc: Global) -> Result<()> {
    let key = key()?;
    let mut sig = signature(alloc, 3)?;
    put(&mut sig, 3, 32);
    let leaf = LmsRefusal::Leaf { q: 32, height: 5 };
    ensure!(verified(&key, b"a", &sig)? == Err(leaf));
    put(&mut sig, 2187, 6);
    let kind = LmsRefusal::Kind {
        found: 6,
        expected: 5,
    };
    ensure!(verified(&key, b"a", &sig)? == Err(kind));
    put(&mut sig, 7, 4);
    let ots = LmsRefusal::Ots(OtsRefusal::Kind {
        found: 4,
        expected: 3,
    });
    ensure!(verified(&key, b"a", &sig)? == Err(ots));
    let _last = sig.pop();
    let length = LmsRefusal::Length {
        have: 2347,
        need: 2348,
    };
    ensure!(verified(&key, b"a", &sig)? == Err(length));
    Ok(())
}

pub fn the_first_unknown_type_of_a_key_is_refused() -> Result<()> {
    let mut bytes = [0; 56];
    bytes[3] = 5;
    bytes[7] = 5;
    let ots = Err(KeyRefusal::OtsKind { found: 5 });
    ensure!(LmsPublic::read(&bytes) == ots);
    bytes[3] = 10;
    let tree = Err(KeyRefusal::LmsKind { found: 10 });
    ensure!(LmsPublic::read(&bytes) == tree);
    Ok(())
}

// Whether the run signs with the leaves from 20 to 31, and with no other.
fn signs_from_20(alloc: Global, run: &mut LeafRun, key: &LmsPublic) -> Result<bool> {
    for leaf in 20..32 {
        if run.left() == 0 || run.next() != leaf {
            return Ok(false);
        }
        let sig = run.sign(alloc, b"a")?;
        if leaf == 20 && Sha256::digest(&sig) != SIGNED || verified(key, b"a", &sig)? != Ok(()) {
            return Ok(false);
        }
    }
    Ok(run.left() == 0)
}

// Whether a key signs with its last leaf, validly, and then has no leaf.
fn signs_with_its_last_leaf(
    alloc: Global,
    height: MadeHeight,
    width: OtsType,
    last: u32,
) -> Result<bool>
    requires { last < made_leaves height }
{
    let mut secret = LmsSecret::make(alloc, height, width, &MASTER, last)?;
    let key = secret.public();
    let Ok(mut run) = secret.reserve(alloc, 1) else {
        bail!("no leaf");
    };
    let sig = run.sign(alloc, b"a");
    let left = run.left();
    run.retire();
    let sig = sig?;
    let long = sig.len() == key.signature_length() as usize;
    match secret.reserve(alloc, 1) {
        Err(_) => {}
        Ok(run) => {
            run.retire();
            return Ok(false);
        }
    }
    Ok(verified(&key, b"a", &sig)? == Ok(()) && long && left == 0)
}

pub fn a_key_of_each_width_signs_to_its_last_leaf(alloc: Global) -> Result<()> {
    for width in [OtsType::W1, OtsType::W2, OtsType::W4, OtsType::W8] {
        ensure!(
            signs_with_its_last_leaf(alloc, MadeHeight::H5, width, 31)?,
            "at {width:?}"
        );
    }
    ensure!(signs_with_its_last_leaf(alloc, MadeHeight::H10, OtsType::W1, 1023)?);
    Ok(())
}

pub fn a_secret_gives_each_leaf_once(alloc: Global) -> Result<()> {
    let mut secret = LmsSecret::make(alloc, MadeHeight::H5, OtsType::W4, &MASTER, 20)?;
    let key = key()?;
    ensure!(secret.public() == key);
    let Ok(mut run) = secret.reserve(alloc, 12) else {
        bail!("no run");
    };
    let signs = signs_from_20(alloc, &mut run, &key);
    run.retire();
    ensure!(signs?);
    let next = 32;
    let height = 5;
    match secret.reserve(alloc, 1) {
        Err(refusal) => ensure!(refusal == ReserveRefusal::Exhausted { next, height }),
        Ok(run) => {
            run.retire();
            bail!("a leaf twice");
        }
    }
    Ok(())
}
