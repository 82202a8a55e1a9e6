//! What a line asks for.

use crate::words::{bytes, first, key, shown};
use anyhow::{Result, anyhow, bail, ensure};
use layer_cipher::{Peeled, peel, seal};
use pad_stream::{pad, pad_hash, stream};
use ring_encrypt::{open_seed, public_of, read_capsule, seal_seed};
use ring_poly::{Poly, Ternary, is_ternary, mul, pack, unpack};
use std::alloc::Global;

// Far more bytes than a vector has.
const LIMIT: usize = 1 << 20;

/// The answer to one line.
pub fn answer(alloc: Global, line: &str) -> Result<String> {
    let (name, rest) = first(line)?;
    match name {
        "mul" => product(alloc, rest),
        "key" => shown(alloc, public_of(&key(rest)?).bytes()),
        "capsule" => capsule(alloc, rest),
        "open" => opened(alloc, rest),
        "stream" | "pad" | "pad_hash" => drawn(alloc, name, rest),
        "layer" => layer(alloc, rest),
        "peel" => peeled(alloc, rest),
        _ => bail!("no such vector"),
    }
}

// The packed product of a packed polynomial and a packed ternary one, where 12288 is -1.
fn product(alloc: Global, rest: &str) -> Result<String> {
    let (a, b) = first(rest)?;
    let a = polynomial(alloc, a)?;
    let b = ternary(&polynomial(alloc, b)?)?;
    shown(alloc, &pack(&mul(&a, &b)))
}

fn polynomial(alloc: Global, word: &str) -> Result<Poly> {
    let packed = bytes(alloc, word)?;
    ensure!(packed.len() == 1792, "a polynomial of another length");
    match unpack(&packed) {
        Ok(polynomial) => Ok(polynomial),
        Err(_) => Err(anyhow!("a coefficient is too large")),
    }
}

fn ternary(polynomial: &Poly) -> Result<Ternary> {
    let mut coefficients = [0i8; 1024];
    for place in 0..1024 {
        coefficients[place] = match polynomial.get(place) {
            0 => 0,
            1 => 1,
            12288 => -1,
            _ => bail!("a coefficient is not ternary"),
        };
    }
    ensure!(is_ternary(&coefficients), "a coefficient is not ternary");
    Ok(Ternary::of(coefficients))
}

fn capsule(alloc: Global, rest: &str) -> Result<String> {
    let (seed, m) = first(rest)?;
    let capsule = seal_seed(&public_of(&key(seed)?), &key(m)?);
    shown(alloc, capsule.bytes())
}

fn opened(alloc: Global, rest: &str) -> Result<String> {
    let (seed, capsule) = first(rest)?;
    let capsule = bytes(alloc, capsule)?;
    ensure!(capsule.len() == 2240, "a capsule of another length");
    match open_seed(&key(seed)?, &read_capsule(&capsule)) {
        Some(m) => shown(alloc, &m),
        None => Ok(String::from_str(alloc, "none")?),
    }
}

fn drawn(alloc: Global, name: &str, rest: &str) -> Result<String> {
    let (seed, length) = first(rest)?;
    let seed = key(seed)?;
    let length = length.parse::<u32>()?;
    match name {
        "stream" => shown(alloc, &stream(alloc, &seed, length)?),
        "pad" => shown(alloc, &pad(alloc, &seed, length)?),
        _ => shown(alloc, &pad_hash(&seed, length)),
    }
}

fn layer(alloc: Global, rest: &str) -> Result<String> {
    let (seed, rest) = first(rest)?;
    let (m, body) = first(rest)?;
    let body = bytes(alloc, body)?;
    ensure!(body.len() < LIMIT, "a long body");
    let layer = seal(alloc, &public_of(&key(seed)?), &key(m)?, &body)?;
    shown(alloc, &layer)
}

fn peeled(alloc: Global, rest: &str) -> Result<String> {
    let (seed, layer) = first(rest)?;
    let layer = bytes(alloc, layer)?;
    ensure!(layer.len() < LIMIT, "a long layer");
    match peel(alloc, &key(seed)?, &layer)? {
        Peeled::Layer { m, body } => {
            let mut text = shown(alloc, &m)?;
            text.push_str(" ")?;
            text.push_str(shown(alloc, body.items())?.as_str())?;
            Ok(text)
        }
        Peeled::NoLayer => Ok(String::from_str(alloc, "none")?),
    }
}
