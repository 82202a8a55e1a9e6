//! Answers lines of vectors for LM-OTS and LMS, a line each: `coef BYTES I W` with a digit,
//! `checksum TYPE HASH` with two bytes, `lms TREE TYPE MASTER LEAF MESSAGE` with a public key and a
//! signature, and `verify KEY MESSAGE SIGNATURE` with `ok` or the name of the refusal. Bytes are in
//! hexadecimal digits, `-` for none.
#![tactic(auto)]

use anyhow::{Context, Result, bail, ensure};
use lm_ots::{OtsType, checksum, coef};
use lms_tree::{LmsPublic, LmsRefusal, LmsSecret, MadeHeight, verify};
use std::alloc::Global;
use std::io::{BufRead, BufReader};

fn word_at<'a>(words: &[&'a str], i: usize) -> Result<&'a str> {
    words.get(i).copied().context("a word is missing")
}

fn number_at(words: &[&str], i: usize) -> Result<u32> {
    word_at(words, i)?
        .parse::<u32>()
        .context("a number is wrong")
}

fn bytes_at(alloc: Global, words: &[&str], i: usize) -> Result<Vec<u8>> {
    let word = word_at(words, i)?;
    if word == "-" {
        return Ok(Vec::new(alloc));
    }
    Ok(hex::decode(alloc, word)?)
}

fn hash_at(words: &[&str], i: usize) -> Result<[u8; 32]> {
    let mut hash = [0; 32];
    hex::decode_to_slice(word_at(words, i)?, &mut hash)?;
    Ok(hash)
}

fn type_at(words: &[&str], i: usize) -> Result<OtsType> {
    OtsType::of_number(number_at(words, i)?).context("no such LM-OTS type")
}

fn coef_line(alloc: Global, words: &[&str]) -> Result<String> {
    let s = bytes_at(alloc, words, 1)?;
    let i = number_at(words, 2)?;
    let w = match number_at(words, 3)? {
        1 => 1,
        2 => 2,
        4 => 4,
        8 => 8,
        _ => bail!("no such digit size"),
    };
    ensure!(i as usize * w as usize / 8 < s.len(), "no such digit");
    let digit = coef(&s, i, w);
    Ok(format!(in alloc; "{digit}")?)
}

fn checksum_line(alloc: Global, words: &[&str]) -> Result<String> {
    let width = type_at(words, 1)?;
    let hash = hash_at(words, 2)?;
    Ok(hex::encode(alloc, checksum(width, &hash))?)
}

fn lms_line(alloc: Global, words: &[&str]) -> Result<String> {
    let height = match number_at(words, 1)? {
        5 => MadeHeight::H5,
        6 => MadeHeight::H10,
        _ => bail!("no height of which keys are made"),
    };
    let width = type_at(words, 2)?;
    let master = hash_at(words, 3)?;
    let q = number_at(words, 4)?;
    ensure!(q < 1 << height.lms_type().height(), "no such leaf");
    let message = bytes_at(alloc, words, 5)?;
    let mut secret = LmsSecret::make(alloc, height, width, &master, q)?;
    let key = hex::encode(alloc, secret.public().bytes())?;
    let sig = hex::encode(alloc, &sign_next(alloc, &mut secret, &message)?)?;
    Ok(format!(in alloc; "{key} {sig}")?)
}

// A signature with the secret's next leaf.
fn sign_next(alloc: Global, secret: &mut LmsSecret, message: &[u8]) -> Result<Vec<u8>> {
    let Ok(mut run) = secret.reserve(alloc, 1) else {
        bail!("no leaf, or no memory");
    };
    let sig = run.sign(alloc, message);
    run.retire();
    Ok(sig?)
}

fn refusal_name(refusal: LmsRefusal) -> &'static str {
    match refusal {
        LmsRefusal::Length { .. } => "Length",
        LmsRefusal::Ots(_) => "Ots",
        LmsRefusal::Kind { .. } => "Kind",
        LmsRefusal::Leaf { .. } => "Leaf",
        LmsRefusal::Root { .. } => "Root",
    }
}

fn verify_line(alloc: Global, words: &[&str]) -> Result<String> {
    let mut key = [0; 56];
    hex::decode_to_slice(word_at(words, 1)?, &mut key)?;
    let Ok(key) = LmsPublic::read(&key) else {
        bail!("no such key");
    };
    let message = bytes_at(alloc, words, 2)?;
    let sig = bytes_at(alloc, words, 3)?;
    ensure!(sig.len() < 1 << 32, "too long");
    let name = match verify(&key, &message, &sig) {
        Ok(()) => "ok",
        Err(refusal) => refusal_name(refusal),
    };
    Ok(String::from_str(alloc, name)?)
}

fn answer(alloc: Global, line: &str) -> Result<String> {
    let words: Vec<&str> = line.split_whitespace().collect(alloc)?;
    match word_at(&words, 0)? {
        "coef" => coef_line(alloc, &words),
        "checksum" => checksum_line(alloc, &words),
        "lms" => lms_line(alloc, &words),
        "verify" => verify_line(alloc, &words),
        _ => bail!("no such line"),
    }
}

fn main(rt: HostRuntime) -> Result<()> {
    let reader = BufReader::new(rt.alloc(), rt.reader())?;
    for line in reader.lines(rt.alloc()) {
        let text = answer(rt.alloc(), line?.as_str())?;
        println!(rt; "{text}")?;
    }
    Ok(())
}
