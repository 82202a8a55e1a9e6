//! The words of a line.

use anyhow::{Result, anyhow};
use hex::FromHex;
use std::alloc::Global;

/// The first word, and the rest of the line.
pub fn first(line: &str) -> Result<(&str, &str)> {
    match line.split_once(' ') {
        Some(parts) => Ok(parts),
        None => Err(anyhow!("a word is missing")),
    }
}

/// Bytes of any number.
pub fn bytes(alloc: Global, word: &str) -> Result<Vec<u8>> {
    if word == "-" {
        return Ok(Vec::new(alloc));
    }
    Ok(hex::decode(alloc, word)?)
}

/// 32 bytes.
pub fn key(word: &str) -> Result<[u8; 32]> {
    Ok(<[u8; 32] as FromHex>::from_hex(word)?)
}

/// Bytes as a word.
pub fn shown(alloc: Global, bytes: &[u8]) -> Result<String> {
    if bytes.is_empty() {
        return Ok(String::from_str(alloc, "-")?);
    }
    Ok(hex::encode(alloc, bytes)?)
}
