//! The words of a line.

use anyhow::{Result, anyhow};
use std::alloc::Global;

/// The first word, and the rest of the line.
pub fn first(line: &str) -> Result<(&str, &str)> {
    match line.split_once(' ') {
        Some(parts) => Ok(parts),
        None => Err(anyhow!("a word is missing")),
    }
}

/// Bytes.
pub fn bytes(alloc: Global, word: &str) -> Result<Vec<u8>> {
    Ok(hex::decode(alloc, word)?)
}
