//! Prints the digests of the four strings of each line, a line each; all are in hexadecimal digits.
#![tactic(auto)]

use anyhow::{Context, Result};
use sha_lanes::four_digests;
use std::io::{BufRead, BufReader};

fn strings_of(line: &str) -> Result<[[u8; 55]; 4]> {
    let mut strings = [[0; 55]; 4];
    let mut words = line.split_whitespace();
    for string in &mut strings {
        let word = words.next().context("a string is missing")?;
        hex::decode_to_slice(word, string)?;
    }
    Ok(strings)
}

fn main(rt: HostRuntime) -> Result<()> {
    let reader = BufReader::new(rt.alloc(), rt.reader())?;
    for line in reader.lines(rt.alloc()) {
        let digests = four_digests(&strings_of(line?.as_str())?);
        for digest in &digests {
            let text = hex::encode(rt.alloc(), *digest)?;
            println!(rt; "{text}")?;
        }
    }
    Ok(())
}
