//! Answers the vectors of ring encryption, streams and layers: for each line of standard input, as
//! `key SEED`, it prints what the crates compute. Bytes are lower-case hexadecimal, `-` for none.
#![tactic(auto)]

mod answers;
mod words;

use anyhow::Result;
use std::io::{BufRead, BufReader};

fn main(rt: HostRuntime) -> Result<()> {
    let input = BufReader::new(rt.alloc(), rt.reader())?;
    for line in input.lines(rt.alloc()) {
        let line = line?;
        let answer = answers::answer(rt.alloc(), line.as_str())?;
        println!(rt; "{answer}")?;
    }
    Ok(())
}
