//! Reads each line of its standard input as the words of a command line, and prints the command that they ask for, or why
//! they ask for none.
#![tactic(auto)]

use anyhow::Result;
use dissent_words::read_words;
use std::alloc::Global;
use std::io::{BufRead, BufReader};

fn answer(alloc: Global, line: &str) -> Result<String> {
    let mut words = Vec::new(alloc);
    for word in line.split_whitespace() {
        words.push(String::from_str(alloc, word)?)?;
    }
    match read_words(alloc, &words) {
        Ok(command) => Ok(format!(in alloc; "{command:?}")?),
        Err(refusal) => Ok(format!(in alloc; "{refusal:?}")?),
    }
}

fn main(rt: HostRuntime) -> Result<()> {
    let reader = BufReader::new(rt.alloc(), rt.reader())?;
    for line in reader.lines(rt.alloc()) {
        let text = answer(rt.alloc(), line?.as_str())?;
        println!(rt; "{text}")?;
    }
    Ok(())
}
