//! Convicts by posts that an independent implementation made. For each line of standard input it prints a line:
//!
//! - `malformed ROUND ACCUSED POST` and `contradicted ROUND ACCUSED KEPT OTHER`: the transcript
//! - `log ROSTER ROUND POST,POST,..`: how many posts there are; all posts to the end of FINAL A are kept for the lines below
//! - `judged SLOT POST`: what FINAL A comes to where this is the post of the slot of a number, if there is such a slot:
//!   `opens` and the number of items, or `convicts`, the accused, the claim's number and the transcript's SHA-256
//!
//! Bytes are lower-case hexadecimal.
#![tactic(auto)]

mod convicted;
mod judged;
mod words;

use crate::judged::Sent;
use anyhow::{Context, Result, bail};
use std::alloc::Global;
use std::io::{BufRead, BufReader};

// The answer to one line, with the log of the lines above.
fn answer(alloc: Global, sent: &Option<Sent>, line: &str) -> Result<String> {
    let (name, rest) = words::first(line)?;
    match name {
        "malformed" => convicted::malformed_post(alloc, rest),
        "contradicted" => convicted::second_post(alloc, rest),
        "judged" => {
            let sent = sent.as_ref().context("no log")?;
            judged::judged(alloc, sent, rest)
        }
        _ => bail!("no such vector"),
    }
}

fn main(rt: HostRuntime) -> Result<()> {
    let input = BufReader::new(rt.alloc(), rt.reader())?;
    let mut sent = None;
    for line in input.lines(rt.alloc()) {
        let line = line?;
        if let Some(rest) = line.as_str().strip_prefix("log ") {
            let log = judged::sent_log(rt.alloc(), rest)?;
            println!(rt; "{}", log.count())?;
            sent = Some(log);
        } else {
            let answer = answer(rt.alloc(), &sent, line.as_str())?;
            println!(rt; "{answer}")?;
        }
    }
    Ok(())
}
