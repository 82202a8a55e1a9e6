//! Three members of a group run the command `member` through the top call, each in a thread of its own, over TCP on the
//! loopback net: a round, and with the same key files the next one. Prints how each ended, and how it ends that is given
//! the same words once more.
#![tactic(auto)]

mod computer;
mod group;
mod places;
mod rounds;

use crate::group::members;
use crate::rounds::play;
use anyhow::Result;
use std::process;

fn main(rt: HostRuntime) -> Result<()> {
    let process = process::id(rt.process());
    let computers = members(&rt, rt.alloc())?;
    let computers = play(rt, process, 1, computers)?;
    play(rt, process, 2, computers)?;
    Ok(())
}
