//! Prints the posts that the two members of a round make, as the stage and the SHA-256 of the content and of the whole, how
//! the round stands for each, and the messages that it opened; then the posts of the first where those of the other are
//! delivered in reverse; and how a member ends whose conduct runs out of memory. Then how runs of a member over a link in
//! memory end. All bytes are in hexadecimal digits.
#![tactic(auto)]

mod entering;
mod forgetful;
mod round;
mod running;
mod runs;
mod shown;

use crate::entering::{Player, enter_forgetful, enter_honest};
use crate::round::{Sent, collect, give, give_reversed, run_round};
use crate::runs::print_runs;
use crate::shown::shown;
use anyhow::{Context, Result};
use bulk_descriptor::SlotState;
use member_core::{Conduct, State, Taken};
use std::alloc::Global;
use std::rt::Runtime;
use wire_core::Mem;

// Prints the posts of a member.
fn print_posts<R: Runtime>(rt: &R, alloc: Global, sent: &Vec<Sent>, sender: u8) -> Result<()> {
    for post in sent {
        if post.sender == sender {
            let line = shown(alloc, &post.bytes)?;
            println!(rt; "{line}")?;
        }
    }
    Ok(())
}

// A word for how a round stands.
fn word_of(state: State) -> &'static str {
    match state {
        State::Waiting { .. } => "waiting",
        State::Done => "done",
        State::Blamed { .. } => "blamed",
        State::Stopped => "stopped",
    }
}

// A word for how a delivery is answered.
fn answer_of(answer: &Mem<Taken>) -> &'static str {
    match answer {
        Ok(Taken::Finished) => "finished",
        Ok(Taken::Stored) => "stored",
        Ok(_) => "another answer",
        Err(_) => "out of memory",
    }
}

// Prints how the round stands for a member, and the messages that it opened.
fn print_end<R: Runtime, C: Conduct>(rt: &R, alloc: Global, player: &Player<C>) -> Result<()> {
    let state = word_of(player.member.state());
    println!(rt; "{state}")?;
    let Some(slots) = player.member.slots() else {
        return Ok(());
    };
    for slot in slots {
        if let SlotState::Message(message) = slot {
            let digits = hex::encode(alloc, message.items())?;
            println!(rt; "{digits}")?;
        }
    }
    Ok(())
}

// Prints the first member's posts where those of the other are delivered in reverse, and its answer to one more delivery.
fn print_reversed<R: Runtime>(rt: &R, alloc: Global, sent: &Vec<Sent>) -> Result<()> {
    let mut again = enter_honest(alloc, 1, b"a")?.context("no member")?;
    give_reversed(alloc, &mut again, sent, 2)?;
    let mut posts = Vec::new(alloc);
    collect(alloc, 1, &mut again, &mut posts)?;
    print_posts(rt, alloc, &posts, 1)?;
    print_end(rt, alloc, &again)?;
    let first = sent.first().context("no post")?;
    let answer = give(alloc, &mut again, &first.bytes);
    let word = answer_of(&answer);
    println!(rt; "{word}")?;
    Ok(())
}

// Prints how a member answers and ends whose conduct runs out of memory the second time that it is asked.
fn print_forgetful<R: Runtime>(rt: &R, alloc: Global, sent: &Vec<Sent>) -> Result<()> {
    let mut member = enter_forgetful(alloc, 1, b"a")?.context("no member")?;
    for post in sent {
        if post.sender == 2 {
            let answer = give(alloc, &mut member, &post.bytes);
            let word = answer_of(&answer);
            println!(rt; "{word}")?;
        }
    }
    print_end(rt, alloc, &member)
}

// A round of two, each delivery given as soon as it is made.
fn print_round<R: Runtime>(rt: &R, alloc: Global) -> Result<Vec<Sent>> {
    let mut first = enter_honest(alloc, 1, b"a")?.context("no member")?;
    let mut second = enter_honest(alloc, 2, b"b")?.context("no member")?;
    let sent = run_round(alloc, &mut first, &mut second)?;
    print_posts(rt, alloc, &sent, 1)?;
    print_end(rt, alloc, &first)?;
    print_posts(rt, alloc, &sent, 2)?;
    print_end(rt, alloc, &second)?;
    Ok(sent)
}

fn main(rt: HostRuntime) -> Result<()> {
    let alloc = rt.alloc();
    let sent = print_round(&rt, alloc)?;
    print_reversed(&rt, alloc, &sent)?;
    print_forgetful(&rt, alloc, &sent)?;
    print_runs(&rt, alloc)
}
