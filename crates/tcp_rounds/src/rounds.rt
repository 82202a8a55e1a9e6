//! A round of all members, each in a thread of its own.

use crate::computer::{Alone, Computer, Ended};
use crate::group::{member_words, secrets};
use crate::places::Places;
use anyhow::Result;
use std::alloc::Global;
use std::net::{Net, TcpListener, TcpStream};
use std::rt::Runtime;
use std::sync::Wait;
use std::thread;
use std::thread::{JoinHandle, Threads};
use std::time::Clock;
use tcp_link::TcpLink;
use wire_core::Mem;

// A member behind its round, and how that ended.
#[derive(Drop)]
struct Played {
    computer: Computer,
    ended: Ended,
}

/// Runs a round, and prints how each member ended; and how it ends that is given the same words once more.
pub(crate) fn play<R>(
    rt: R,
    process: u32,
    round: u8,
    computers: Vec<Computer>,
) -> Result<Vec<Computer>>
where
    R: Runtime<A = Global>
        + Net<Listener = TcpListener, Stream = TcpStream>
        + Threads
        + Wait
        + Copy
        + Send
        + Sync
        + 'static,
{
    let alloc = rt.alloc();
    let places = Places::claim(&rt, alloc, process)?;
    let threads = started(rt, alloc, round, &places.addresses, computers)?;
    let mut computers = Vec::new(alloc);
    for thread in threads {
        let played = thread.join(&rt)?;
        computers.push(finish(&rt, round, &places.addresses, played)?)?;
    }
    Ok(computers)
}

// Prints how a member ended, and how it ends that is given the same words once more.
fn finish<R: Runtime<A = Global> + Threads + Wait + Sync>(
    rt: &R,
    round: u8,
    addresses: &Vec<String>,
    played: Played,
) -> Result<Computer> {
    let Played {
        mut computer,
        ended,
    } = played;
    show(rt, computer.member, &ended)?;
    let words = member_words(rt.alloc(), round, addresses)?;
    show_again(rt, round, &words, &mut computer)?;
    Ok(computer)
}

// The threads of the members.
fn started<R>(
    rt: R,
    alloc: Global,
    round: u8,
    addresses: &Vec<String>,
    computers: Vec<Computer>,
) -> Result<Vec<JoinHandle<Mem<Played>>>>
where
    R: Net<Listener = TcpListener, Stream = TcpStream>
        + Threads
        + Wait
        + Clock
        + Eprint
        + Copy
        + Send
        + Sync
        + 'static,
{
    let mut threads = Vec::new(alloc);
    for computer in computers {
        let words = member_words(alloc, round, addresses)?;
        threads.push(thread::spawn(&rt, move || take_part(rt, alloc, round, words, computer))?)?;
    }
    Ok(threads)
}

// How a member ends over a link of its own.
fn take_part<R>(
    rt: R,
    alloc: Global,
    round: u8,
    words: Vec<String>,
    mut computer: Computer,
) -> Mem<Played>
where
    R: Net<Listener = TcpListener, Stream = TcpStream>
        + Threads
        + Wait
        + Clock
        + Eprint
        + Copy
        + Send
        + Sync
        + 'static,
{
    let fresh = secrets(round, computer.member);
    let mut link = TcpLink::new(rt, alloc, false)?;
    let ended = computer.run(&rt, alloc, &words, fresh, &mut link);
    link.close();
    Ok(Played {
        computer,
        ended: ended?,
    })
}

// Prints how a member ended.
fn show<R: Print>(rt: &R, member: u8, ended: &Ended) -> Result<()> {
    let number = ended.number;
    let printed = &ended.printed;
    print!(rt; "member {member}: {number}\n{printed}")?;
    Ok(())
}

// Prints how a member ends over these words where nobody else is there.
fn show_again<R: Runtime<A = Global> + Threads + Wait + Sync>(
    rt: &R,
    round: u8,
    words: &Vec<String>,
    computer: &mut Computer,
) -> Result<()> {
    let fresh = secrets(round, computer.member);
    let Alone { ended, posts } = computer.run_alone(rt, rt.alloc(), words, fresh)?;
    let number = ended.number;
    let printed = &ended.printed;
    print!(rt; "once more: {number} {posts} {printed}")?;
    Ok(())
}
