//! Prints the frames of some bytes, of which one is too long, and of some that are cut. Then three members of a group,
//! each in a thread of its own, over links on the loopback net: each posts two frames. Prints the frames that each heard,
//! in the order of their bytes, and whether the last to close heard that nothing more comes.
#![tactic(auto)]

use anyhow::Result;
use round_link::{Arrival, Link, LinkAnswer};
use std::alloc::{AllocError, Global};
use std::net::{Net, TcpListener, TcpStream};
use std::sync::Wait;
use std::thread::Threads;
use std::time::Clock;
use std::{process, thread};
use tcp_link::{Allowance, TcpLink, read_frame};

// How many frames a member hears of the two others.
const FRAMES: usize = 4;

// The members' addresses, which other processes do not use.
fn addresses(alloc: Global, process: u32) -> Result<Vec<String>, AllocError> {
    let mut all = Vec::new(alloc);
    let high = process / 250 % 250 + 1;
    let low = process % 250 + 1;
    for number in 1..4u8 {
        all.push(format!(in alloc; "127.{high}.{low}.{number}:47101")?)?;
    }
    Ok(all)
}

// The next frame as text, or None where the link answers anything else.
fn next_text<L: Link>(alloc: Global, link: &mut L) -> Result<Option<String>, AllocError> {
    match link.recv() {
        Arrival::Frame(frame) => Ok(Some(String::from_utf8_lossy(
            alloc,
            frame.items().as_slice(),
        )?)),
        _ => Ok(None),
    }
}

// The frames that come, so many at most, in the order of their bytes.
fn texts<L: Link>(alloc: Global, link: &mut L, most: usize) -> Result<Vec<String>, AllocError> {
    let mut all = Vec::new(alloc);
    for _ in 0..most {
        let Some(text) = next_text(alloc, link)? else {
            break;
        };
        all.push(text)?;
    }
    all.sort()?;
    Ok(all)
}

// What a member heard; and whether its link ended, which the last member waits for.
#[derive(Drop)]
struct Heard {
    texts: Vec<String>,
    ended: bool,
}

// Posts two frames and hears those of the others. The last member stays until the link ends.
fn member<R>(rt: R, alloc: Global, process: u32, number: u8) -> Result<Option<Heard>, AllocError>
where
    R: Net<Listener = TcpListener, Stream = TcpStream>
        + Threads
        + Wait
        + Clock
        + Eprint
        + Copy
        + Send
        + 'static,
{
    let mut link = TcpLink::new(rt, alloc, false)?;
    let heard = take_part(alloc, &mut link, &addresses(alloc, process)?, number);
    link.close();
    heard
}

fn take_part<L: Link>(
    alloc: Global,
    link: &mut L,
    addresses: &Vec<String>,
    number: u8,
) -> Result<Option<Heard>, AllocError> {
    if link.begin(number, addresses, 3) != LinkAnswer::Done {
        return Ok(None);
    }
    for post in ["first", "second"] {
        let text = format!(in alloc; "{post} of {number}")?;
        let _ = link.post(&text.into_bytes());
    }
    let texts = texts(alloc, link, FRAMES)?;
    let ended = number == 3 && matches!(link.recv(), Arrival::End);
    Ok(Some(Heard { texts, ended }))
}

// Prints what a member heard.
fn show<R: Print>(rt: &R, number: u8, heard: Option<Heard>) -> Result<()> {
    let Some(Heard { texts, ended }) = heard else {
        println!(rt; "{number}: no link")?;
        return Ok(());
    };
    println!(rt; "{number}: {texts:?} {ended}")?;
    Ok(())
}

// Prints the lengths of the frames of these bytes, and why no further one comes.
fn show_frames<R: Print>(rt: &R, alloc: Global, bytes: &[u8]) -> Result<()> {
    let mut rest = bytes;
    let mut allowance = Allowance::full();
    for _ in 0..FRAMES {
        match read_frame(alloc, &mut rest, &mut allowance) {
            Ok(frame) => {
                let length = frame.into_bytes().len();
                println!(rt; "frame of {length}")?;
            }
            Err(end) => {
                println!(rt; "{end:?}")?;
                return Ok(());
            }
        }
    }
    Ok(())
}

fn main(rt: HostRuntime) -> Result<()> {
    let alloc = rt.alloc();
    show_frames(&rt, alloc, &[0, 0, 0, 2, 104, 105, 0, 0, 0, 0, 1, 0, 0, 1])?;
    show_frames(&rt, alloc, &[0, 0, 0, 2, 104])?;
    let process = process::id(rt.process());
    let first = thread::spawn(&rt, move || member(rt, alloc, process, 1))?;
    let second = thread::spawn(&rt, move || member(rt, alloc, process, 2))?;
    let third = thread::spawn(&rt, move || member(rt, alloc, process, 3))?;
    show(&rt, 1, first.join(&rt)?)?;
    show(&rt, 2, second.join(&rt)?)?;
    show(&rt, 3, third.join(&rt)?)
}
