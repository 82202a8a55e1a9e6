//! A group of three: how its keys and rosters are made, and the words of its rounds.

use crate::computer::Computer;
use std::alloc::Global;
use std::sync::Wait;
use std::thread::Threads;
use wire_core::{Mem, Register, Tag};

const KEYGEN: [&str; 7] = ["keygen", "--key", "k", "--height", "5", "--width", "4"];

const ROSTER: [&str; 5] = ["roster", "--toml", "g", "--out", "r"];

const MEMBER: [&str; 11] = [
    "member",
    "--roster",
    "r",
    "--key",
    "k",
    "--message",
    "m",
    "--transcript",
    "t",
    "--wait",
    "120",
];

/// Three members, each with a key, the roster of all, and a message.
pub(crate) fn members<R: Threads + Wait + Sync>(rt: &R, alloc: Global) -> Mem<Vec<Computer>> {
    let mut toml = String::from_str(alloc, "version = 1\n")?;
    let mut computers = with_keys(rt, alloc, &mut toml)?;
    for computer in computers.iter_mut() {
        equip(rt, alloc, computer, &toml)?;
    }
    Ok(computers)
}

// The computers of three members with their keys, which it adds to the text that a roster is made from.
fn with_keys<R: Threads + Wait + Sync>(
    rt: &R,
    alloc: Global,
    toml: &mut String,
) -> Mem<Vec<Computer>> {
    let mut computers = Vec::new(alloc);
    for member in 1..4 {
        computers.push(with_key(rt, alloc, member, toml)?)?;
    }
    Ok(computers)
}

// The same of one member.
fn with_key<R: Threads + Wait + Sync>(
    rt: &R,
    alloc: Global,
    member: u8,
    toml: &mut String,
) -> Mem<Computer> {
    let mut computer = Computer::new(alloc, member)?;
    let words = words_of(alloc, &KEYGEN)?;
    let fresh = of_seed(Tag::ScriptKey, 1, member);
    let made = computer.run_alone(rt, alloc, &words, fresh)?;
    add_key(alloc, toml, &made.ended.printed)?;
    Ok(computer)
}

// Adds the table of a printed key.
fn add_key(alloc: Global, toml: &mut String, printed: &String) -> Mem<()> {
    let key = printed.trim();
    toml.push_str(&format!(in alloc; "[[member]]\nkey = \"{key}\"\n")?)
}

// Gives a member its message and the roster, made by itself.
fn equip<R: Threads + Wait + Sync>(
    rt: &R,
    alloc: Global,
    computer: &mut Computer,
    toml: &String,
) -> Mem<()> {
    computer.put(alloc, "m", message_of(computer.member))?;
    computer.put(alloc, "g", toml.as_bytes())?;
    computer.run_alone(rt, alloc, &words_of(alloc, &ROSTER)?, [0; 32])?;
    Ok(())
}

// What a member says.
fn message_of(member: u8) -> &'static [u8] {
    match member {
        1 => b"Adjourn this week.",
        2 => b"Take Friday.",
        _ => b"",
    }
}

/// What a member is given for its secrets of a round.
pub(crate) fn secrets(round: u8, member: u8) -> [u8; 32] {
    of_seed(Tag::ScriptFresh, round, member)
}

/// The words of a member in a round.
pub(crate) fn member_words(alloc: Global, round: u8, addresses: &Vec<String>) -> Mem<Vec<String>> {
    let mut words = words_of(alloc, &MEMBER)?;
    words.push(format!(in alloc; "--round={round}")?)?;
    for address in addresses {
        words.push(address.clone()?)?;
    }
    Ok(words)
}

fn words_of(alloc: Global, words: &[&str]) -> Mem<Vec<String>> {
    let mut all = Vec::new(alloc);
    for word in words {
        all.push(String::from_str(alloc, word)?)?;
    }
    Ok(all)
}

// What is made for a member of the seed of a round.
fn of_seed(tag: Tag, round: u8, member: u8) -> [u8; 32] {
    let mut register = Register::new(tag);
    register.piece(&[round; 32]);
    register.piece(&[member]);
    register.end()
}
