//! Runs `group` over a script of zeros that is too long, and then over each line of the standard input that is a script,
//! with `;` for the end of each of its lines; any other line is the words of a command. Prints what the command prints,
//! and its status; of a script also SHA-256 of the two files that `group` writes, and what `judge` says of them.
#![tactic(auto)]

use anyhow::Result;
use crash_disk::MemoryDisk;
use offline_commands::{
    FileRead, Files, MemoryFiles, ROSTER_LIMIT, SCRIPT_LIMIT, Status, TRANSCRIPT_LIMIT, WriterSink,
    run_offline,
};
use sha2::{Digest, Sha256};
use std::alloc::Global;
use std::io;
use std::io::{BufRead, BufReader};
use std::rt::Runtime;
use std::thread::Threads;
use wire_core::Mem;

// The bytes of a script, of which each line is ended by a line feed.
fn script_of(alloc: Global, line: &str) -> Mem<Vec<u8>> {
    let mut script = Vec::new(alloc);
    for byte in line.as_bytes() {
        script.push(if *byte == b';' { b'\n' } else { *byte })?;
    }
    script.push(b'\n')?;
    Ok(script)
}

fn words_of(alloc: Global, line: &str) -> Mem<Vec<String>> {
    let mut words = Vec::new(alloc);
    for word in line.split_whitespace() {
        words.push(String::from_str(alloc, word)?)?;
    }
    Ok(words)
}

// Runs a command, which prints.
fn status_of<R: Runtime<A = Global> + Threads + Sync>(
    rt: &R,
    alloc: Global,
    words: &Vec<String>,
    files: &mut MemoryFiles,
    disk: &mut MemoryDisk,
) -> Status {
    let mut out = WriterSink::new(io::writer(rt));
    run_offline(rt, alloc, words, files, disk, [0; 32], &mut out)
}

// Runs the command of these words, which prints, and then prints its status.
fn run_words<R: Runtime<A = Global> + Threads + Sync>(
    rt: &R,
    alloc: Global,
    line: &str,
    files: &mut MemoryFiles,
) -> Result<()> {
    let words = words_of(alloc, line)?;
    let mut disk = MemoryDisk::new(alloc, 8, Vec::new(alloc))?;
    let number = status_of(rt, alloc, &words, files, &mut disk).number();
    println!(rt; "status {number}")?;
    Ok(())
}

// SHA-256 of a file's bytes, or "none" where it cannot be read.
fn digest_of(alloc: Global, files: &mut MemoryFiles, name: &str, limit: u32) -> Mem<String> {
    let FileRead::Bytes(bytes) = files.read(&String::from_str(alloc, name)?, limit) else {
        return String::from_str(alloc, "none");
    };
    let mut hasher = Sha256::new();
    hasher.update(bytes.items().as_slice());
    hex::encode(alloc, &hasher.finalize())
}

// Runs the group of a script, and prints what comes of it.
fn run_script<R: Runtime<A = Global> + Threads + Sync>(
    rt: &R,
    alloc: Global,
    script: &Vec<u8>,
) -> Result<()> {
    let mut files = MemoryFiles::new(alloc, Vec::new(alloc));
    let _ = files.write(&String::from_str(alloc, "s")?, script);
    run_words(
        rt,
        alloc,
        "group --script s --roster r --transcript t",
        &mut files,
    )?;
    let roster = digest_of(alloc, &mut files, "r", ROSTER_LIMIT)?;
    let transcript = digest_of(alloc, &mut files, "t", TRANSCRIPT_LIMIT)?;
    println!(rt; "roster = {roster}")?;
    println!(rt; "transcript = {transcript}")?;
    run_words(rt, alloc, "judge --roster r --transcript t", &mut files)
}

fn run_line<R: Runtime<A = Global> + Threads + Sync>(
    rt: &R,
    alloc: Global,
    line: &str,
) -> Result<()> {
    if line.starts_with("dissent-script") {
        return run_script(rt, alloc, &script_of(alloc, line)?);
    }
    let mut files = MemoryFiles::new(alloc, Vec::new(alloc));
    run_words(rt, alloc, line, &mut files)
}

fn main(rt: HostRuntime) -> Result<()> {
    let alloc = rt.alloc();
    let too_long = SCRIPT_LIMIT as usize + 1;
    run_script(&rt, alloc, &vec![in alloc; 0; too_long]?)?;
    let reader = BufReader::new(alloc, rt.reader())?;
    for line in reader.lines(alloc) {
        run_line(&rt, alloc, line?.as_str())?;
    }
    Ok(())
}
