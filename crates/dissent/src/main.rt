//! Dissent: the program. A member takes part in a round of its group over TCP; transcripts that convict the disrupters of
//! a round are judged; posts are shown; key files and the files of rosters are made; and whole groups run by a script.
#![tactic(auto)]

#[cfg(test)]
mod evidence;
#[cfg(test)]
mod tests;

use dissent_words::usage_text;
use host_disk::{HostDisk, Lock};
use offline_commands::{HostFiles, Sink, Status, WriterSink, print};
use online_commands::run;
use rand::TryRng;
use rand::rngs::SysRng;
use std::alloc::{AllocError, Global};
use std::io::{IsTerminal, Write};
use std::net::{Net, TcpListener, TcpStream};
use std::process::ExitCode;
use std::random::RandomSource;
use std::rt::{Env, Runtime};
use std::sync::Wait;
use std::thread::Threads;
use std::{env, io};
use tcp_link::TcpLink;

fn main(rt: HostRuntime) -> ExitCode {
    let status = run_program(&rt, rt.stderr().is_terminal());
    if status == Status::Usage {
        // The forms are for a reader: where they can't be written the status stays.
        let _ = rt.stderr().write_all(usage_text().as_bytes());
    }
    ExitCode::from(status.number())
}

// Runs the command that the program was started with. Where `tells`, a member's link prints to standard error whom it
// reached and heard.
fn run_program<R>(rt: &R, tells: bool) -> Status
where
    R: Runtime<A = Global>
        + RandomSource
        + Threads
        + Wait
        + Net<Listener = TcpListener, Stream = TcpStream>
        + Copy
        + Send
        + Sync
        + 'static,
    R::File: Lock,
{
    let mut out = WriterSink::new(io::writer(rt));
    match run_given(rt, tells, &mut out) {
        Ok(status) => status,
        Err(status) => print(rt.alloc(), Err(status), &mut out),
    }
}

// The same, with the status that is still to be printed where words, fresh bytes or a link could not be had.
fn run_given<R, O: Sink>(rt: &R, tells: bool, out: &mut O) -> Result<Status, Status>
where
    R: Runtime<A = Global>
        + RandomSource
        + Threads
        + Wait
        + Net<Listener = TcpListener, Stream = TcpStream>
        + Copy
        + Send
        + Sync
        + 'static,
    R::File: Lock,
{
    let alloc = rt.alloc();
    let words = given_words(rt)?;
    let mut fresh = [0; 32];
    if wants_fresh_bytes(&words) {
        draw(rt, &mut fresh)?;
    }
    let mut files = HostFiles::new(rt, alloc);
    let mut disk = HostDisk::new(rt);
    let mut link = TcpLink::new(*rt, alloc, tells)?;
    let status = run(
        rt, alloc, &words, &mut files, &mut disk, &mut link, fresh, out,
    );
    link.close();
    Ok(status)
}

// Whether fresh bytes are drawn: for a key, and for a member's secrets of its round.
fn wants_fresh_bytes(words: &Vec<String>) -> bool {
    match words.first() {
        Some(word) => word.as_str() == "keygen" || word.as_str() == "member",
        None => false,
    }
}

// The words of the command line without the program's name. Where one is not text, there are none: no command
// has such a word.
fn given_words<R: Env + AllocGlobal>(rt: &R) -> Result<Vec<String>, AllocError> {
    match env::args(rt) {
        Ok(words) => words.skip(1).collect(rt.alloc()),
        Err(error) if error.kind() == io::ErrorKind::OutOfMemory => Err(AllocError),
        Err(_) => Ok(Vec::new(rt.alloc())),
    }
}

// Fills an array with bytes from the system.
fn draw<S: RandomSource>(source: &S, fresh: &mut [u8; 32]) -> Result<(), Status> {
    match SysRng::new(source).try_fill_bytes(fresh) {
        Ok(()) => Ok(()),
        Err(error) if error.kind() == io::ErrorKind::OutOfMemory => Err(Status::OutOfMemory),
        Err(_) => Err(Status::ReadFault),
    }
}
