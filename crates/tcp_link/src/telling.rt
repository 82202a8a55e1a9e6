//! What a person who waits is told, on standard error.
use crate::connecting::Peer;
use crate::frame::Frame;
use std::io;

/// Who was reached, and who was not.
pub fn tell_reached<R: Eprint>(rt: &R, peers: &Vec<Peer>) -> io::Result<()> {
    for peer in peers {
        let number = peer.number;
        let word = if peer.stream.is_some() {
            "reached"
        } else {
            "not reached"
        };
        eprintln!(rt; "member {number}: {word}")?;
    }
    Ok(())
}

/// Who was heard, and at which stage, as a frame says.
pub fn tell_heard<R: Eprint>(rt: &R, frame: &Frame) -> io::Result<()> {
    match (frame.sender(), frame.stage()) {
        (Some(sender), Some(stage)) => eprintln!(rt; "member {sender}: heard at stage {stage}"),
        _ => Ok(()),
    }
}

/// Whose connection ended, as the frames on it said.
pub fn tell_hung_up<R: Eprint>(rt: &R, sender: Option<u8>) -> io::Result<()> {
    match sender {
        Some(number) => eprintln!(rt; "member {number}: hung up"),
        None => eprintln!(rt; "a connection on which nobody was heard: hung up"),
    }
}

/// To whom nothing more is written.
pub fn tell_left_out<R: Eprint>(rt: &R, number: u8) -> io::Result<()> {
    eprintln!(rt; "member {number}: takes no more")
}
