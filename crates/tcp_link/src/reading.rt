//! What a reader thread does.
use crate::allowance::Allowance;
use crate::doors::Doors;
use crate::frame::{Frame, FrameEnd, read_frame};
use crossbeam_channel::{SendError, Sender};
use std::alloc::Global;
use std::io::Read;
use std::sync::Wait;

/// What comes of a connection.
#[derive(Drop)]
pub enum Event {
    Came(Frame),
    /// The connection ended, after frames that named this sender last.
    HungUp(Option<u8>),
}

/// Hands on the frames of one connection in their order, until it brings no more.
pub fn read_all<R: Wait, S: Read>(
    rt: &R,
    alloc: Global,
    stream: &mut S,
    doors: &Doors,
    events: &Sender<Event>,
) {
    let mut allowance = Allowance::full();
    let mut sender = None;
    for _ in rt.forever() {
        match read_frame(alloc, stream, &mut allowance) {
            Ok(frame) => {
                sender = frame.sender();
                if !hand_on(rt, doors, events, Event::Came(frame)) {
                    return;
                }
            }
            Err(FrameEnd::OutOfMemory) => {
                doors.starve(rt);
                return;
            }
            Err(_) => break,
        }
    }
    let _ = hand_on(rt, doors, events, Event::HungUp(sender));
}

// Hands on what came. It answers whether that could be done.
fn hand_on<R: Wait>(rt: &R, doors: &Doors, events: &Sender<Event>, event: Event) -> bool {
    match events.send(rt, event) {
        Ok(()) => true,
        Err(SendError::OutOfMemory(_)) => {
            doors.starve(rt);
            false
        }
        Err(SendError::Disconnected(_)) => false,
    }
}
