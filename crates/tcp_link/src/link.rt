//! A link over TCP.
ghost use Rattle.std.specs.Prelude.{◌≡◌, ◌≤◌, IfOk, None};
ghost use Rattle.outside.specs.Faults.{Rose};

use crate::accepting::{Entrance, Opening};
use crate::connecting::{Peer, peers_of, reach_all};
use crate::doors::Doors;
use crate::frame::{FRAME_LIMIT, Frame};
use crate::reading::Event;
use crate::telling::{tell_heard, tell_hung_up, tell_left_out, tell_reached};
use crossbeam_channel::{Receiver, SendError, Sender};
use round_link::{Arrival, Link, LinkAnswer};
use std::alloc::{AllocError, Global};
use std::net::{Net, TcpListener, TcpStream};
use std::sync::{Arc, Wait};
use std::thread::{JoinHandle, Threads};
use std::time::{Clock, Duration};
use std::{io, thread};
use wire_core::List;

// How many connections are accepted for each member of the group: a stranger may connect too.
const PLACES: usize = 4;

/// A member's link to the others over TCP.
#[derive(Drop)]
pub struct TcpLink<R: Drop> {
    rt: R,
    alloc: Global,
    tells: bool,
    // The thread that accepts connections, and what it is told once, when the link begins.
    keeper: Option<JoinHandle<()>>,
    opening: Option<Sender<Opening>>,
    doors: Arc<Doors, Global>,
    events: Receiver<Event>,
    peers: Vec<Peer>,
    limit: Duration,
    faults: u64,
    frames: u64,
    ends: u64,
}

impl<R: Threads + Wait + Clock + Copy + Send + 'static> TcpLink<R> {
    ghost use Rattle.tcp_link.specs.Counts.{HasCountedNothing};

    /// A link that has not begun. Where `tells`, it prints to standard error who was reached, who was heard and at which
    /// stage, and who hung up.
    pub fn new(rt: R, alloc: Global, tells: bool) -> Result<TcpLink<R>, AllocError>
        ensures { IfOk result HasCountedNothing }
    {
        let doors = Arc::new(alloc, Doors::new(alloc))?;
        let (to_keeper, openings) = crossbeam_channel::unbounded(alloc)?;
        let (to_link, events) = crossbeam_channel::unbounded(alloc)?;
        let entrance = Entrance {
            rt,
            alloc,
            doors: Arc::try_clone(&doors)?,
            events: to_link,
        };
        let keeper = thread::spawn(&rt, move || entrance.serve(openings)).ok();
        Ok(TcpLink {
            rt,
            alloc,
            tells,
            keeper,
            opening: Some(to_keeper),
            doors,
            events,
            peers: Vec::new(alloc),
            limit: Duration::ZERO,
            faults: 0,
            frames: 0,
            ends: 0,
        })
    }
}

impl<R: Threads + Wait + Copy> TcpLink<R> {
    /// Ends all connections, and returns when all threads of the link have ended. What was posted is on its way still.
    pub fn close(self) {
        let TcpLink {
            rt,
            alloc: _,
            tells: _,
            keeper,
            opening,
            doors,
            events,
            peers,
            limit: _,
            faults: _,
            frames: _,
            ends: _,
        } = self;
        drop(opening);
        drop(peers);
        doors.close(&rt);
        if let Some(keeper) = keeper {
            keeper.join(&rt);
        }
        drop(events);
    }
}

impl<R: Wait + Eprint + Copy> TcpLink<R> {
    // The next frame that came, or None once no further one can come.
    fn next_frame(&self) -> Option<Frame> {
        if self.opening.is_some() {
            return None;
        }
        for _ in self.rt.forever() {
            match self.events.recv(&self.rt) {
                Ok(Event::Came(frame)) => {
                    if self.tells {
                        let _ = tell_heard(&self.rt, &frame);
                    }
                    return Some(frame);
                }
                Ok(Event::HungUp(sender)) => {
                    if self.tells {
                        let _ = tell_hung_up(&self.rt, sender);
                    }
                }
                Err(_) => return None,
            }
        }
        unreachable!()
    }
}

impl<R: Drop> TcpLink<R> {
    // Counts a fault.
    fn fail(&mut self) -> LinkAnswer
        ensures answer { result ≡ LinkAnswer.Failed }
        ensures counted { Rose self.old.faults self.new.faults }
        ensures no_fall { self.old.faults ≤ self.new.faults }
        ensures frames { self.new.frames ≡ self.old.frames }
        ensures ends { self.new.ends ≡ self.old.ends }
    {
        self.faults = self.faults.saturating_add(1);
        LinkAnswer::Failed
    }
}

// A listener at the address of this member, whose `accept` never waits. Numbers count from 1.
fn listening<R: Net<Listener = TcpListener, Stream = TcpStream>>(
    rt: &R,
    number: u8,
    addresses: &Vec<String>,
) -> io::Result<TcpListener> {
    let own = usize::from(number).checked_sub(1);
    let Some(address) = own.and_then(|place| addresses.get(place)) else {
        return Err(io::Error::from(io::ErrorKind::InvalidInput));
    };
    let listener = TcpListener::bind(rt, address.as_str())?;
    listener.set_nonblocking(true)?;
    Ok(listener)
}

impl<R> Link for TcpLink<R>
where
    R: Net<Listener = TcpListener, Stream = TcpStream> + Wait + Clock + Eprint + Copy,
{
    ghost faults = { λ link. link.faults };

    ghost frames = { λ link. link.frames };

    ghost ends = { λ link. link.ends };

    ghost told = { λ _. None };

    fn begin(&mut self, number: u8, addresses: &Vec<String>, wait: u32) -> LinkAnswer {
        let wait = wait.max(1);
        let Ok(listener) = listening(&self.rt, number, addresses) else {
            return self.fail();
        };
        let Ok(mut peers) = peers_of(self.alloc, number, addresses) else {
            return LinkAnswer::OutOfMemory;
        };
        let Some(to_keeper) = self.opening.take() else {
            return self.fail();
        };
        let opening = Opening {
            listener,
            wait,
            most: addresses.len().saturating_mul(PLACES),
        };
        if let Err(SendError::OutOfMemory(_)) = to_keeper.send(&self.rt, opening) {
            return LinkAnswer::OutOfMemory;
        }
        reach_all(&self.rt, &mut peers, wait);
        if self.tells {
            let _ = tell_reached(&self.rt, &peers);
        }
        self.peers = peers;
        self.limit = Duration::from_secs(u64::from(wait));
        LinkAnswer::Done
    }

    fn recv(&mut self) -> Arrival {
        if self.ends == 0 {
            if let Some(frame) = self.next_frame() {
                self.frames = self.frames.saturating_add(1);
                return Arrival::Frame(List::of(frame.into_bytes()));
            }
            if self.doors.are_starved(&self.rt) {
                return Arrival::OutOfMemory;
            }
        }
        self.ends = self.ends.saturating_add(1);
        Arrival::End
    }

    fn post(&mut self, bytes: &Vec<u8>) -> LinkAnswer {
        if bytes.len() > FRAME_LIMIT as usize {
            return self.fail();
        }
        let rt = self.rt;
        let limit = self.limit;
        let tells = self.tells;
        for peer in self.peers.iter_mut() {
            if !peer.write(&rt, bytes, limit) && tells {
                let _ = tell_left_out(&rt, peer.number);
            }
        }
        LinkAnswer::Done
    }
}
