//! What the thread does that accepts connections.
use crate::doors::Doors;
use crate::reading::{Event, read_all};
use crossbeam_channel::{Receiver, Sender};
use std::alloc::{AllocError, Global};
use std::io::ErrorKind;
use std::net::{Shutdown, TcpListener, TcpStream};
use std::sync::{Arc, Wait};
use std::thread::{JoinHandle, Threads};
use std::time::{Clock, Duration};
use std::{io, thread};

/// How often in a second connections are accepted and tried.
pub const TRIES_A_SECOND: u64 = 10;

/// How many milliseconds it is from one try to the next.
pub const BETWEEN_TRIES: u64 = 100;

/// What the thread is told when the link begins.
#[derive(Drop)]
pub struct Opening {
    pub listener: TcpListener,
    /// For how many seconds connections are accepted, and how many a read may take.
    pub wait: u32,
    /// How many connections are accepted at most.
    pub most: usize,
}

/// What the thread needs, and its readers.
#[derive(Drop)]
pub struct Entrance<R: Drop> {
    pub rt: R,
    pub alloc: Global,
    pub doors: Arc<Doors, Global>,
    pub events: Sender<Event>,
}

impl<R> Entrance<R>
where
    R: Threads + Wait + Clock + Copy + Send + 'static,
{
    /// When the link begins, accepts connections as long as it is told to and the link is not closed, each with a reader.
    /// It returns when all readers have ended.
    pub fn serve(self, openings: Receiver<Opening>) {
        let rt = self.rt;
        let mut readers = Vec::new(self.alloc);
        if let Ok(opening) = openings.recv(&rt) {
            self.accept_all(&opening, &mut readers);
        }
        drop(self);
        for reader in readers {
            reader.join(&rt);
        }
    }

    // Accepts connections for the time that is told.
    fn accept_all(&self, opening: &Opening, readers: &mut Vec<JoinHandle<()>>) {
        for _ in 0..u64::from(opening.wait) * TRIES_A_SECOND {
            if self.doors.are_closed(&self.rt) {
                return;
            }
            self.accept_waiting(opening, readers);
            thread::sleep(&self.rt, Duration::from_millis(BETWEEN_TRIES));
        }
    }

    // Accepts the connections that wait, each with a reader.
    fn accept_waiting(&self, opening: &Opening, readers: &mut Vec<JoinHandle<()>>) {
        for _ in 0..opening.most {
            let Ok((stream, _)) = opening.listener.accept() else {
                return;
            };
            if let Ok(reader) = self.start_reader(opening, stream) {
                let _ = readers.push(reader);
            }
        }
    }

    // Starts a reader. Without one the connection ends.
    fn start_reader(&self, opening: &Opening, stream: TcpStream) -> io::Result<JoinHandle<()>> {
        stream.set_read_timeout(Some(Duration::from_secs(u64::from(opening.wait))))?;
        let rt = self.rt;
        let alloc = self.alloc;
        let doors = Arc::try_clone(&self.doors)?;
        let events = self.events.clone()?;
        if !self.doors.admit(&rt, stream.try_clone()?, opening.most) {
            return Err(io::Error::from(ErrorKind::QuotaExceeded));
        }
        let spare = stream.try_clone()?;
        match thread::spawn(
            &rt,
            move || read_to_end(&rt, alloc, stream, &doors, &events),
        ) {
            Ok(reader) => Ok(reader),
            Err(_) => {
                spare.shutdown(Shutdown::Both)?;
                Err(io::Error::from(ErrorKind::OutOfMemory))
            }
        }
    }
}

// Hands on what a connection brings, and ends it.
fn read_to_end<R: Wait>(
    rt: &R,
    alloc: Global,
    mut stream: TcpStream,
    doors: &Doors,
    events: &Sender<Event>,
) {
    read_all(rt, alloc, &mut stream, doors, events);
    let _ = stream.shutdown(Shutdown::Both);
}
