//! The connections that were accepted, as all threads of a link share them.
use std::alloc::{AllocError, Global};
use std::net::{Shutdown, TcpStream};
use std::sync::{Mutex, Wait};

/// Whether the link is closed, whether a frame was lost for want of memory, and the accepted connections.
#[derive(Drop)]
pub struct Doors {
    inside: Mutex<Inside>,
}

#[derive(Drop)]
struct Inside {
    closed: bool,
    starved: bool,
    streams: Vec<TcpStream>,
}

impl Doors {
    /// Open, with no connection yet.
    pub fn new(alloc: Global) -> Doors {
        let inside = Inside {
            closed: false,
            starved: false,
            streams: Vec::new(alloc),
        };
        Doors {
            inside: Mutex::new(inside),
        }
    }

    /// Keeps a connection, so that it ends where the link is closed. It answers whether it was kept: it is not where the
    /// link is closed, `most` are kept already, or memory is wanting.
    pub fn admit<R: Wait>(&self, rt: &R, stream: TcpStream, most: usize) -> bool {
        let mut inside = self.inside.lock(rt);
        if inside.closed || inside.streams.len() >= most {
            return false;
        }
        inside.streams.push(stream).is_ok()
    }

    /// Whether the link is closed.
    pub fn are_closed<R: Wait>(&self, rt: &R) -> bool {
        self.inside.lock(rt).closed
    }

    /// Notes that a frame was lost for want of memory.
    pub fn starve<R: Wait>(&self, rt: &R) {
        self.inside.lock(rt).starved = true;
    }

    /// Whether a frame was lost for want of memory.
    pub fn are_starved<R: Wait>(&self, rt: &R) -> bool {
        self.inside.lock(rt).starved
    }

    /// Ends all accepted connections, and lets no further one in.
    pub fn close<R: Wait>(&self, rt: &R) {
        let mut inside = self.inside.lock(rt);
        inside.closed = true;
        for stream in &inside.streams {
            let _ = stream.shutdown(Shutdown::Both);
        }
    }
}
