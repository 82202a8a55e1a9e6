//! The connections to the other members, for writing.
ghost use Rattle.std.specs.Prelude.{◌≤◌, length};

use crate::accepting::{BETWEEN_TRIES, TRIES_A_SECOND};
use crate::frame::write_frame;
use std::alloc::{AllocError, Global};
use std::io::ErrorKind;
use std::net::{Net, TcpStream, ToSocketAddrs};
use std::time::{Clock, Duration, Instant};
use std::{io, thread};

// How many seconds one try to connect may take.
const TRY_LIMIT: u64 = 1;

/// Another member, and the connection to it as long as it is there.
#[derive(Drop)]
pub struct Peer {
    pub number: u8,
    address: String,
    pub stream: Option<TcpStream>,
}

/// The members but for `own`, none of them reached yet.
pub fn peers_of(alloc: Global, own: u8, addresses: &Vec<String>) -> Result<Vec<Peer>, AllocError> {
    let mut peers = Vec::new(alloc);
    let mut number = 0u8;
    for address in addresses {
        number = number.saturating_add(1);
        if number != own {
            peers.push(Peer {
                number,
                address: address.clone()?,
                stream: None,
            })?;
        }
    }
    Ok(peers)
}

/// Connects to the peers, each tried again until it is there or `wait` seconds have passed.
pub fn reach_all<R: Net<Stream = TcpStream> + Clock>(rt: &R, peers: &mut Vec<Peer>, wait: u32) {
    let limit = Duration::from_secs(u64::from(wait));
    let Ok(start) = Instant::now(rt) else {
        return;
    };
    for _ in 0..u64::from(wait) * TRIES_A_SECOND {
        for peer in peers.iter_mut() {
            peer.reach(rt, limit);
        }
        if peers.iter().all(|peer| peer.stream.is_some()) || is_over(rt, start, limit) {
            return;
        }
        thread::sleep(rt, Duration::from_millis(BETWEEN_TRIES));
    }
}

fn is_over<C: Clock>(clock: &C, start: Instant, limit: Duration) -> bool {
    match start.elapsed(clock) {
        Ok(since) => since >= limit,
        Err(_) => true,
    }
}

impl Peer {
    /// Writes a frame of at most `FRAME_LIMIT` bytes where the connection is there. Where that fails or takes longer than
    /// the limit the connection is given up, and the answer is false.
    pub fn write<C: Clock>(&mut self, clock: &C, bytes: &[u8], limit: Duration) -> bool
        requires { length bytes.now ≤ 16777216 }
    {
        let Some(stream) = &mut self.stream else {
            return true;
        };
        if write_frame(clock, stream, bytes, limit).is_ok() {
            return true;
        }
        self.stream = None;
        false
    }

    // Tries once to connect, where there is no connection yet.
    fn reach<R: Net<Stream = TcpStream> + Clock>(&mut self, rt: &R, limit: Duration) {
        if self.stream.is_none() {
            self.stream = connected(rt, &self.address, limit).ok();
        }
    }
}

// A connection on which no write waits longer than the limit.
fn connected<R: Net<Stream = TcpStream>>(
    rt: &R,
    address: &String,
    limit: Duration,
) -> io::Result<TcpStream> {
    let mut found = address.as_str().to_socket_addrs(rt)?;
    let Some(place) = found.next() else {
        return Err(io::Error::from(ErrorKind::NotFound));
    };
    let stream = TcpStream::connect_timeout(rt, &place, Duration::from_secs(TRY_LIMIT))?;
    // A port that nobody listens at may be taken for the own end, which is then connected to itself.
    if stream.local_addr()? == stream.peer_addr()? {
        return Err(io::Error::from(ErrorKind::ConnectionRefused));
    }
    stream.set_write_timeout(Some(limit))?;
    stream.set_nodelay(true)?;
    Ok(stream)
}
