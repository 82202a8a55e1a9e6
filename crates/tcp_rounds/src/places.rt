//! Where the members listen.

use anyhow::{Result, bail};
use std::alloc::{AllocError, Global};
use std::net::{Net, TcpListener, TcpStream};

// The first port that is tried. It lies below those that a system gives out by itself.
const FIRST_PORT: u16 = 21_101;

// How many ports are tried.
const PORTS: u16 = 500;

/// Three addresses of the loopback net at which nobody listens. They are this program's alone as long as the claim is there:
/// each process of this program first listens at a fourth address, that of the claim.
#[derive(Drop)]
pub(crate) struct Places {
    pub(crate) addresses: Vec<String>,
    _claim: TcpListener,
}

impl Places {
    /// The first that are free, in the part of the net that this process takes.
    pub(crate) fn claim<R: Net<Listener = TcpListener, Stream = TcpStream>>(
        rt: &R,
        alloc: Global,
        process: u32,
    ) -> Result<Places> {
        for port in FIRST_PORT..FIRST_PORT + PORTS {
            if let Some(places) = claim_at(rt, alloc, process, port)? {
                return Ok(places);
            }
        }
        bail!("no port is free")
    }
}

// The addresses at a port, if all are free.
fn claim_at<R: Net<Listener = TcpListener, Stream = TcpStream>>(
    rt: &R,
    alloc: Global,
    process: u32,
    port: u16,
) -> Result<Option<Places>, AllocError> {
    let Ok(claim) = TcpListener::bind(rt, address(alloc, process, 4, port)?.as_str()) else {
        return Ok(None);
    };
    let mut addresses = Vec::new(alloc);
    for number in 1..4 {
        addresses.push(address(alloc, process, number, port)?)?;
    }
    if !are_free(rt, &addresses) {
        return Ok(None);
    }
    Ok(Some(Places {
        addresses,
        _claim: claim,
    }))
}

fn address(alloc: Global, process: u32, number: u8, port: u16) -> Result<String, AllocError> {
    let high = process / 250 % 250 + 1;
    let low = process % 250 + 1;
    format!(in alloc; "127.{high}.{low}.{number}:{port}")
}

// Whether each can be listened at.
fn are_free<R: Net<Listener = TcpListener, Stream = TcpStream>>(
    rt: &R,
    addresses: &Vec<String>,
) -> bool {
    addresses
        .iter()
        .all(|address| TcpListener::bind(rt, address.as_str()).is_ok())
}
