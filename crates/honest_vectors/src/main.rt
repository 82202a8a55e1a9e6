//! Prints what the two members of a round say at KEYS and SUBMIT, as the SHA-256 of each content, and the pads that one
//! of them sends where the opened list has its own entry alone. All bytes are in hexadecimal digits, `-` for none.
#![tactic(auto)]

mod secrets;

use crate::secrets::{bulk_keys, bulk_secrets, first_keys, first_secrets, group, second_secrets};
use anyhow::{Context, Result, bail, ensure};
use bulk_descriptor::Made;
use group_roster::Roster;
use honest_say::{Seat, ShuffleKeys, keys_body, make_descriptor, pads_body, submit};
use phase_message::{Body, Header};
use ring_encrypt::PublicKey;
use sha2::{Digest, Sha256};
use shuffle_core::Submission;
use std::alloc::Global;
use std::rt::Runtime;
use wire_core::{List, Mem, Register, Tag, put_bytes, put_u8, put_u64};

fn seat(roster: &Roster, member: u8) -> Option<Seat> {
    if member == 0 || roster.members() < member {
        return None;
    }
    Some(Seat::new(roster, 1, member))
}

// A content under a header, by the bytes of its body.
fn spelled(alloc: Global, header: &Header, kind: u8, body: &[u8]) -> Mem<Vec<u8>> {
    let mut bytes = Vec::new(alloc);
    put_u8(&mut bytes, header.version)?;
    put_bytes(&mut bytes, &header.group)?;
    put_u64(&mut bytes, header.round)?;
    put_u8(&mut bytes, header.stage)?;
    put_u8(&mut bytes, header.sender)?;
    put_bytes(&mut bytes, &header.view)?;
    put_u8(&mut bytes, kind)?;
    put_bytes(&mut bytes, body)?;
    Ok(bytes)
}

fn digest(alloc: Global, bytes: &[u8]) -> Mem<String> {
    let mut hasher = Sha256::new();
    hasher.update(bytes);
    hex::encode(alloc, &hasher.finalize())
}

// What a member says at KEYS.
fn keys_content(alloc: Global, seat: &Seat, view: &[u8; 32]) -> Mem<Vec<u8>> {
    let bulk = bulk_secrets(alloc, seat.number)?;
    let first = first_secrets(seat.number);
    let second = second_secrets(seat.number);
    let body = keys_body(&first, &bulk, &second);
    first.destroy();
    bulk.destroy();
    second.destroy();
    let mut bytes = Vec::new(alloc);
    if let Body::Keys { keys } = body {
        for key in &keys {
            put_bytes(&mut bytes, key)?;
        }
    }
    spelled(alloc, &seat.header(0, view), 1, &bytes)
}

// Takes a content into a view, if it is not long.
fn hear(view: &mut Register, content: &[u8]) {
    if content.len() < 10_000 {
        view.piece(content);
    }
}

// The bytes of the descriptor of a member's message, unless there are not as many keys as members.
fn own_descriptor(
    alloc: Global,
    seat: &Seat,
    keys: &Vec<PublicKey>,
    message: &[u8],
) -> Mem<Option<Vec<u8>>> {
    let members = usize::from(seat.shape.members);
    let bulk = bulk_secrets(alloc, seat.number)?;
    if keys.len() != members || bulk.pad_seeds.items().len() != members || message.len() > 100 {
        bulk.destroy();
        return Ok(None);
    }
    let made = make_descriptor(alloc, seat, keys, &bulk, message);
    bulk.destroy();
    let Made { descriptor, .. } = made?;
    let bytes = descriptor.encode(alloc)?;
    Ok(Some(bytes))
}

// What a member submits to shuffle A, unless there are not as many keys as members.
fn submitted(
    alloc: Global,
    seat: &Seat,
    keys: &ShuffleKeys,
    item: &[u8],
) -> Mem<Option<Submission>> {
    let members = usize::from(seat.shape.members);
    let inner = keys.inner.items().len();
    let outer = keys.outer.items().len();
    if inner != members || outer != members || item.len() > 10_000 {
        return Ok(None);
    }
    let first = first_secrets(seat.number);
    let submission = submit(alloc, seat, &first, keys, 1, item);
    first.destroy();
    Ok(Some(submission?))
}

// The pads of member 2 where the opened list has its own entry alone.
fn own_pads(alloc: Global, roster: &Roster) -> Result<List<List<u8>>> {
    let seat = seat(roster, 2).context("no seat")?;
    let own = List::of(Vec::from_slice(alloc, b"own descriptor")?);
    let opened = vec![in alloc; None, Some(own)]?;
    let bulk = bulk_secrets(alloc, 2)?;
    let body = pads_body(alloc, &seat, &bulk, b"own descriptor", b"own pad", &opened);
    bulk.destroy();
    let Body::Pads { pads } = body? else {
        bail!("no pads");
    };
    Ok(pads)
}

// The digits of some bytes.
fn digits(alloc: Global, bytes: &[u8]) -> Mem<String> {
    if bytes.is_empty() {
        return String::from_str(alloc, "-");
    }
    hex::encode(alloc, bytes)
}

// What a member says at SUBMIT.
fn submit_content(
    alloc: Global,
    seat: &Seat,
    keys: &ShuffleKeys,
    bulk: &Vec<PublicKey>,
    view: &[u8; 32],
    message: &[u8],
) -> Result<Vec<u8>> {
    let item = own_descriptor(alloc, seat, bulk, message)?.context("no descriptor")?;
    let submission = submitted(alloc, seat, keys, &item)?.context("no submission")?;
    let body = submission.ciphertext.items();
    Ok(spelled(alloc, &seat.header(1, view), 2, body)?)
}

// Prints what the two say at KEYS, and gives the view of it.
fn print_keys<R: Runtime>(rt: &R, alloc: Global, roster: &Roster) -> Result<[u8; 32]> {
    let no_view = Register::new(Tag::View).end();
    let mut view = Register::new(Tag::View);
    view.piece(&no_view);
    for member in 1..3 {
        let seat = seat(roster, member).context("no seat")?;
        let content = keys_content(alloc, &seat, &no_view)?;
        hear(&mut view, &content);
        let hash = digest(alloc, &content)?;
        println!(rt; "keys {member} {hash}")?;
    }
    Ok(view.end())
}

// Prints what the two say at SUBMIT, where their messages are `a` and `b`.
fn print_submissions<R: Runtime>(
    rt: &R,
    alloc: Global,
    roster: &Roster,
    view: &[u8; 32],
) -> Result<()> {
    let keys = first_keys(alloc)?;
    let bulk = bulk_keys(alloc)?;
    for (member, message) in [(1, b"a"), (2, b"b")] {
        let seat = seat(roster, member).context("no seat")?;
        let content = submit_content(alloc, &seat, &keys, &bulk, view, message)?;
        let hash = digest(alloc, &content)?;
        println!(rt; "submit {member} {hash}")?;
    }
    Ok(())
}

fn main(rt: HostRuntime) -> Result<()> {
    let alloc = rt.alloc();
    let roster = group(alloc)?.context("no roster")?;
    let view = print_keys(&rt, alloc, &roster)?;
    print_submissions(&rt, alloc, &roster, &view)?;
    for pad in own_pads(alloc, &roster)?.items() {
        let pad = digits(alloc, pad.items())?;
        println!(rt; "pad {pad}")?;
    }
    Ok(())
}
