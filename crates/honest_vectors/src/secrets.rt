//! The keys and the secrets of the two members, each made of the round's seed.

use group_roster::Roster;
use honest_say::{BulkSecrets, ShuffleKeys, ShuffleSecrets};
use lms_tree::{LmsSecret, MadeHeight, OtsType};
use ring_encrypt::PublicKey;
use std::alloc::Global;
use wire_core::{List, Mem, Register, Tag};

const SEED: [u8; 32] =
    *b"\xa9\x5a\xdc\x64\x4b\x94\xc1\x0c\x3a\x3f\x49\x5e\x83\x24\x17\x0d\x5c\x85\x6b\x86\x6a\xb3\x84\x8f\xe8\xa4\xb1\x75\xbf\x65\x1b\xdc";

// What is made of the seed for a member.
pub(crate) fn of_seed(tag: Tag, member: u8) -> [u8; 32] {
    let mut register = Register::new(tag);
    register.piece(&SEED);
    register.piece(&[member]);
    register.end()
}

pub(crate) fn first_secrets(member: u8) -> ShuffleSecrets {
    ShuffleSecrets::derive(&of_seed(Tag::ScriptFresh, member), 1, 1)
}

pub(crate) fn second_secrets(member: u8) -> ShuffleSecrets {
    ShuffleSecrets::derive(&of_seed(Tag::ScriptFresh, member), 1, 2)
}

pub(crate) fn bulk_secrets(alloc: Global, member: u8) -> Mem<BulkSecrets> {
    BulkSecrets::derive(alloc, &of_seed(Tag::ScriptFresh, member), 1, 2)
}

// A member's key of the group.
fn group_key(alloc: Global, member: u8) -> Mem<[u8; 56]> {
    let master = of_seed(Tag::ScriptKey, member);
    let secret = LmsSecret::make(alloc, MadeHeight::H5, OtsType::W4, &master, 0)?;
    Ok(secret.public().bytes())
}

// The group of the round.
pub(crate) fn group(alloc: Global) -> Mem<Option<Roster>> {
    let keys = vec![in alloc; group_key(alloc, 1)?, group_key(alloc, 2)?]?;
    Ok(Roster::new(1, List::of(keys)))
}

fn inner_key(member: u8) -> PublicKey {
    let secrets = first_secrets(member);
    let key = secrets.inner.public();
    secrets.destroy();
    key
}

fn outer_key(member: u8) -> PublicKey {
    let secrets = first_secrets(member);
    let key = secrets.outer.public();
    secrets.destroy();
    key
}

fn bulk_key(alloc: Global, member: u8) -> Mem<PublicKey> {
    let secrets = bulk_secrets(alloc, member)?;
    let key = secrets.key.public();
    secrets.destroy();
    Ok(key)
}

// The keys of shuffle A, by member.
pub(crate) fn first_keys(alloc: Global) -> Mem<ShuffleKeys> {
    let inner = vec![in alloc; inner_key(1), inner_key(2)]?;
    let outer = vec![in alloc; outer_key(1), outer_key(2)]?;
    Ok(ShuffleKeys {
        inner: List::of(inner),
        outer: List::of(outer),
    })
}

// The bulk keys, by member.
pub(crate) fn bulk_keys(alloc: Global) -> Mem<Vec<PublicKey>> {
    Ok(vec![in alloc; bulk_key(alloc, 1)?, bulk_key(alloc, 2)?]?)
}
