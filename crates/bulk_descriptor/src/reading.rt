//! Reading descriptors.

ghost use Rattle.std.specs.Prelude.{◌≡◌, ◌+◌, ◌*◌, ◌≤◌, ◌++◌, length, drop, take, IfOk, OnErr, OnOk, IsSome, IfSome, IsTrue, ◌↔◌, nat_le};
ghost use Rattle.std.specs.List.{list_all};
ghost use Rattle.std.specs.Option.{option_map};
ghost use Rattle.ring_encrypt.specs.declared.TheConstants.{CAPSULE_BYTES};
ghost use Rattle.ring_encrypt.specs.Reduced.{is_reduced};
ghost use Rattle.bulk_descriptor.specs.declared.making.TheConstants.{MESSAGE_LIMIT};
ghost use Rattle.bulk_descriptor.specs.declared.reading.TheConstants.{HASH_BYTES};
ghost use Rattle.bulk_descriptor.specs.Descriptor.{is_descriptor, descriptor_read, parts_of, length_in};
ghost use Rattle.bulk_descriptor.specs.Fields.{description_of};

use crate::descriptor::{Descriptor, HEAD_BYTES, MEMBER_BYTES};
use crate::making::MESSAGE_LIMIT;
use ring_encrypt::{CAPSULE_BYTES, Capsule, read_capsule};
use std::alloc::Global;
use wire_core::{List, Mem};

// How many bytes a hash has.
const HASH_BYTES: usize = 32;

/// The descriptor that bytes spell in a group of `n` members. `None` exactly where `n` is not from 2 to 16, the
/// bytes are not 36 and 2,272 for each member, the length that they tell is above 65,536, or a capsule spells a
/// coefficient of 12289 or more; that takes no memory.
pub fn decode(alloc: Global, n: u8, bytes: &[u8]) -> Mem<Option<Descriptor>>
    ensures value { IfOk result (λ found. option_map description_of found ≡ descriptor_read n bytes.now) }
    ensures members { IfOk result (λ found. IfSome found (λ d. length d.pad_hashes ≡ n)) }
    ensures memory { OnErr result (IsSome (descriptor_read n bytes.now)) }
{
    if !is_descriptor(n, bytes) {
        return Ok(None);
    }
    let count = n as usize;
    let (_, rest) = bytes.split_at(4);
    let (hash, hashes) = rest.split_at(HASH_BYTES);
    let (_, capsules) = hashes.split_at(HASH_BYTES * count);
    Ok(Some(Descriptor {
        length: length_of(bytes),
        message_hash: hash_in(hash),
        pad_hashes: List::of(read_hashes(alloc, count, hashes)?),
        capsules: List::of(read_capsules(alloc, count, capsules)?),
    }))
}

// Whether bytes spell a descriptor for a group of `n` members.
fn is_descriptor(n: u8, bytes: &[u8]) -> bool
    ensures { result ≡ is_descriptor n bytes.now }
{
    let count = n as usize;
    if !is_group(n) || bytes.len() != HEAD_BYTES + MEMBER_BYTES * count {
        return false;
    }
    if !is_short(length_of(bytes)) {
        return false;
    }
    let (_, capsules) = bytes.split_at(HEAD_BYTES + HASH_BYTES * count);
    are_reduced(count, capsules)
}

// Whether a group may have so many members.
fn is_group(n: u8) -> bool
    ensures { IsTrue result ↔ ((2 ≤ n) × (n ≤ 16)) }
{
    2 <= n && n <= 16
}

// Whether a message may have this length.
fn is_short(length: u32) -> bool
    ensures { IsTrue result ↔ (length ≤ MESSAGE_LIMIT) }
{
    length <= MESSAGE_LIMIT
}

// The length that the first four bytes spell.
fn length_of(bytes: &[u8]) -> u32
    requires { 4 ≤ length bytes.now }
    ensures { result ≡ length_in bytes.now }
{
    u32::from_be_bytes([bytes[0], bytes[1], bytes[2], bytes[3]])
}

// Whether none of the capsules spells a coefficient that is too large.
fn are_reduced(count: usize, bytes: &[u8]) -> bool
    requires { length bytes.now ≡ CAPSULE_BYTES * count }
    ensures { result ≡ list_all is_reduced (parts_of CAPSULE_BYTES count bytes.now) }
{
    let mut rest = bytes;
    for _ in 0..count {
        let (front, back) = rest.split_at(CAPSULE_BYTES);
        if !read_capsule(front).is_reduced() {
            return false;
        }
        rest = back;
    }
    true
}

// The hash that 32 bytes are.
fn hash_in(bytes: &[u8]) -> [u8; 32]
    requires { length bytes.now ≡ HASH_BYTES }
    ensures { result ≡ bytes.now }
{
    let mut hash = [0; 32];
    hash.copy_from_slice(bytes);
    hash
}

// The hashes that stand one after the other at the front of bytes.
fn read_hashes(alloc: Global, count: usize, bytes: &[u8]) -> Mem<Vec<[u8; 32]>>
    requires { HASH_BYTES * count ≤ length bytes.now }
    ensures { IfOk result (λ hashes. hashes.items ≡ parts_of HASH_BYTES count bytes.now) }
{
    let mut hashes = Vec::with_capacity(alloc, count)?;
    let mut rest = bytes;
    for _ in 0..count {
        let (front, back) = rest.split_at(HASH_BYTES);
        hashes.push(hash_in(front))?;
        rest = back;
    }
    Ok(hashes)
}

// The capsules that stand one after the other at the front of bytes.
fn read_capsules(alloc: Global, count: usize, bytes: &[u8]) -> Mem<Vec<Capsule>>
    requires { CAPSULE_BYTES * count ≤ length bytes.now }
    ensures { IfOk result (λ capsules. capsules.items ≡ parts_of CAPSULE_BYTES count bytes.now) }
{
    let mut capsules = Vec::with_capacity(alloc, count)?;
    let mut rest = bytes;
    for _ in 0..count {
        let (front, back) = rest.split_at(CAPSULE_BYTES);
        capsules.push(read_capsule(front))?;
        rest = back;
    }
    Ok(capsules)
}
