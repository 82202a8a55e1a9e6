//! Descriptors for two members, and an own pad that another program computed.

use crate::slots::{keys, seeds};
use bulk_descriptor::{Descriptor, KeySeed, Made, decode, make, sent_pad};
use std::alloc::Global;
use std::test::Fail;
use wire_core::Mem;

// What the first of two members makes for no bytes.
fn made_of_nothing(alloc: Global) -> Mem<Made> {
    let keys = keys(alloc, &[1; 32], &[2; 32])?;
    let seeds = seeds(alloc, &[10; 32], &[20; 32])?;
    make(alloc, &keys, &seeds, 1, b"")
}

fn bytes_of(alloc: Global, made: &Made) -> Mem<Vec<u8>> {
    made.descriptor.encode(alloc)
}

fn pad_of(made: &Made) -> &[u8] {
    made.own_pad.items().as_slice()
}

// How many bytes the pad has that a member of a group of two finds in a descriptor by the seed of its key.
fn pad_in(alloc: Global, descriptor: &Descriptor, seed: [u8; 32]) -> Mem<Option<usize>> {
    if descriptor.pad_hashes.items().len() < 2 {
        return Ok(None);
    }
    let key = KeySeed::new(seed);
    let found = descriptor.my_pad(alloc, 2, &key);
    key.destroy();
    match found? {
        Some(pad) => Ok(Some(pad.items().len())),
        None => Ok(None),
    }
}

// The same of the bytes of a descriptor.
fn pad_in_bytes(alloc: Global, bytes: &[u8], seed: [u8; 32]) -> Mem<Option<usize>> {
    match decode(alloc, 2, bytes)? {
        Some(descriptor) => pad_in(alloc, &descriptor, seed),
        None => Ok(None),
    }
}

// Whether bytes without the last one are a descriptor.
fn is_read_cut(alloc: Global, bytes: &[u8]) -> Mem<bool> {
    match bytes {
        [cut @ .., _] => Ok(decode(alloc, 2, cut)?.is_some()),
        [] => Ok(true),
    }
}

// Turns a bit of the hash of the second pad, which stands behind the head and the first one.
fn turn_hash(bytes: &mut Vec<u8>) {
    if let Some(byte) = bytes.get_mut(68) {
        *byte ^= 1;
    }
}

#[test]
fn a_descriptor_of_no_bytes_for_two(rt: HostRuntime) -> Result<(), Fail> {
    let alloc = rt.alloc();
    let made = made_of_nothing(alloc)?;
    assert!(rt; pad_of(&made).is_empty());
    let mut bytes = bytes_of(alloc, &made)?;
    assert_eq!(rt; bytes.len(), 4580);
    assert!(rt; !is_read_cut(alloc, &bytes)?);
    assert!(rt; pad_in_bytes(alloc, &bytes, [2; 32])? == Some(0));
    assert!(rt; pad_in_bytes(alloc, &bytes, [1; 32])?.is_none());
    turn_hash(&mut bytes);
    assert!(rt; pad_in_bytes(alloc, &bytes, [2; 32])?.is_none());
    Ok(())
}

// Key seeds, pad seeds and an own pad that another program computed, for the message 8d of member 2.
const KEY_SEEDS: [&[u8; 32]; 2] = [
    b"\x77\xab\x18\xbb\x0c\x7c\x8e\xda\x34\x85\x1d\x85\xcb\x7f\x86\x0d\x14\x78\xa3\x23\xef\xce\xe9\x57\xb5\xa5\xa7\xf3\x24\x5b\x4a\x9f",
    b"\x24\x98\x90\x6c\x3d\xac\x66\x09\x5e\xe5\xe1\xd9\x49\xa5\x24\xe9\x2e\xd8\x21\xba\xa9\x5d\x9f\x60\x93\x64\xda\x28\x02\xfe\x63\x3f",
];

const PAD_SEEDS: [&[u8; 32]; 2] = [
    b"\xa6\xc8\x30\xdf\xf7\x47\xed\x03\x40\x05\x34\xaa\x35\x70\x36\xfd\x6e\x8e\xb2\xf2\x09\x17\x94\x43\x82\x89\x72\x77\x33\x7b\xf6\x9c",
    b"\xcc\xd8\x1a\x76\x8e\xae\x72\x1f\x4d\x8e\xa5\x93\xb7\xfd\x9e\xe1\xa8\xe9\x62\x4a\x29\xcf\xe3\x9a\x80\xc7\x5c\x5f\xe7\x26\xb6\x54",
];

// What the second of two members makes for the message.
fn made_of_message(alloc: Global) -> Mem<Made> {
    let keys = keys(alloc, KEY_SEEDS[0], KEY_SEEDS[1])?;
    let seeds = seeds(alloc, PAD_SEEDS[0], PAD_SEEDS[1])?;
    make(alloc, &keys, &seeds, 2, b"\x8d")
}

// Whether a pad fits for the first of two members.
fn fits_first(descriptor: &Descriptor, pad: &[u8]) -> Option<bool> {
    if descriptor.pad_hashes.items().len() < 2 {
        return None;
    }
    Some(descriptor.fits(1, pad))
}

// Whether it fits for the second.
fn fits_second(descriptor: &Descriptor, pad: &[u8]) -> Option<bool> {
    if descriptor.pad_hashes.items().len() < 2 {
        return None;
    }
    Some(descriptor.fits(2, pad))
}

// The pad that the second member sends for an entry, where the first bytes are its own descriptor and pad.
fn sent(alloc: Global, own: &[u8], own_pad: &[u8], entry: &[u8]) -> Mem<Vec<u8>> {
    let key = KeySeed::new(*KEY_SEEDS[1]);
    let sent = sent_pad(alloc, 2, own, own_pad, 2, &key, entry);
    key.destroy();
    Ok(sent?.into_items())
}

#[test]
fn the_own_pad_of_a_maker(rt: HostRuntime) -> Result<(), Fail> {
    let alloc = rt.alloc();
    let made = made_of_message(alloc)?;
    assert!(rt; pad_of(&made) == [0x48].as_slice());
    assert!(rt; fits_second(&made.descriptor, &[0x48]) == Some(true));
    assert!(rt; fits_first(&made.descriptor, &[0x48]) == Some(false));
    let own = bytes_of(alloc, &made)?;
    let for_own = sent(alloc, &own, pad_of(&made), &own)?;
    assert!(rt; for_own.as_slice() == [0x48].as_slice());
    assert!(rt; sent(alloc, &own, pad_of(&made), b"no descriptor")?.is_empty());
    Ok(())
}
