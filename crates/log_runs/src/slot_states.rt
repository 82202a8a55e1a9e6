//! The four states that a slot comes to.

ghost use Rattle.std.specs.Prelude.{◌≡◌, length, IfOk, IfSome};

use crate::slots::two_slots;
use crate::whole::joined;
use bulk_descriptor::{Descriptor, SlotState, decode};
use bulk_recovery::recover;
use std::alloc::Global;
use std::test::Fail;
use wire_core::Mem;

// The hash of the message 61, and those of the pads 0f and 6e.
const MESSAGE_HASH: &[u8; 32] =
    b"\x89\x66\x17\x68\xf2\x29\xb1\xd4\x5c\x14\x67\xf0\x75\x73\xbc\x4f\x2f\x81\x3d\x57\x25\xd8\x60\x3d\x1f\x00\x6e\x3d\xd4\x89\x4d\x49";

const PAD_HASHES: [&[u8; 32]; 2] = [
    b"\x29\x79\xb0\x8f\xf3\x50\xe6\xa4\xd3\xc2\x38\x3e\xde\xdb\x03\x30\x3c\x74\xbe\x3c\x8a\xca\x54\x4b\x69\x65\xf0\xb6\x85\x04\x63\xee",
    b"\x2a\xf0\x86\x67\x01\x4d\xee\x49\x9e\x47\xc1\xa6\x17\x3d\x2b\x06\xd8\x1b\xea\x0c\x7f\x07\xf8\x2b\x7b\x8c\xc9\x61\x39\x50\xf2\x5f",
];

// A descriptor of one byte with these hashes, and capsules that nobody opens.
fn descriptor(alloc: Global, message_hash: &[u8; 32]) -> Mem<Option<Descriptor>>
    ensures { IfOk result (λ found. IfSome found (λ d. length d.pad_hashes ≡ 2)) }
{
    let capsules = vec![in alloc; 0; 4480]?;
    let parts = [
        b"\0\0\0\x01".as_slice(),
        message_hash,
        PAD_HASHES[0],
        PAD_HASHES[1],
        capsules.as_slice(),
    ];
    let bytes = joined(alloc, &parts)?;
    decode(alloc, 2, &bytes)
}

// What a slot holds: a descriptor with this hash of the message, or none.
fn held(alloc: Global, message_hash: Option<&[u8; 32]>) -> Mem<Option<Descriptor>>
    ensures { IfOk result (λ found. IfSome found (λ d. length d.pad_hashes ≡ 2)) }
{
    match message_hash {
        Some(hash) => descriptor(alloc, hash),
        None => Ok(None),
    }
}

// The state of the slot for which the members sent 0f and this byte.
fn state(alloc: Global, held: Option<Descriptor>, byte: u8) -> Mem<Option<SlotState>>
    requires { IfSome held (λ d. length d.pad_hashes ≡ 2) }
{
    let slots = two_slots(alloc, held, [0x0f, byte])?;
    let mut states = recover(alloc, &slots.descriptors, &slots.pads)?;
    let _ = states.pop();
    Ok(states.pop())
}

fn told(state: &Option<SlotState>) -> &'static str {
    match state {
        Some(SlotState::Message(bytes)) if bytes.items().as_slice() == [0x61].as_slice() => {
            "the message 61"
        }
        Some(SlotState::Bad { first: 2 }) => "bad, of member 2 first",
        Some(SlotState::Mismatched) => "mismatched",
        Some(SlotState::Empty) => "empty",
        _ => "another",
    }
}

// What is told of the state of a slot that holds a descriptor with this hash of the message, or none.
fn told_of(alloc: Global, message_hash: Option<&[u8; 32]>, byte: u8) -> Mem<&'static str> {
    let held = held(alloc, message_hash)?;
    let state = state(alloc, held, byte)?;
    Ok(told(&state))
}

#[test]
fn the_four_states(rt: HostRuntime) -> Result<(), Fail> {
    let alloc = rt.alloc();
    let cases = [
        (Some(MESSAGE_HASH), 0x6e, "the message 61"),
        (Some(MESSAGE_HASH), 0x6f, "bad, of member 2 first"),
        (Some(PAD_HASHES[0]), 0x6e, "mismatched"),
        (None, 0x6e, "empty"),
    ];
    for (hash, byte, expected) in cases {
        assert!(rt; told_of(alloc, hash, byte)? == expected, "{expected}");
    }
    Ok(())
}
