//! Accusations of a pad of one byte, each condition broken in turn, and the item of a maker.

ghost use Rattle.std.specs.Prelude.{◌≡◌, length, IfOk, IfSome};

use crate::slots::{keys, seeds, two_slots};
use accusation::{Accusation, AccusationRefusal, holds, own_item};
use bulk_descriptor::{Descriptor, List, Mem, SlotState, decode, make};
use pad_stream::pad;
use std::alloc::Global;
use std::test::Fail;

const SEEDS: [[u8; 32]; 2] = [[0x10; 32], [0x20; 32]];

// The bytes of the descriptor of the message 61 that the first of two members makes.
fn own(alloc: Global) -> Mem<Vec<u8>> {
    let keys = keys(alloc, &[1; 32], &[2; 32])?;
    let seeds = seeds(alloc, &SEEDS[0], &SEEDS[1])?;
    let made = make(alloc, &keys, &seeds, 1, b"a")?;
    made.descriptor.encode(alloc)
}

fn descriptor(alloc: Global) -> Mem<Option<Descriptor>>
    ensures { IfOk result (λ found. IfSome found (λ d. length d.pad_hashes ≡ 2)) }
{
    let own = own(alloc)?;
    decode(alloc, 2, &own)
}

// What an accusation comes to where the first of two slots holds the descriptor, and the second member sent the byte.
fn judged(alloc: Global, accusation: &Accusation, sent: u8) -> Mem<Result<(), AccusationRefusal>> {
    let slots = two_slots(alloc, descriptor(alloc)?, [0, sent])?;
    let keys = keys(alloc, &[1; 32], &[2; 32])?;
    Ok(holds(accusation, &slots.descriptors, &slots.pads, &keys))
}

// The byte of the pad of the second member.
fn pad_byte(alloc: Global) -> Mem<Option<u8>> {
    Ok(pad(alloc, &SEEDS[1], 1)?.pop())
}

// The accusation of the second member that holds where another byte was sent.
const RIGHT: Accusation = Accusation {
    slot: 1,
    member: 2,
    seed: [0x20; 32],
};

// The seed of the second member with another first byte.
fn changed_seed() -> [u8; 32] {
    let mut seed = SEEDS[1];
    seed[0] ^= 0x80;
    seed
}

// The accusation that 34 zeros are.
fn empty() -> Accusation {
    Accusation::decode(&[0; 34]).unwrap_or(RIGHT)
}

// Accusations, the bits of the sent byte that are turned, and the answers. In the last the maker's own seed was sealed,
// and its pad is another.
fn cases() -> [(Accusation, u8, Result<(), AccusationRefusal>); 6] {
    [
        (RIGHT, 1, Ok(())),
        (RIGHT, 0, Err(AccusationRefusal::PadSent)),
        (empty(), 1, Err(AccusationRefusal::Slot)),
        (
            Accusation {
                seed: changed_seed(),
                ..RIGHT
            },
            1,
            Err(AccusationRefusal::Capsule),
        ),
        (
            Accusation { member: 3, ..RIGHT },
            1,
            Err(AccusationRefusal::Member),
        ),
        (
            Accusation {
                member: 1,
                seed: SEEDS[0],
                ..RIGHT
            },
            0,
            Err(AccusationRefusal::PadHash),
        ),
    ]
}

#[test]
fn a_pad_that_was_flipped(rt: HostRuntime) -> Result<(), Fail> {
    let alloc = rt.alloc();
    let sent = pad_byte(alloc)?.ok_or("a pad of one byte")?;
    for (accusation, turned, answer) in cases() {
        assert!(rt;
            judged(alloc, &accusation, sent ^ turned)? == answer,
            "{answer:?}"
        );
    }
    Ok(())
}

// The item of a maker of these bytes where the second of two slots opened to an entry, and is bad of the second member.
fn item(alloc: Global, own: &[u8], entry: Vec<u8>) -> Mem<[u8; 34]> {
    let seeds = seeds(alloc, &SEEDS[0], &SEEDS[1])?;
    let states = vec![in alloc; SlotState::Empty, SlotState::Bad { first: 2 }]?;
    let opened = vec![in alloc; None, Some(List::of(entry))]?;
    Ok(own_item(own, &opened, &states, &seeds))
}

#[test]
fn the_item_of_a_maker(rt: HostRuntime) -> Result<(), Fail> {
    let alloc = rt.alloc();
    let accusation = Accusation { slot: 2, ..RIGHT };
    let maker = own(alloc)?;
    assert!(rt; item(alloc, &maker, own(alloc)?)? == accusation.encode());
    assert!(rt; item(alloc, b"another's", own(alloc)?)? == [0; 34]);
    Ok(())
}
