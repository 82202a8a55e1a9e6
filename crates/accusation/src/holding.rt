//! Whether an accusation holds.

ghost use Rattle.std.specs.Prelude.{◌≡◌, ◌≤◌, ◌↔◌, length, map, not, vec_len, IsTrue};
ghost use Rattle.std.specs.Option.{option_map};
ghost use Rattle.std.specs.Str.{bytes_eq};
ghost use Rattle.wire_core.specs.Answers.{value_unless};
ghost use Rattle.bulk_descriptor.specs.Descriptor.{hash_of_pad, pad_hash_for};
ghost use Rattle.bulk_descriptor.specs.Fields.{description_of};
ghost use Rattle.bulk_descriptor.specs.SlotState.{AreSlots};
ghost use Rattle.accusation.specs.Accusation.{refusal_of, seed_refusal};

use bulk_descriptor::{Descriptor, PadTable};
use pad_stream::{is_pad, pad_hash};
use ring_encrypt::{Capsule, PublicKey, seal_seed};
use transcript_form::Accusation;

/// Why an accusation does not hold.
#[derive(Clone, Copy, Debug, PartialEq, Eq)]
pub enum AccusationRefusal {
    /// The slot is none of the list, or holds no descriptor.
    Slot,
    /// The accused is no member.
    Member,
    /// The descriptor's capsule for the accused is not that of the seed under its key.
    Capsule,
    /// The pad of the seed lacks the hash that the descriptor gives for the accused.
    PadHash,
    /// The accused sent the pad of the seed.
    PadSent,
}

/// Whether an accusation holds against the descriptors of the slots, the pads that were sent and the keys under which
/// seeds were sealed: the first reason why it does not, in the order of the variants. There are as many slots,
/// members and keys, each member sent a pad for each slot, and each descriptor is for these members.
pub fn holds(
    accusation: &Accusation,
    descriptors: &Vec<Option<Descriptor>>,
    pads: &PadTable,
    keys: &Vec<PublicKey>,
) -> Result<(), AccusationRefusal>
    requires slots { AreSlots (map (option_map description_of) descriptors.now.items) pads.now.members }
    requires keys { vec_len keys.now ≡ vec_len descriptors.now }
    ensures { result ≡ value_unless (refusal_of accusation.now (map (option_map description_of) descriptors.now.items) pads.now.members keys.now.items) tt }
{
    if !is_within(accusation.slot, keys.len()) {
        return Err(AccusationRefusal::Slot);
    }
    let slot = accusation.slot as usize - 1;
    let Some(descriptor) = &descriptors[slot] else {
        return Err(AccusationRefusal::Slot);
    };
    if !is_within(accusation.member, keys.len()) {
        return Err(AccusationRefusal::Member);
    }
    let member = accusation.member as usize - 1;
    let sent = pads.members.items()[member].items()[slot].items();
    check_seed(descriptor, accusation, &keys[member], sent)
}

// Whether a number is one from 1 to n.
fn is_within(number: u8, n: usize) -> bool
    ensures { IsTrue result ↔ ((1 ≤ number) × (number ≤ n)) }
{
    1 <= number && number as usize <= n
}

// Whether the seed of an accusation was sealed for the accused, and tells a pad that it did not send.
fn check_seed(
    descriptor: &Descriptor,
    accusation: &Accusation,
    key: &PublicKey,
    sent: &[u8],
) -> Result<(), AccusationRefusal>
    requires first { 1 ≤ accusation.now.member }
    requires last { accusation.now.member ≤ length descriptor.now.pad_hashes }
    ensures { result ≡ value_unless (seed_refusal (description_of descriptor.now) accusation.now.member accusation.now.seed key.now sent.now) tt }
{
    let place = accusation.member as usize - 1;
    if !is_same(
        &descriptor.capsules.items()[place],
        &seal_seed(key, &accusation.seed),
    ) {
        return Err(AccusationRefusal::Capsule);
    }
    if !is_hash(
        &descriptor.pad_hashes.items()[place],
        &pad_hash(&accusation.seed, descriptor.length),
    ) {
        return Err(AccusationRefusal::PadHash);
    }
    if is_pad(&accusation.seed, sent, descriptor.length) {
        return Err(AccusationRefusal::PadSent);
    }
    Ok(())
}

// Whether two capsules are one.
fn is_same(one: &Capsule, other: &Capsule) -> bool
    ensures { result ≡ bytes_eq one.now other.now }
{
    one.bytes() == other.bytes()
}

// Whether the hash that a descriptor gives is that of a pad.
fn is_hash(given: &[u8; 32], hash: &[u8; 32]) -> bool
    ensures { result ≡ bytes_eq hash.now given.now }
{
    hash == given
}
