//! The states of slots.

ghost use Rattle.std.specs.Prelude.{◌≡◌, ◌+◌, ◌<◌, ◌≤◌, [], length, map, slice_index_or, if◌then◌else◌, All, IfOk, IfSome, Some, None};
ghost use Rattle.std.specs.Option.{option_map};
ghost use Rattle.bulk_descriptor.specs.Descriptor.{fits};
ghost use Rattle.bulk_descriptor.specs.Fields.{description_of};
ghost use Rattle.bulk_descriptor.specs.SlotState.{first_unfit, joined_state, joined_pads, slot_state, slot_states, pads_for, AreSlots};

use crate::joining::joined_pads;
use bulk_descriptor::{Descriptor, PadTable, SlotState};
use std::alloc::Global;
use wire_core::{List, Mem};

/// The states of the slots of the opened list, by the descriptor of each slot that has one and the pads that the
/// members sent. For one N there are N descriptors or gaps, each descriptor is for N members, and the table has
/// the N pads of each of N members.
pub fn recover(
    alloc: Global,
    descriptors: &Vec<Option<Descriptor>>,
    pads: &PadTable,
) -> Mem<Vec<SlotState>>
    requires { AreSlots (map (option_map description_of) descriptors.now.items) pads.now.members }
    ensures { IfOk result (λ states. states.items ≡ slot_states (map (option_map description_of) descriptors.now.items) pads.now.members) }
{
    let mut states = Vec::with_capacity(alloc, descriptors.len())?;
    for (slot, descriptor) in descriptors.iter().enumerate() {
        states.push(state_of(alloc, descriptor, pads, slot)?)?;
    }
    Ok(states)
}

// The state of a slot, which counts from 0. Each member sent a pad for it, and its descriptor, if it has one, is
// for these members.
fn state_of(
    alloc: Global,
    descriptor: &Option<Descriptor>,
    pads: &PadTable,
    slot: usize,
) -> Mem<SlotState>
    requires members { IfSome (option_map description_of descriptor.now) (λ d. length d.pad_hashes ≡ length pads.now.members) }
    requires pads { All (λ row. slot < length row) pads.now.members }
    ensures { IfOk result (λ state. state ≡ slot_state (option_map description_of descriptor.now) (pads_for pads.now.members slot)) }
{
    let Some(descriptor) = descriptor else {
        return Ok(SlotState::Empty);
    };
    if let Some(first) = first_unfit(descriptor, pads, slot) {
        return Ok(SlotState::Bad { first });
    }
    let message = joined_pads(alloc, pads, slot, descriptor.length)?;
    if descriptor.has_hash_of(&message) {
        Ok(SlotState::Message(List::of(message)))
    } else {
        Ok(SlotState::Mismatched)
    }
}

// The least member whose pad for a slot does not fit its descriptor.
fn first_unfit(descriptor: &Descriptor, pads: &PadTable, slot: usize) -> Option<u8>
    requires members { length descriptor.now.pad_hashes ≡ length pads.now.members }
    requires pads { All (λ row. slot < length row) pads.now.members }
    ensures { result ≡ first_unfit (description_of descriptor.now) (pads_for pads.now.members slot) }
{
    for place in 0..pads.members.items().len() {
        if let Some(member) = unfit_at(descriptor, pads, slot, place) {
            return Some(member);
        }
    }
    None
}

// The member at a place of the table, if its pad for a slot does not fit its descriptor.
fn unfit_at(descriptor: &Descriptor, pads: &PadTable, slot: usize, place: usize) -> Option<u8>
    requires members { length descriptor.now.pad_hashes ≡ length pads.now.members }
    requires pads { All (λ row. slot < length row) pads.now.members }
    requires place { place < length pads.now.members }
    ensures { result ≡ (if fits (description_of descriptor.now) (place + 1) (slice_index_or (pads_for pads.now.members slot) place [])
        then None else Some (place + 1)) }
{
    let member = place as u8 + 1;
    if descriptor.fits(member, pad_of(pads, slot, place)) {
        return None;
    }
    Some(member)
}

// The pad for a slot of the member at a place of the table.
fn pad_of<'a>(pads: &'a PadTable, slot: usize, place: usize) -> &'a [u8]
    requires pads { All (λ row. slot < length row) pads.now.members }
    requires place { place < length pads.now.members }
    ensures { result.now ≡ slice_index_or (pads_for pads.now.members slot) place [] }
{
    pads.members.items()[place].items()[slot].items()
}
