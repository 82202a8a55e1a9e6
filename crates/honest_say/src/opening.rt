//! What the last list of a shuffle opens to, and what its slots come to.

ghost use Rattle.std.specs.Prelude.{◌≡◌, ◌≤◌, ◌<◌, ◌+◌, All, IfOk, IfSome, IsSome, None, length, map, replicate, vec_len};
ghost use Rattle.std.specs.Option.{option_and_then, option_map};
ghost use Rattle.bulk_descriptor.specs.Descriptor.{descriptor_read};
ghost use Rattle.bulk_descriptor.specs.Fields.{description_of};
ghost use Rattle.stage_log.specs.Log.{before};
ghost use Rattle.go_nogo.specs.Stands.{StandAll};
ghost use Rattle.shuffle_blame.specs.Asked.{past_of};
ghost use Rattle.round_spec.specs.Slots.{descriptors_opened, final_stage, items_opened, pad_stage, pads_in, pads_sent, seeds_revealed};
ghost use Rattle.honest_say.specs.Rows.{IsPads};
ghost use Rattle.honest_say.specs.Opened.{AreSlotsSaid};

use crate::said::{list_said, said_in};
use bulk_descriptor::{Descriptor, PadTable, SlotState, decode};
use bulk_recovery::recover;
use phase_message::{Body, Slot};
use shuffle_core::open_final;
use stage_log::StageLog;
use std::alloc::Global;
use wire_core::{List, Mem};

/// What the last list of a shuffle opens to, by the inner seeds that the members revealed at its end, by member. The
/// stage is a later one, before which all are complete, and what the log holds is of the grammar and stands in its slots.
pub fn opened_items(
    alloc: Global,
    log: &StageLog,
    stage: u8,
    shuffle: u8,
    seeds: &Vec<[u8; 32]>,
) -> Mem<Vec<Option<List<u8>>>>
    requires first { 1 ≤ shuffle }
    requires last { shuffle ≤ 2 }
    requires complete { IsSome (before log.now stage) }
    requires later { final_stage log.now.shape shuffle < stage }
    requires stand { StandAll log.now }
    requires seeds { seeds.now.items ≡ seeds_revealed log.now.shape (past_of log.now stage) shuffle }
    ensures value { IfOk result (λ items. items.items ≡ items_opened log.now.shape (past_of log.now stage) shuffle) }
    ensures count { IfOk result (λ items. vec_len items ≡ log.now.shape.members) }
{
    let members = log.shape().members;
    match list_said(alloc, log, stage, shuffle, members)? {
        None => {
            let items = no_items(alloc, members)?;
            Ok(items)
        }
        Some(list) => {
            let items = open_final(alloc, seeds, &list)?;
            Ok(items)
        }
    }
}

// So many entries that did not open.
fn no_items(alloc: Global, members: u8) -> Mem<Vec<Option<List<u8>>>>
    ensures { IfOk result (λ items. items.items ≡ replicate members None) }
{
    let mut items = Vec::with_capacity(alloc, usize::from(members))?;
    for _ in 0..members {
        items.push(None)?;
    }
    Ok(items)
}

/// What the slots of the list of shuffle A hold, and what they come to.
#[derive(Drop)]
pub struct Slots {
    /// The descriptor of each slot that opened to one.
    pub descriptors: List<Option<Descriptor>>,
    /// The pads that were sent for them.
    pub pads: PadTable,
    /// The state of each slot.
    pub states: List<SlotState>,
}

/// The slots of the list of shuffle A, by what it opened to and the pads in the log. The stage is a later one, before
/// which all are complete, and what the log holds is of the grammar and stands in its slots.
pub fn slots_said(
    alloc: Global,
    log: &StageLog,
    stage: u8,
    opened: &Vec<Option<List<u8>>>,
) -> Mem<Slots>
    requires complete { IsSome (before log.now stage) }
    requires later { pad_stage log.now.shape < stage }
    requires stand { StandAll log.now }
    requires opened { opened.now.items ≡ items_opened log.now.shape (past_of log.now stage) 1 }
    requires count { vec_len opened.now ≡ log.now.shape.members }
    ensures { IfOk result (AreSlotsSaid log.now.shape (past_of log.now stage)) }
{
    let descriptors = descriptors_in(alloc, log.shape().members, opened)?;
    let pads = pads_said(alloc, log, stage)?;
    let states = recover(alloc, &descriptors, &pads)?;
    Ok(Slots {
        descriptors: List::of(descriptors),
        pads,
        states: List::of(states),
    })
}

// The descriptor of each entry that opened to one.
fn descriptors_in(
    alloc: Global,
    members: u8,
    opened: &Vec<Option<List<u8>>>,
) -> Mem<Vec<Option<Descriptor>>>
    ensures value { IfOk result (λ found. map (option_map description_of) found.items
        ≡ map (option_and_then (descriptor_read members)) opened.now.items) }
    ensures hashes { IfOk result (λ found. All (λ slot. IfSome slot (λ d. length d.pad_hashes ≡ members))
        (map (option_map description_of) found.items)) }
{
    let mut descriptors = Vec::with_capacity(alloc, opened.len())?;
    for entry in opened {
        let descriptor = descriptor_in(alloc, members, entry)?;
        descriptors.push(descriptor)?;
    }
    Ok(descriptors)
}

// The descriptor that an entry opened to, if it is one.
fn descriptor_in(alloc: Global, members: u8, entry: &Option<List<u8>>) -> Mem<Option<Descriptor>>
    ensures value { IfOk result (λ found. option_map description_of found ≡ option_and_then (descriptor_read members) entry.now) }
    ensures hashes { IfOk result (λ found. IfSome (option_map description_of found) (λ d. length d.pad_hashes ≡ members)) }
{
    match entry {
        None => Ok(None),
        Some(bytes) => decode(alloc, members, bytes.items()),
    }
}

// The pads that all members sent.
#[tactic(auto, unfolding(round_spec::specs::Slots::pads_sent))]
fn pads_said(alloc: Global, log: &StageLog, stage: u8) -> Mem<PadTable>
    requires complete { IsSome (before log.now stage) }
    requires later { pad_stage log.now.shape < stage }
    requires stand { StandAll log.now }
    ensures value { IfOk result (λ table. table.members ≡ pads_sent log.now.shape (past_of log.now stage)) }
    ensures counts { IfOk result (λ table. All (λ row. length row ≡ log.now.shape.members) table.members) }
{
    let members = log.shape().members;
    let mut rows = Vec::with_capacity(alloc, usize::from(members))?;
    for sender in 1..members + 1 {
        let slot = Slot {
            stage: members + 4,
            sender,
        };
        let body = said_in(alloc, log, stage, slot)?;
        let pads = pads_in(body);
        rows.push(pads)?;
    }
    Ok(PadTable {
        members: List::of(rows),
    })
}

// The pads that a body says.
fn pads_in(body: Body) -> List<List<u8>>
    requires { IsPads body }
    ensures { result ≡ pads_in body }
{
    match body {
        Body::Pads { pads } => pads,
        _ => unreachable!(),
    }
}
