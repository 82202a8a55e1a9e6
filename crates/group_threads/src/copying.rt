//! Copies of what a group is given and shows.

ghost use Rattle.std.specs.Prelude.{◌≡◌, IfOk};
ghost use Rattle.group_roster.specs.Given.{roster_of};

use bulk_descriptor::SlotState;
use group_roster::Roster;
use member_core::Config;
use std::alloc::Global;
use wire_core::{List, Mem};

/// A copy of a roster.
pub(crate) fn copied_roster(alloc: Global, roster: &Roster) -> Mem<Roster>
    ensures { IfOk result (λ copy. roster_of copy ≡ roster_of roster.now) }
{
    Ok(Roster {
        version: roster.version,
        keys: List::of(Vec::from_slice(alloc, roster.keys.items())?),
    })
}

/// A copy of what a member enters a round with.
pub(crate) fn copied_config(alloc: Global, config: &Config) -> Mem<Config>
    ensures roster { IfOk result (λ copy. roster_of copy.roster ≡ roster_of config.now.roster) }
    ensures number { IfOk result (λ copy. copy.number ≡ config.now.number) }
    ensures round { IfOk result (λ copy. copy.round ≡ config.now.round) }
    ensures fresh { IfOk result (λ copy. copy.fresh ≡ config.now.fresh) }
    ensures message { IfOk result (λ copy. copy.message ≡ config.now.message) }
{
    Ok(Config {
        roster: copied_roster(alloc, &config.roster)?,
        number: config.number,
        round: config.round,
        fresh: config.fresh,
        message: List::of(Vec::from_slice(alloc, config.message.items())?),
    })
}

/// A copy of slots.
pub(crate) fn copied_slots(alloc: Global, slots: &Vec<SlotState>) -> Mem<Vec<SlotState>>
    ensures { IfOk result (λ copies. copies.items ≡ slots.now.items) }
{
    let mut copies = Vec::with_capacity(alloc, slots.len())?;
    for slot in slots {
        let copy = copied_slot(alloc, slot)?;
        copies.push(copy)?;
    }
    Ok(copies)
}

fn copied_slot(alloc: Global, slot: &SlotState) -> Mem<SlotState>
    ensures { IfOk result (λ copy. copy ≡ slot.now) }
{
    match slot {
        SlotState::Empty => Ok(SlotState::Empty),
        SlotState::Bad { first } => Ok(SlotState::Bad { first: *first }),
        SlotState::Mismatched => Ok(SlotState::Mismatched),
        SlotState::Message(bytes) => {
            let copy = Vec::from_slice(alloc, bytes.items())?;
            Ok(SlotState::Message(List::of(copy)))
        }
    }
}
