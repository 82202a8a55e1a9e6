//! The slots of a round in their order: by stage, and in a stage by sender.

ghost use Rattle.std.specs.Prelude.{◌≡◌, ◌≤◌, ◌+◌, ◌*◌, IsTrue};
ghost use Rattle.phase_message.specs.Stages.{shape_of, is_slot};
ghost use Rattle.phase_message.specs.Slots.{place_in, senders_of, slot_number, slots_before};

use crate::shape::Shape;
use crate::stage::{Slot, StageKind, stage_kind};

/// How many slots a round has in the stages before this one: the place of its first slot among all,
/// from 0.
pub fn slots_before(shape: Shape, stage: u8) -> u32
    ensures value { result ≡ slots_before (shape_of shape) stage }
    ensures most { result ≤ 8 * stage }
{
    let mut slots = 0;
    for earlier in 0..stage {
        slots += senders(shape, earlier);
    }
    slots
}

/// The place of a slot among all slots of a round, from 0.
pub fn slot_number(shape: Shape, slot: Slot) -> u32
    requires slot { IsTrue (is_slot (shape_of shape) slot.stage slot.sender) }
    ensures { result ≡ slot_number (shape_of shape) slot.stage slot.sender }
{
    slots_before(shape, slot.stage) + place_in(stage_kind(shape, slot.stage), slot.sender)
}

// The place of a sender in its stage.
fn place_in(kind: Option<StageKind>, sender: u8) -> u32
    ensures value { result ≡ place_in kind sender }
    ensures most { result ≤ sender }
{
    match kind {
        Some(StageKind::Shuffle { .. }) => 0,
        _ => u32::from(sender.saturating_sub(1)),
    }
}

// How many members speak in a stage: none where the round does not have it.
fn senders(shape: Shape, stage: u8) -> u32
    ensures next { slots_before (shape_of shape) (stage + 1) ≡ slots_before (shape_of shape) stage + result }
    ensures most { result ≤ shape.members }
{
    match stage_kind(shape, stage) {
        None => 0,
        Some(kind) => senders_of_kind(shape, kind),
    }
}

fn senders_of_kind(shape: Shape, kind: StageKind) -> u32
    ensures value { result ≡ senders_of (shape_of shape) kind }
    ensures most { result ≤ shape.members }
{
    match kind {
        StageKind::Shuffle { .. } => 1,
        _ => u32::from(shape.members),
    }
}
