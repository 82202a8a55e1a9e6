//! The stages of a round, and who speaks in each.

ghost use Rattle.std.specs.Prelude.{◌≡◌, ◌<◌, ◌≤◌, ◌+◌, ◌*◌, ◌↔◌, IsNone, IsSome};
ghost use Rattle.phase_message.specs.Stages.{shape_of, kind_of_stage, is_slot};

use crate::shape::Shape;

/// What a stage is for. Shuffle A is number 1 and shuffle B number 2.
#[derive(Clone, Copy, Debug, PartialEq, Eq)]
pub enum StageKind {
    /// Each member says its five public keys.
    Keys,
    /// Each member says its wrapped item.
    Submit { shuffle: u8 },
    /// Member k strips a layer of each item and says them in an order of its own.
    Shuffle { shuffle: u8, k: u8 },
    /// Each member votes whether the shuffle went right.
    Go { shuffle: u8 },
    /// Each member reveals its inner secret, or all that it saw.
    Final { shuffle: u8 },
    /// Each member says its pads of the messages.
    Pad,
    /// Each member votes whether it saw what the others saw.
    Check,
    /// Each member says the votes, or all that it saw.
    Confirm,
}

/// A stage with one of its senders.
#[derive(Clone, Copy, Debug, PartialEq, Eq)]
pub struct Slot {
    /// From 0.
    pub stage: u8,
    /// A member's number, from 1.
    pub sender: u8,
}

/// What a stage is in a round of N members: `None` exactly where the number is 2N + 10 or more.
pub fn stage_kind(shape: Shape, stage: u8) -> Option<StageKind>
    ensures kind { result ≡ kind_of_stage (shape_of shape) stage }
    ensures none { IsNone result ↔ (2 * shape.members + 10 ≤ stage) }
{
    let n = shape.members;
    if stage < n + 7 {
        return first_half(shape, stage);
    }
    let from_b = stage - (n + 7);
    if from_b == 0 {
        Some(StageKind::Submit { shuffle: 2 })
    } else if from_b <= n {
        Some(StageKind::Shuffle {
            shuffle: 2,
            k: from_b,
        })
    } else if from_b == n + 1 {
        Some(StageKind::Go { shuffle: 2 })
    } else if from_b == n + 2 {
        Some(StageKind::Final { shuffle: 2 })
    } else {
        None
    }
}

// The stages before those of shuffle B.
fn first_half(shape: Shape, stage: u8) -> Option<StageKind>
    requires before_b { stage < shape.members + 7 }
    ensures kind { result ≡ kind_of_stage (shape_of shape) stage }
    ensures some { IsSome result }
{
    let n = shape.members;
    if stage == 0 {
        return Some(StageKind::Keys);
    }
    if stage == 1 {
        return Some(StageKind::Submit { shuffle: 1 });
    }
    if stage <= n + 1 {
        return Some(StageKind::Shuffle {
            shuffle: 1,
            k: stage - 1,
        });
    }
    let from_go = stage - (n + 2);
    match from_go {
        0 => Some(StageKind::Go { shuffle: 1 }),
        1 => Some(StageKind::Final { shuffle: 1 }),
        2 => Some(StageKind::Pad),
        3 => Some(StageKind::Check),
        _ => Some(StageKind::Confirm),
    }
}

/// Whether a stage and a member are a slot of a round: the round has the stage, and the member
/// speaks in it. At its turn of a shuffle one member speaks, else all members 1 to N.
pub fn is_slot(shape: Shape, slot: Slot) -> bool
    ensures { result ≡ is_slot (shape_of shape) slot.stage slot.sender }
{
    match stage_kind(shape, slot.stage) {
        None => false,
        Some(StageKind::Shuffle { k, .. }) => slot.sender == k,
        Some(_) => 1 <= slot.sender && slot.sender <= shape.members,
    }
}
