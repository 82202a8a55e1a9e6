//! A round of two members, logs of it that are whole up to a stage, and the contents that are put there.

ghost use Rattle.std.specs.Prelude.{◌≡◌, ◌<◌, ℕ, IsTrue, true};
ghost use Rattle.stage_log.specs.Table.{is_complete};

use stage_log::{Shape, Slot, StageLog};
use std::alloc::Global;
use wire_core::{Mem, put_bytes};

// A round of two members.
pub const TWO: Shape = Shape {
    version: 1,
    members: 2,
};

// Whether a log has all posts before a stage.
pub fn is_whole(log: &StageLog, stage: u8) -> bool
    ensures { IsTrue result → (earlier : ℕ) → earlier < stage → is_complete log.now earlier ≡ true }
{
    for earlier in 0..stage {
        if !log.complete(earlier) {
            return false;
        }
    }
    true
}

// The parts, one behind the other.
pub fn joined(alloc: Global, parts: &[&[u8]]) -> Mem<Vec<u8>> {
    let mut bytes = Vec::new(alloc);
    for part in parts {
        put_bytes(&mut bytes, part)?;
    }
    Ok(bytes)
}

// What a member of the group says: a header that carries a view, and what stands behind it.
pub fn content(
    alloc: Global,
    round: u64,
    slot: Slot,
    view: &[u8; 32],
    body: &[u8],
) -> Mem<Vec<u8>> {
    joined(
        alloc,
        &[
            &[1],
            &[2; 32],
            &round.to_be_bytes(),
            &[slot.stage, slot.sender],
            view,
            body,
        ],
    )
}
