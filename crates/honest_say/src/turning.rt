//! The row of turns.

ghost use Rattle.std.specs.Prelude.{◌≡◌, ◌≤◌, ◌+◌, IfOk, IsSome};
ghost use Rattle.phase_message.specs.Stages.{shape_of};
ghost use Rattle.stage_log.specs.Log.{before};
ghost use Rattle.round_spec.specs.Slots.{submit_stage};
ghost use Rattle.round_spec.specs.Say.{Configuration, turn_row};
ghost use Rattle.honest_say.specs.Own.{AreShuffleSecrets};
ghost use Rattle.shuffle_blame.specs.Asked.{past_of};
ghost use Rattle.honest_say.specs.Seats.{IsSeatOf};

use crate::said::{list_said, submit_stage};
use crate::seat::Seat;
use crate::secrets::ShuffleSecrets;
use phase_message::Body;
use shuffle_core::anonymize;
use stage_log::StageLog;
use std::alloc::Global;
use wire_core::Mem;

/// The member's turn of a shuffle: the list of the turn before with a layer off, in the drawn order, or Abort. All
/// stages before the turn are complete in the log.
pub fn turn_body(
    alloc: Global,
    seat: &Seat,
    log: &StageLog,
    secrets: &ShuffleSecrets,
    shuffle: u8,
) -> Mem<Body>
    requires shape { log.now.shape ≡ shape_of seat.now.shape }
    requires first { 1 ≤ shuffle }
    requires last { shuffle ≤ 2 }
    requires complete { IsSome (before log.now (submit_stage log.now.shape shuffle + seat.now.number)) }
    ensures { IfOk result (λ body. (c : Configuration) → IsSeatOf c seat.now → AreShuffleSecrets c shuffle secrets.now →
        body ≡ turn_row c (past_of log.now (submit_stage log.now.shape shuffle + seat.now.number)) shuffle) }
{
    let stage = submit_stage(seat.shape, shuffle) + seat.number;
    match list_said(alloc, log, stage, shuffle, seat.number - 1)? {
        None => Ok(Body::Abort),
        Some(list) => {
            let body = anonymize(alloc, &secrets.outer, &secrets.order_seed, &list)?;
            Ok(body)
        }
    }
}
