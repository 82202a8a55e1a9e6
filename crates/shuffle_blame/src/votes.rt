//! The rule of votes.

ghost use Rattle.std.specs.Prelude.{◌≡◌, [], IsSome, IfOk};
ghost use Rattle.stage_log.specs.Log.{before};
ghost use Rattle.phase_message.specs.Closing.{ClosesVotes};
ghost use Rattle.shuffle_blame.specs.Asked.{inquiry_of};
ghost use Rattle.shuffle_blame.specs.Replay.{vote_fault};

use crate::fault::{Cause, Fault};
use crate::said::is_yes;
use phase_message::Slot;
use stage_log::StageLog;
use std::alloc::Global;
use wire_core::Mem;

// The least member that voted no in the stage before.
pub(crate) fn vote_fault(alloc: Global, log: &StageLog, stage: u8) -> Mem<Option<Fault>>
    requires closing { ClosesVotes log.now.shape stage }
    requires complete { IsSome (before log.now stage) }
    ensures { IfOk result (λ fault. fault ≡ vote_fault (inquiry_of log.now stage 0 [])) }
{
    let shape = log.shape();
    for member in 1..shape.members + 1 {
        let slot = Slot {
            stage: stage - 1,
            sender: member,
        };
        let yes = is_yes(alloc, log, slot)?;
        if !yes {
            return Ok(Some(Fault {
                member,
                cause: Cause::FalseNoGo,
            }));
        }
    }
    Ok(None)
}
