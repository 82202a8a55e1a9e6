//! The replay.

ghost use Rattle.std.specs.Prelude.{◌≡◌, ◌∷◌, [], Ok, Some, IsSome, IfOk, IfSome};
ghost use Rattle.wire_core.specs.Answers.{first_some};
ghost use Rattle.phase_message.specs.Stages.{kind_of_stage};
ghost use Rattle.stage_log.specs.Log.{before};
ghost use Rattle.phase_message.specs.Closing.{ClosesVotes};
ghost use Rattle.shuffle_blame.specs.Asked.{AreShown, inquiry_of};
ghost use Rattle.shuffle_blame.specs.Rules.{IsEnd, fault_shown, inquiry_at};
ghost use Rattle.shuffle_blame.specs.Replay.{culprit_of, seed_fault, submission_fault, turn_fault, view_fault};

use crate::ended::Ended;
use crate::fault::{Cause, Fault, Shown};
use crate::parts::Part;
use crate::seeds::{ready_parts, seed_fault};
use crate::submissions::{submission_fault, submissions};
use crate::turn::turn_fault;
use crate::votes::vote_fault;
use phase_message::{StageKind, stage_kind};
use stage_log::StageLog;
use std::alloc::Global;
use wire_core::Mem;

/// Whom a replay of the log blames at a closing stage, by what the members show there, by member: the first that there
/// is of
///
/// - `View`: the sender of the least slot before the stage whose content does not carry the view of its stage
/// - `OuterSeed`: the least member whose shown outer seed is not that of its outer key
/// - `Submission`: the least member with a layer of its submission that does not open by the shown outer seeds, or does
///   not carry the seed that the member's shown opening gives; the least such layer, from 1
/// - `Shuffle`: the least member that said Abort in its turn, or a list that is no permutation of the list before with a
///   layer off
/// - `FalseNoGo`: the least member that voted no in the stage before
///
/// `None` exactly where there is none of these. At the end of a shuffle each member shows its part. At CONFIRM nothing
/// that is shown is looked at, and `View` and `FalseNoGo` are all. All stages before the closing stage are complete; a
/// slot whose bytes spell no content counts as Abort. What `View` finds, out of memory does not hide.
pub fn replay(
    alloc: Global,
    log: &StageLog,
    stage: u8,
    round: u64,
    shown: &Vec<Shown>,
) -> Mem<Option<Fault>>
    requires closing { ClosesVotes log.now.shape stage }
    requires complete { IsSome (before log.now stage) }
    requires shown { AreShown log.now.shape (kind_of_stage log.now.shape stage) shown.now.items }
    ensures culprit { IfOk result (λ fault. fault ≡ culprit_of (inquiry_of log.now stage round shown.now.items)) }
    ensures view { IfSome (view_fault (inquiry_of log.now stage round shown.now.items)) (λ fault. result ≡ Ok (Some fault)) }
{
    if let Some(slot) = log.wrong_views(stage) {
        return Ok(Some(Fault {
            member: slot.sender,
            cause: Cause::View,
        }));
    }
    if let Some(fault) = fault_shown(alloc, log, stage, round, shown)? {
        return Ok(Some(fault));
    }
    vote_fault(alloc, log, stage)
}

// The first fault by what the members show. At CONFIRM there is none.
fn fault_shown(
    alloc: Global,
    log: &StageLog,
    stage: u8,
    round: u64,
    shown: &[Shown],
) -> Mem<Option<Fault>>
    requires complete { IsSome (before log.now stage) }
    requires shown { AreShown log.now.shape (kind_of_stage log.now.shape stage) shown.now }
    ensures { IfOk result (λ fault. fault
        ≡ fault_shown (kind_of_stage log.now.shape stage) (inquiry_of log.now stage round shown.now)) }
{
    match stage_kind(log.shape(), stage) {
        Some(StageKind::Final { shuffle }) => {
            let ended = Ended {
                shuffle,
                stage,
                round,
            };
            let parts = ready_parts(alloc, shown)?;
            shuffle_fault(alloc, log, ended, &parts)
        }
        _ => Ok(None),
    }
}

// The first fault of a shuffle's outer seeds, submissions and turns.
fn shuffle_fault(alloc: Global, log: &StageLog, ended: Ended, parts: &[Part]) -> Mem<Option<Fault>>
    requires { IsEnd log.now ended parts.now }
    ensures { IfOk result (λ fault. let q = inquiry_at log.now ended parts.now in
        fault ≡ first_some (seed_fault q ended.shuffle ∷ submission_fault q ended.shuffle ∷ turn_fault q ∷ [])) }
{
    if let Some(fault) = seed_fault(alloc, log, ended, parts)? {
        return Ok(Some(fault));
    }
    let said = submissions(alloc, log, ended)?;
    if let Some(fault) = submission_fault(alloc, log, ended, parts, &said)? {
        return Ok(Some(fault));
    }
    turn_fault(alloc, log, ended, parts, said)
}
