//! The rows of votes.

ghost use Rattle.std.specs.Prelude.{◌≡◌, ◌≤◌, ◌-◌, IfOk, IsSome, is_none};
ghost use Rattle.std.specs.List.{list_any};
ghost use Rattle.std.specs.Str.{bytes_eq};
ghost use Rattle.phase_message.specs.Stages.{kind_of_stage};
ghost use Rattle.stage_log.specs.Log.{before};
ghost use Rattle.go_nogo.specs.Rows.{all_right, check_row, go_row, lists_before, stands_last};
ghost use Rattle.go_nogo.specs.Stands.{StandAll};
ghost use Rattle.round_spec.specs.Slots.{final_stage};
ghost use Rattle.honest_say.specs.Rows.{IsTurn};
ghost use Rattle.shuffle_blame.specs.Asked.{past_of};
ghost use Rattle.shuffle_blame.specs.Replay.{list_of};
ghost use Rattle.shuffle_blame.specs.Rules.{body_kept};

use crate::said::{final_stage, list_said, submit_stage};
use phase_message::{Body, Slot};
use stage_log::StageLog;
use std::alloc::Global;
use wire_core::{List, Mem};

/// The vote on a shuffle: yes exactly where every slot before carries the view of its stage, as the member has seen, no
/// turn said Abort, and the member's inner ciphertext stands in the last list. All stages before are complete in the log,
/// and what it holds is of the grammar and stands in its slots.
#[tactic(auto, unfolding(go_nogo::specs::Rows::go_row))]
pub fn go_body(
    alloc: Global,
    log: &StageLog,
    shuffle: u8,
    right: bool,
    inner_ciphertext: &[u8],
) -> Mem<Body>
    requires first { 1 ≤ shuffle }
    requires last { shuffle ≤ 2 }
    requires complete { IsSome (before log.now (final_stage log.now.shape shuffle - 1)) }
    requires stand { StandAll log.now }
    requires right { right ≡ all_right log.now.shape (past_of log.now (final_stage log.now.shape shuffle - 1)) (final_stage log.now.shape shuffle - 1) }
    ensures { IfOk result (λ body. body ≡ go_row log.now.shape (past_of log.now (final_stage log.now.shape shuffle - 1))
        (final_stage log.now.shape shuffle - 1) inner_ciphertext.now) }
{
    let stands = stands_last(alloc, log, shuffle, inner_ciphertext)?;
    Ok(Body::Go {
        yes: right && stands,
    })
}

// Whether no turn of a shuffle said Abort, and an entry stands in the last list.
fn stands_last(alloc: Global, log: &StageLog, shuffle: u8, entry: &[u8]) -> Mem<bool>
    requires first { 1 ≤ shuffle }
    requires last { shuffle ≤ 2 }
    requires complete { IsSome (before log.now (final_stage log.now.shape shuffle - 1)) }
    requires stand { StandAll log.now }
    ensures { IfOk result (λ stands. stands ≡ stands_last log.now.shape entry.now
        (lists_before log.now.shape (past_of log.now (final_stage log.now.shape shuffle - 1)) (final_stage log.now.shape shuffle - 1))) }
{
    if has_abort(log, shuffle) {
        return Ok(false);
    }
    let shape = log.shape();
    let stage = final_stage(shape, shuffle) - 1;
    match list_said(alloc, log, stage, shuffle, shape.members)? {
        None => Ok(false),
        Some(list) => Ok(is_among(&list, entry)),
    }
}

// Whether a turn of a shuffle said Abort.
fn has_abort(log: &StageLog, shuffle: u8) -> bool
    requires first { 1 ≤ shuffle }
    requires last { shuffle ≤ 2 }
    requires complete { IsSome (before log.now (final_stage log.now.shape shuffle - 1)) }
    requires stand { StandAll log.now }
    ensures { result ≡ is_none (lists_before log.now.shape (past_of log.now (final_stage log.now.shape shuffle - 1)) (final_stage log.now.shape shuffle - 1)) }
{
    let shape = log.shape();
    for turn in 1..shape.members + 1 {
        let slot = Slot {
            stage: submit_stage(shape, shuffle) + turn,
            sender: turn,
        };
        if is_abort(log, slot) {
            return true;
        }
    }
    false
}

// Whether what is kept in a slot is Abort, by its kind.
fn is_abort(log: &StageLog, slot: Slot) -> bool
    requires stand { StandAll log.now }
    requires turn { IsTurn (kind_of_stage log.now.shape slot.stage) }
    ensures { result ≡ is_none (list_of (body_kept log.now slot)) }
{
    match log.kept(slot) {
        None => true,
        Some(post) => post.content.items()[75] == 4,
    }
}

// Whether an entry stands in a list.
fn is_among(list: &[List<u8>], entry: &[u8]) -> bool
    ensures { result ≡ list_any (bytes_eq entry.now) list.now }
{
    list.iter().any(|other| entry == other.items().as_slice())
}

/// The vote on what was seen: yes exactly where every slot before carries the view of its stage. It takes no memory.
#[tactic(auto, unfolding(go_nogo::specs::Rows::check_row))]
pub fn check_body(log: &StageLog, stage: u8, right: bool) -> Body
    requires right { right ≡ all_right log.now.shape (past_of log.now stage) stage }
    ensures { result ≡ check_row log.now.shape (past_of log.now stage) stage }
{
    Body::Check { yes: right }
}
