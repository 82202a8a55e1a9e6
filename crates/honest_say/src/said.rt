//! What was said in the slots of a log.

ghost use Rattle.std.specs.Prelude.{◌≡◌, ◌<◌, ◌≤◌, ◌+◌, ◌^◌, All, IfOk, IfSome, IsSome, IsTrue, length};
ghost use Rattle.std.specs.Option.{option_map};
ghost use Rattle.phase_message.specs.Stages.{is_slot, shape_of};
ghost use Rattle.stage_log.specs.Log.{before};
ghost use Rattle.shuffle_blame.specs.Replay.{ciphertext_of, list_of};
ghost use Rattle.shuffle_blame.specs.Rules.{IsShort, body_kept};
ghost use Rattle.round_spec.specs.Slots.{final_stage, list_said, said_in, submissions_said, submit_stage};
ghost use Rattle.shuffle_blame.specs.Asked.{past_of};

use phase_message::{Body, Content, DecodeRefusal, Shape, Slot, decode};
use stage_log::StageLog;
use std::alloc::{AllocError, Global};
use wire_core::{List, Mem};

// The stage of a shuffle's submissions.
pub(crate) fn submit_stage(shape: Shape, shuffle: u8) -> u8
    ensures value { result ≡ submit_stage (shape_of shape) shuffle }
    ensures most { result ≤ shape.members + 7 }
{
    if shuffle == 1 { 1 } else { shape.members + 7 }
}

// The stage of a shuffle's end.
pub(crate) fn final_stage(shape: Shape, shuffle: u8) -> u8
    ensures { result ≡ final_stage (shape_of shape) shuffle }
{
    submit_stage(shape, shuffle) + (shape.members + 2)
}

// What is kept in a slot: Abort where nothing is kept or no content is spelled.
fn body_kept(alloc: Global, log: &StageLog, slot: Slot) -> Mem<Body>
    ensures value { IfOk result (λ body. body ≡ body_kept log.now slot) }
    ensures short { IfOk result IsShort }
{
    let Some(post) = log.kept(slot) else {
        return Ok(Body::Abort);
    };
    match decode(alloc, log.shape(), post.content.items()) {
        Ok(content) => {
            let Content { header: _, body } = content;
            Ok(body)
        }
        Err(DecodeRefusal::Malformed { .. }) => Ok(Body::Abort),
        Err(DecodeRefusal::Memory) => Err(AllocError),
    }
}

// What was said in a slot of a stage before one.
pub(crate) fn said_in(alloc: Global, log: &StageLog, stage: u8, slot: Slot) -> Mem<Body>
    requires complete { IsSome (before log.now stage) }
    requires slot { IsTrue (is_slot log.now.shape slot.stage slot.sender) }
    requires earlier { slot.stage < stage }
    ensures value { IfOk result (λ body. body ≡ said_in log.now.shape (past_of log.now stage) slot.stage slot.sender) }
    ensures short { IfOk result IsShort }
{
    prove!(slot.stage < stage);
    let body = body_kept(alloc, log, slot)?;
    Ok(body)
}

// What a member submitted to a shuffle, before a stage.
fn submission_said(alloc: Global, log: &StageLog, stage: u8, slot: Slot) -> Mem<List<u8>>
    requires complete { IsSome (before log.now stage) }
    requires slot { IsTrue (is_slot log.now.shape slot.stage slot.sender) }
    requires earlier { slot.stage < stage }
    ensures value { IfOk result (λ bytes. bytes ≡ ciphertext_of (said_in log.now.shape (past_of log.now stage) slot.stage slot.sender)) }
    ensures short { IfOk result (λ bytes. length bytes < 2 ^ 32) }
{
    match said_in(alloc, log, stage, slot)? {
        Body::Submit { ciphertext } => Ok(ciphertext),
        _ => Ok(List::of(Vec::new(alloc))),
    }
}

// The list of a turn before a stage, unless it said Abort.
fn turn_said(alloc: Global, log: &StageLog, stage: u8, slot: Slot) -> Mem<Option<Vec<List<u8>>>>
    requires complete { IsSome (before log.now stage) }
    requires slot { IsTrue (is_slot log.now.shape slot.stage slot.sender) }
    requires earlier { slot.stage < stage }
    ensures value { IfOk result (λ list. option_map (λ v. v.items) list
        ≡ list_of (said_in log.now.shape (past_of log.now stage) slot.stage slot.sender)) }
    ensures short { IfOk result (λ list. IfSome list (λ v. All (λ entry. length entry < 2 ^ 32) v.items)) }
{
    match said_in(alloc, log, stage, slot)? {
        Body::Shuffled { list } => Ok(Some(list.into_items())),
        _ => Ok(None),
    }
}

// What all members submitted to a shuffle, before a stage.
fn submissions_said(alloc: Global, log: &StageLog, stage: u8, shuffle: u8) -> Mem<Vec<List<u8>>>
    requires first { 1 ≤ shuffle }
    requires last { shuffle ≤ 2 }
    requires complete { IsSome (before log.now stage) }
    requires earlier { submit_stage log.now.shape shuffle < stage }
    ensures value { IfOk result (λ list. list.items ≡ submissions_said log.now.shape (past_of log.now stage) shuffle) }
    ensures short { IfOk result (λ list. All (λ entry. length entry < 2 ^ 32) list.items) }
{
    let shape = log.shape();
    let submit = submit_stage(shape, shuffle);
    let mut list = Vec::with_capacity(alloc, usize::from(shape.members))?;
    for sender in 1..shape.members + 1 {
        let slot = Slot {
            stage: submit,
            sender,
        };
        let bytes = submission_said(alloc, log, stage, slot)?;
        list.push(bytes)?;
    }
    Ok(list)
}

// The list after so many turns of a shuffle, unless the last of them said Abort, before a stage.
pub(crate) fn list_said(
    alloc: Global,
    log: &StageLog,
    stage: u8,
    shuffle: u8,
    turn: u8,
) -> Mem<Option<Vec<List<u8>>>>
    requires first { 1 ≤ shuffle }
    requires last { shuffle ≤ 2 }
    requires turn { turn ≤ log.now.shape.members }
    requires complete { IsSome (before log.now stage) }
    requires earlier { submit_stage log.now.shape shuffle + turn < stage }
    ensures value { IfOk result (λ list. option_map (λ v. v.items) list
        ≡ list_said log.now.shape (past_of log.now stage) shuffle turn) }
    ensures short { IfOk result (λ list. IfSome list (λ v. All (λ entry. length entry < 2 ^ 32) v.items)) }
{
    if turn == 0 {
        let list = submissions_said(alloc, log, stage, shuffle)?;
        return Ok(Some(list));
    }
    let shape = log.shape();
    let slot = Slot {
        stage: submit_stage(shape, shuffle) + turn,
        sender: turn,
    };
    let said = turn_said(alloc, log, stage, slot)?;
    Ok(said)
}
