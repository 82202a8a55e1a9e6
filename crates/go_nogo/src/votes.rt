//! Votes, and when they are unanimous.

ghost use Rattle.std.specs.Prelude.{◌≡◌, ◌↔◌, ◌<◌, ◌^◌, ◌+◌, length, IsTrue, IsSome, IfOk, Some};
ghost use Rattle.std.specs.List.{list_all};
ghost use Rattle.phase_message.specs.Stages.{shape_of};
ghost use Rattle.stage_log.specs.Table.{is_complete};
ghost use Rattle.go_nogo.specs.Votes.{AreUnanimous, body_vote, is_unanimous, is_yes_with, vote_of};
ghost use Rattle.go_nogo.specs.Stands.{IsVoteStage, StandAt, kept_vote, log_votes};

use phase_message::{Body, Content, DecodeRefusal, Shape, Slot, decode};
use stage_log::StageLog;
use std::alloc::{AllocError, Global};
use wire_core::Mem;

/// What a member says at a stage of votes.
#[derive(Clone, Copy, Debug, PartialEq, Eq)]
pub struct Vote {
    /// Whether all went right, as far as the member saw.
    pub yes: bool,
    /// The view that its header carries: a hash of all that the member kept of earlier stages.
    pub view: [u8; 32],
}

/// Whether all votes say yes and carry one view; of no votes it is true. It takes no memory.
pub fn unanimous(votes: &Vec<Vote>) -> bool
    ensures value { result ≡ is_unanimous votes.now.items }
    ensures all { IsTrue result ↔ AreUnanimous votes.now.items }
{
    match votes.first() {
        None => true,
        Some(first) => all_agree(votes, &first.view),
    }
}

// Whether all votes say yes and carry this view.
fn all_agree(votes: &[Vote], view: &[u8; 32]) -> bool
    ensures { result ≡ list_all (is_yes_with view.now) votes.now }
{
    votes.iter().all(|vote| agrees(vote, view))
}

// Whether a vote says yes and carries this view.
fn agrees(vote: &Vote, view: &[u8; 32]) -> bool
    ensures { result ≡ is_yes_with view.now vote.now }
{
    vote.yes && vote.view == *view
}

/// The votes that a log keeps of a stage, by sender. The stage has votes and is complete, and what the log keeps of it
/// is of the grammar and stands in its slots.
pub fn votes_of(alloc: Global, log: &StageLog, stage: u8) -> Mem<Vec<Vote>>
    requires votes { IsVoteStage log.now.shape stage }
    requires complete { IsTrue (is_complete log.now stage) }
    requires stand { StandAt log.now stage }
    ensures { IfOk result (λ votes. log_votes log.now stage ≡ Some votes.items) }
{
    let shape = log.shape();
    let mut votes = Vec::with_capacity(alloc, shape.members as usize)?;
    for place in 0..shape.members {
        let slot = Slot {
            stage,
            sender: place + 1,
        };
        let vote = vote_in(alloc, log, slot)?;
        votes.push(vote)?;
    }
    Ok(votes)
}

// The vote that a log keeps in a slot.
fn vote_in(alloc: Global, log: &StageLog, slot: Slot) -> Mem<Vote>
    requires { IsSome (kept_vote log.now slot) }
    ensures { IfOk result (λ vote. kept_vote log.now slot ≡ Some vote) }
{
    let Some(post) = log.kept(slot) else {
        unreachable!()
    };
    read_vote(alloc, log.shape(), post.content.items())
}

// The vote that bytes spell.
fn read_vote(alloc: Global, shape: Shape, content: &[u8]) -> Mem<Vote>
    requires short { length content.now < 2 ^ 32 }
    requires vote { IsSome (vote_of (shape_of shape) content.now) }
    ensures { IfOk result (λ vote. vote_of (shape_of shape) content.now ≡ Some vote) }
{
    match decode(alloc, shape, content) {
        Ok(content) => Ok(vote_said(&content)),
        Err(DecodeRefusal::Memory) => Err(AllocError),
        Err(DecodeRefusal::Malformed { .. }) => unreachable!(),
    }
}

// The vote that a content says.
fn vote_said(content: &Content) -> Vote
    requires { IsSome (body_vote content.now.header.view content.now.body) }
    ensures { body_vote content.now.header.view content.now.body ≡ Some result }
{
    let view = content.header.view;
    match &content.body {
        Body::Go { yes } => Vote { yes: *yes, view },
        Body::Check { yes } => Vote { yes: *yes, view },
        _ => unreachable!(),
    }
}
