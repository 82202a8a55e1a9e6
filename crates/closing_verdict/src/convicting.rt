//! Transcripts that convict a member.

ghost use Rattle.std.specs.Prelude.{◌≡◌, ◌∷◌, ◌++◌, [], ◌<◌, ◌≤◌, ◌^◌, ◌+◌, ◌*◌, IfOk, IsSome, IsTrue, None, Some, length, map, take};
ghost use Rattle.std.specs.Option.{option_map};
ghost use Rattle.phase_message.specs.Post.{post_spelling};
ghost use Rattle.stage_log.specs.Log.{before};
ghost use Rattle.stage_log.specs.Table.{IsLog, IsKept, kept_in};
ghost use Rattle.honest_say.specs.Pasts.{posts_before};
ghost use Rattle.round_spec.specs.Verdict.{conviction};
ghost use Rattle.closing_verdict.specs.Convicting.{TellsConviction};

use crate::judging::Closing;
use phase_message::{Post, Slot};
use signed_post::write;
use stage_log::StageLog;
use std::alloc::Global;
use transcript_form::{Accusation, Claim, Transcript, write_transcript};
use wire_core::{List, Mem};

/// A transcript that convicts a member.
#[derive(Drop)]
pub struct Conviction {
    /// The member's number, from 1.
    pub accused: u8,
    pub claim: Claim,
    /// The bytes of the transcript.
    pub transcript: List<u8>,
}

// A claim against a member in a round.
#[derive(Clone, Copy)]
pub(crate) struct Charge {
    pub(crate) claim: Claim,
    pub(crate) accused: u8,
    pub(crate) round: u64,
    // Of a pad alone.
    pub(crate) detail: Option<Accusation>,
}

impl Charge {
    ghost use Rattle.closing_verdict.specs.Convicting.{IsCharge, IsConvictionBy, transcript_of};

    // A claim that has no accusation of a pad.
    pub(crate) fn of(claim: Claim, accused: u8, round: u64) -> Charge
        ensures { result ≡ (record { claim = claim; accused = accused; round = round; detail = None }) }
    {
        Charge {
            claim,
            accused,
            round,
            detail: None,
        }
    }

    // What these posts show.
    pub(crate) fn shown_by(self, alloc: Global, posts: Vec<List<u8>>) -> Mem<Conviction>
        requires { IsCharge self posts.items }
        ensures { IfOk result (IsConvictionBy (transcript_of self posts.items)) }
    {
        let listed = Transcript {
            claim: self.claim,
            accused: self.accused,
            round: self.round,
            detail: self.detail,
            posts: List::of(posts),
        };
        let bytes = write_transcript(alloc, &listed)?;
        Ok(Conviction {
            accused: self.accused,
            claim: self.claim,
            transcript: List::of(bytes),
        })
    }
}

/// What a post of fewer than 2^32 bytes shows whose body is outside the grammar: `Malformed`, with this post.
pub fn malformed(alloc: Global, accused: u8, round: u64, bytes: &[u8]) -> Mem<Conviction>
    requires least { 1 ≤ accused }
    requires most { accused ≤ 8 }
    requires short { length bytes.now < 2 ^ 32 }
    ensures { IfOk result (TellsConviction (conviction round accused Claim.Malformed (bytes.now ∷ []))) }
{
    let mut posts = Vec::with_capacity(alloc, 1)?;
    posts.push(copied(alloc, bytes)?)?;
    Charge::of(Claim::Malformed, accused, round).shown_by(alloc, posts)
}

/// What two posts of one slot show whose contents differ, each of fewer than 2^32 bytes: `Equivocation`, with the one
/// that was kept first, and then the other.
pub fn contradicted(
    alloc: Global,
    accused: u8,
    round: u64,
    kept: &Post,
    other: &[u8],
) -> Mem<Conviction>
    requires least { 1 ≤ accused }
    requires most { accused ≤ 8 }
    requires kept { length (post_spelling kept.now) < 2 ^ 32 }
    requires short { length other.now < 2 ^ 32 }
    ensures { IfOk result (TellsConviction (conviction round accused Claim.Equivocation (post_spelling kept.now ∷ other.now ∷ []))) }
{
    let mut posts = Vec::with_capacity(alloc, 2)?;
    posts.push(List::of(write(alloc, kept)?))?;
    posts.push(copied(alloc, other)?)?;
    Charge::of(Claim::Equivocation, accused, round).shown_by(alloc, posts)
}

fn copied(alloc: Global, bytes: &[u8]) -> Mem<List<u8>>
    ensures { IfOk result (λ copy. copy ≡ bytes.now) }
{
    let copy = Vec::from_slice(alloc, bytes)?;
    Ok(List::of(copy))
}

// The post that a log keeps in a slot, as it was sent.
pub(crate) fn post_written(alloc: Global, log: &StageLog, slot: Slot) -> Mem<List<u8>>
    requires there { IsSome (kept_in log.now slot) }
    ensures { IfOk result (λ bytes. option_map post_spelling (kept_in log.now slot) ≡ Some bytes) }
{
    let Some(post) = log.kept(slot) else {
        unreachable!()
    };
    let bytes = write(alloc, post)?;
    Ok(List::of(bytes))
}

impl<'a> Closing<'a> {
    ghost use Rattle.std.specs.Prelude.{All};
    ghost use Rattle.phase_message.specs.Slots.{slots_before};
    ghost use Rattle.phase_message.specs.Stages.{is_slot};
    ghost use Rattle.round_spec.specs.Slots.{by_member, pad_stage};
    ghost use Rattle.round_spec.specs.Verdict.{sent_in};
    ghost use Rattle.closing_verdict.specs.Judgement.{IsToBeJudged, completed_of, stage_closed};

    // The post of a slot to the end of the closing stage, as it was sent.
    pub(crate) fn post_sent(self, alloc: Global, slot: Slot) -> Mem<List<u8>>
        requires closing { IsToBeJudged self }
        requires slot { IsTrue (is_slot self.log.now.shape slot.stage slot.sender) }
        requires there { slot.stage ≤ self.stage }
        ensures value { IfOk result (λ bytes. bytes ≡ sent_in (stage_closed (completed_of self.entry)) slot.stage slot.sender) }
        ensures short { IfOk result (λ bytes. length bytes < 2 ^ 32) }
    {
        post_written(alloc, self.log, slot)
    }

    // The closing posts of all members, as they were sent, by member.
    pub(crate) fn closings_sent(self, alloc: Global) -> Mem<Vec<List<u8>>>
        requires closing { IsToBeJudged self }
        ensures value { IfOk result (λ posts. posts.items
            ≡ by_member self.entry.log.now.shape (sent_in (stage_closed (completed_of self.entry)) self.entry.stage)) }
        ensures short { IfOk result (λ posts. All (λ post. length post < 2 ^ 32) posts.items) }
    {
        let members = self.roster.shape().members;
        let mut posts = Vec::with_capacity(alloc, usize::from(members))?;
        for sender in 1..members + 1 {
            let slot = Slot {
                stage: self.stage,
                sender,
            };
            let post = self.post_sent(alloc, slot)?;
            posts.push(post)?;
        }
        Ok(posts)
    }

    // The posts of all slots before the pads, and the pads of a member, as they were sent.
    pub(crate) fn pads_sent(self, alloc: Global, member: u8) -> Mem<Vec<List<u8>>>
        requires closing { IsToBeJudged self }
        requires later { pad_stage self.log.now.shape ≤ self.stage }
        requires least { 1 ≤ member }
        requires most { member ≤ self.log.now.shape.members }
        ensures value { let v = stage_closed (completed_of self.entry) in let shape = self.entry.log.now.shape in
            IfOk result (λ posts. posts.items
            ≡ map post_spelling (take (slots_before shape (pad_stage shape)) v.posts) ++ sent_in v (pad_stage shape) member ∷ []) }
        ensures short { IfOk result (λ posts. All (λ post. length post < 2 ^ 32) posts.items) }
        ensures count { IfOk result (λ posts. length posts.items ≡ 5 * self.entry.log.now.shape.members + 1) }
    {
        let stage = self.roster.shape().members + 4;
        let mut posts = before_written(alloc, self.log, stage)?;
        let slot = Slot {
            stage,
            sender: member,
        };
        let pads = self.post_sent(alloc, slot)?;
        posts.push(pads)?;
        Ok(posts)
    }
}

// The posts of all slots before a stage, as they were sent.
fn before_written(alloc: Global, log: &StageLog, stage: u8) -> Mem<Vec<List<u8>>>
    requires there { IsSome (before log.now stage) }
    requires form { IsLog log.now }
    ensures { IfOk result (λ posts. posts.items ≡ map post_spelling (posts_before log.now stage)) }
{
    let kept = log.posts_before(alloc, stage)?;
    let mut posts = Vec::with_capacity(alloc, kept.len())?;
    for post in &kept {
        let bytes = write(alloc, post)?;
        posts.push(List::of(bytes))?;
    }
    Ok(posts)
}
