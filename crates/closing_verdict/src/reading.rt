//! What the closing contents of all members come to, one by one: each is to be justified, and to embed what was kept.

ghost use Rattle.std.specs.Prelude.{◌≡◌, ◌≤◌, ◌<◌, ◌+◌, ◌-◌, [], ℕ, length, slice_index_or, IfOk, IfSome, IsTrue, Some, Ok};
ghost use Rattle.phase_message.specs.Slots.{slot_number};
ghost use Rattle.phase_message.specs.Stages.{is_slot, shape_of};
ghost use Rattle.go_nogo.specs.Closing.{posts_embedded};
ghost use Rattle.embedded_log.specs.Embedding.{first_embedded};
ghost use Rattle.group_roster.specs.Given.{roster_of};
ghost use Rattle.round_spec.specs.Verdict.{Verdict};
ghost use Rattle.closing_verdict.specs.Closed.{told_of};
ghost use Rattle.closing_verdict.specs.Convicting.{TellsConviction};

use crate::convicting::{Charge, Conviction, contradicted, post_written};
use crate::judging::Closing;
use embedded_log::{KnownLog, first_embedded, justifying_log_after, posts_embedded};
use go_nogo::compare_logs;
use phase_message::{Body, Content, DecodeRefusal, Shape, Slot, decode, slot_number};
use shuffle_blame::Shown;
use stage_log::StageLog;
use std::alloc::{AllocError, Global};
use transcript_form::Claim;
use wire_core::Mem;

// What the closing contents come to.
#[derive(Drop)]
pub(crate) enum Reading {
    // One is not justified, or embeds another content than was kept.
    Convicts(Conviction),
    // All are justified and embed what was kept: what each tells, by member.
    Sound(Vec<Told>),
}

// What a closing body tells beside the posts that it embeds.
#[derive(Clone, Copy)]
pub(crate) enum Told {
    // The votes are unanimous, and this is the member's inner seed.
    Reveals { seed: [u8; 32] },
    // The votes are unanimous.
    Confirms,
    // They are not, and this is the member's part of the outer layers.
    Disputes(Shown),
    // They are not.
    Differs,
}

// What one closing content comes to.
#[derive(Drop)]
enum Found {
    // It is not justified.
    Bad,
    // It is justified, and tells this; it embeds another content than was kept, which convicts the sender of that slot, or
    // what was kept. What it embeds is known from now on.
    Justified(Told, Option<Conviction>, KnownLog),
}

impl<'a> Closing<'a> {
    ghost use Rattle.phase_message.specs.Grammar.{OfGrammar};
    ghost use Rattle.embedded_log.specs.Embedding.{IsKnown, KeepsEmbedded};
    ghost use Rattle.round_spec.specs.Verdict.{bad_log_of, closing_content, equivocation_in};
    ghost use Rattle.closing_verdict.specs.Closed.{FindsOf, ReadsClosing, TellsSecond};
    ghost use Rattle.closing_verdict.specs.Judgement.{IsToBeJudged, completed_of, stage_closed};

    // What the closing contents of all members come to: a bad log of any goes before a second content.
    pub(crate) fn read_closing(self, alloc: Global) -> Mem<Reading>
        requires { IsToBeJudged self }
        ensures { IfOk result (ReadsClosing (completed_of self.entry)) }
    {
        let members = self.roster.shape().members;
        let mut all = Vec::with_capacity(alloc, usize::from(members))?;
        let mut second = None;
        let mut known = None;
        for member in 1..members + 1 {
            match self.read_member(alloc, member, known)? {
                Found::Bad => {
                    let conviction = self.bad_log(alloc, member)?;
                    return Ok(Reading::Convicts(conviction));
                }
                Found::Justified(told, other, found) => {
                    all.push(told)?;
                    second = second.or(other);
                    known = Some(found);
                }
            }
        }
        match second {
            Some(conviction) => Ok(Reading::Convicts(conviction)),
            None => Ok(Reading::Sound(all)),
        }
    }

    // What the closing content of a member comes to, by what is known of the content of another one: most embed the same.
    fn read_member(self, alloc: Global, member: u8, known: Option<KnownLog>) -> Mem<Found>
        requires closing { IsToBeJudged self }
        requires known { IfSome known (IsKnown (completed_of self).roster self.round) }
        requires least { 1 ≤ member }
        requires most { member ≤ self.log.now.shape.members }
        ensures { IfOk result (FindsOf (completed_of self.entry) member) }
    {
        let content = self.closing_content(alloc, member)?;
        let Some(log) = justifying_log_after(alloc, self.roster, self.round, &content, known)?
        else {
            return Ok(Found::Bad);
        };
        let second = self.second_content(alloc, &content, &log)?;
        let told = told_of(&content.body);
        Ok(Found::Justified(told, second, KnownLog { content, log }))
    }

    // The closing content of a member.
    fn closing_content(self, alloc: Global, member: u8) -> Mem<Content>
        requires closing { IsToBeJudged self }
        requires least { 1 ≤ member }
        requires most { member ≤ self.log.now.shape.members }
        ensures value { IfOk result (λ content. closing_content (stage_closed (completed_of self.entry)) member ≡ Ok content) }
        ensures grammar { IfOk result (OfGrammar self.entry.log.now.shape) }
        ensures stage { IfOk result (λ content. content.header.stage ≡ self.entry.stage) }
    {
        let slot = Slot {
            stage: self.stage,
            sender: member,
        };
        let Some(post) = self.log.kept(slot) else {
            unreachable!()
        };
        match decode(alloc, self.roster.shape(), post.content.items()) {
            Ok(content) => Ok(content),
            Err(DecodeRefusal::Malformed { .. }) => unreachable!(),
            Err(DecodeRefusal::Memory) => Err(AllocError),
        }
    }

    // A closing content of a member that is not justified: its post shows it.
    fn bad_log(self, alloc: Global, member: u8) -> Mem<Conviction>
        requires closing { IsToBeJudged self }
        requires least { 1 ≤ member }
        requires most { member ≤ self.log.now.shape.members }
        ensures { IfOk result (λ conviction. (verdict : Verdict) →
            bad_log_of (stage_closed (completed_of self.entry)) member ≡ Some verdict → TellsConviction verdict conviction) }
    {
        let slot = Slot {
            stage: self.stage,
            sender: member,
        };
        let mut posts = Vec::with_capacity(alloc, 1)?;
        posts.push(self.post_sent(alloc, slot)?)?;
        Charge::of(Claim::BadLog, member, self.round).shown_by(alloc, posts)
    }

    // The first slot for which a content embeds another content than was kept: both convict its sender.
    fn second_content(
        self,
        alloc: Global,
        content: &Content,
        embedded: &StageLog,
    ) -> Mem<Option<Conviction>>
        requires closing { IsToBeJudged self }
        requires grammar { OfGrammar self.log.now.shape content.now }
        requires stage { content.now.header.stage ≡ self.stage }
        requires embeds { KeepsEmbedded (roster_of self.roster.now) self.round content.now embedded.now }
        ensures { IfOk result (λ second. (member : ℕ) →
            closing_content (stage_closed (completed_of self.entry)) member ≡ Ok content.now →
            TellsSecond (equivocation_in (stage_closed (completed_of self.entry)) member) second) }
    {
        let Some(slot) = compare_logs(embedded, self.log) else {
            return Ok(None);
        };
        let Some(kept) = self.log.kept(slot) else {
            unreachable!()
        };
        let other = embedded_for(self.roster.shape(), content, slot);
        let conviction = contradicted(alloc, slot.sender, self.round, kept, other)?;
        Ok(Some(conviction))
    }
}

// The post that a closing content embeds for a slot.
fn embedded_for(shape: Shape, content: &Content, slot: Slot) -> &[u8]
    requires closing { 1 ≤ content.now.header.stage }
    requires slot { IsTrue (is_slot (shape_of shape) slot.stage slot.sender) }
    requires first { first_embedded (shape_of shape) content.now ≤ slot_number (shape_of shape) slot.stage slot.sender }
    requires last { slot_number (shape_of shape) slot.stage slot.sender
        < first_embedded (shape_of shape) content.now + length (posts_embedded content.now.body) }
    ensures { result.now ≡ slice_index_or (posts_embedded content.now.body)
        (slot_number (shape_of shape) slot.stage slot.sender - first_embedded (shape_of shape) content.now) [] }
{
    let place = slot_number(shape, slot) - first_embedded(shape, content);
    posts_embedded(&content.body)[place as usize]
        .items()
        .as_slice()
}

// What a closing body tells.
fn told_of(body: &Body) -> Told
    ensures { result ≡ told_of body.now }
{
    match body {
        Body::Reveal { seed, .. } => Told::Reveals { seed: *seed },
        Body::Confirm { .. } => Told::Confirms,
        Body::Dispute {
            outer_seed,
            outer_opening,
            ..
        } => Told::Disputes(Shown {
            outer_seed: *outer_seed,
            outer_opening: *outer_opening,
        }),
        _ => Told::Differs,
    }
}
