//! The log of the posts that a closing content embeds.

ghost use Rattle.group_roster.specs.Given.{roster_of};
ghost use Rattle.std.specs.Prelude.{◌≡◌, ◌<◌, ◌≤◌, ◌^◌, Some, Ok, Err, false, IfOk, IfSome, IsTrue, is_some, length};
ghost use Rattle.wire_core.specs.Answers.{Gives, fault_as};
ghost use Rattle.phase_message.specs.declared.stage.Slot.{Slot as GivenSlot};
ghost use Rattle.phase_message.specs.Grammar.{OfGrammar};
ghost use Rattle.phase_message.specs.Slots.{slot_at, slot_number};
ghost use Rattle.phase_message.specs.Stages.{shape_of};
ghost use Rattle.group_roster.specs.Roster.{shape_of_roster};
ghost use Rattle.go_nogo.specs.Closing.{IsClosing, is_assent, posts_embedded};
ghost use Rattle.go_nogo.specs.Stands.{StandAll};
ghost use Rattle.round_spec.specs.Embedded.{checked_post, embedded_log, is_content_justified, post_for_slot};
ghost use Rattle.embedded_log.specs.Embedding.{IsChecked, IsKnown, KeepsEmbedded, IsPlacedPost, StandsThere, first_embedded, place_of_bad};

use crate::known::{KnownLog, embeds_same};
use go_nogo::justified;
use group_roster::Roster;
use phase_message::{Body, Content, Header, Shape, Slot, first_offence, slot_number, slots_before};
use signed_post::{Post, check_parts, unframed};
use stage_log::StageLog;
use std::alloc::{AllocError, Global};
use wire_core::{List, Mem};

/// Why a closing content embeds no log.
#[derive(Clone, Copy, Debug, PartialEq, Eq)]
pub enum EmbeddedRefusal {
    /// The first embedded post that does not check or does not stand in the slot that it is embedded for: its place,
    /// from 0, in the order of the content's bytes.
    Bad { index: u32 },
    Memory,
}

impl From<AllocError> for EmbeddedRefusal {
    ghost use Rattle.embedded_log.specs.declared.embedding.EmbeddedRefusal.TheVariants.{Memory};

    ghost from_gives = { λ _ e. e ≡ Memory };

    fn from(_e: AllocError) -> EmbeddedRefusal {
        EmbeddedRefusal::Memory
    }
}

// An embedded post that checks, where it lies.
#[derive(Clone, Copy)]
pub(crate) struct Checked<'a> {
    pub(crate) header: Header,
    pub(crate) content: &'a [u8],
    pub(crate) signature: &'a [u8],
}

// A post with the slot in which it stands.
#[derive(Drop)]
pub(crate) struct Placed {
    pub(crate) slot: Slot,
    pub(crate) post: Post,
}

/// The log of the posts that a closing content of the grammar embeds: each passes all eight checks of a post and stands
/// in its slot. A Reveal and a Confirm embed the votes of the stage before, by sender; a Dispute and a Differ all slots
/// of the stages before, in their order. `Bad` names exactly the first embedded post for which this does not hold.
pub fn embedded(
    alloc: Global,
    roster: &Roster,
    round: u64,
    content: &Content,
) -> Result<StageLog, EmbeddedRefusal>
    requires grammar { OfGrammar (shape_of_roster (roster_of roster.now)) content.now }
    requires closing { IsClosing (shape_of_roster (roster_of roster.now)) content.now }
    ensures exact { Gives place_of_bad (λ log. log) result
        (fault_as (λ bad. bad.place) (embedded_log (roster_of roster.now) round content.now)) }
    // It keeps the posts that are found, in their slots, and nothing else. These are of the grammar and stand there.
    ensures keeps { IfOk result (λ log. KeepsEmbedded (roster_of roster.now) round content.now log) }
    ensures stand { IfOk result StandAll }
{
    let posts = posts_embedded(&content.body);
    let first = first_embedded(roster.shape(), content);
    let mut log = StageLog::new(alloc, roster.shape())?;
    for place in 0..posts.len() {
        let bytes = posts[place].items().as_slice();
        match post_for(alloc, roster, round, first + place as u32, bytes)? {
            None => {
                return Err(EmbeddedRefusal::Bad {
                    index: place as u32,
                });
            }
            Some(Placed { slot, post }) => {
                let _stored = log.put(slot, post);
            }
        }
    }
    Ok(log)
}

/// The same log where it justifies the content, and `None` exactly where the content is not justified.
pub fn justifying_log(
    alloc: Global,
    roster: &Roster,
    round: u64,
    content: &Content,
) -> Mem<Option<StageLog>>
    requires grammar { OfGrammar (shape_of_roster (roster_of roster.now)) content.now }
    requires closing { IsClosing (shape_of_roster (roster_of roster.now)) content.now }
    ensures justified { IfOk result (λ log. is_some log ≡ is_content_justified (roster_of roster.now) round content.now) }
    ensures keeps { IfOk result (λ log. IfSome log (KeepsEmbedded (roster_of roster.now) round content.now)) }
    ensures stand { IfOk result (λ log. IfSome log StandAll) }
{
    justifying_log_after(alloc, roster, round, content, None)
}

/// The same as `justifying_log`, by what is known already: where the known content embeds the same posts for the same
/// slots, its log is taken, and no post is checked again.
pub fn justifying_log_after(
    alloc: Global,
    roster: &Roster,
    round: u64,
    content: &Content,
    known: Option<KnownLog>,
) -> Mem<Option<StageLog>>
    requires grammar { OfGrammar (shape_of_roster (roster_of roster.now)) content.now }
    requires closing { IsClosing (shape_of_roster (roster_of roster.now)) content.now }
    requires known { IfSome known (IsKnown (roster_of roster.now) round) }
    ensures justified { IfOk result (λ log. is_some log ≡ is_content_justified (roster_of roster.now) round content.now) }
    ensures keeps { IfOk result (λ log. IfSome log (KeepsEmbedded (roster_of roster.now) round content.now)) }
    ensures stand { IfOk result (λ log. IfSome log StandAll) }
{
    let Some(log) = log_embedded(alloc, roster, round, content, known)? else {
        return Ok(None);
    };
    if justified(alloc, content, &log)? {
        Ok(Some(log))
    } else {
        Ok(None)
    }
}

// The log of what a closing content embeds, or of the known content if that embeds the same. There is none only where
// an embedded post is bad.
fn log_embedded(
    alloc: Global,
    roster: &Roster,
    round: u64,
    content: &Content,
    known: Option<KnownLog>,
) -> Mem<Option<StageLog>>
    requires grammar { OfGrammar (shape_of_roster (roster_of roster.now)) content.now }
    requires closing { IsClosing (shape_of_roster (roster_of roster.now)) content.now }
    requires known { IfSome known (IsKnown (roster_of roster.now) round) }
    ensures bad { IfOk result (λ log. is_some log ≡ false →
        is_content_justified (roster_of roster.now) round content.now ≡ false) }
    ensures keeps { IfOk result (λ log. IfSome log (KeepsEmbedded (roster_of roster.now) round content.now)) }
    ensures stand { IfOk result (λ log. IfSome log StandAll) }
{
    if let Some(
        KnownLog {
            content: other,
            log,
        },
    ) = known
    {
        if embeds_same(&other, content) {
            return Ok(Some(log));
        }
    }
    match embedded(alloc, roster, round, content) {
        Ok(log) => Ok(Some(log)),
        Err(EmbeddedRefusal::Bad { .. }) => Ok(None),
        Err(EmbeddedRefusal::Memory) => Err(AllocError),
    }
}

/// The posts that a closing body embeds, as they were sent, in their order; any other body embeds none.
pub fn posts_embedded(body: &Body) -> &[List<u8>]
    ensures { result.now ≡ posts_embedded body.now }
{
    match body {
        Body::Reveal { votes, .. } | Body::Confirm { votes } => votes.items().as_slice(),
        Body::Dispute { posts, .. } | Body::Differ { posts } => posts.items().as_slice(),
        _ => &[],
    }
}

/// The number of the first slot that a closing content embeds: its posts are those of the slots from this one on.
pub fn first_embedded(shape: Shape, content: &Content) -> u32
    requires { 1 ≤ content.now.header.stage }
    ensures { result ≡ first_embedded (shape_of shape) content.now }
{
    if is_assent(&content.body) {
        slots_before(shape, content.header.stage - 1)
    } else {
        0
    }
}

pub(crate) fn is_assent(body: &Body) -> bool
    ensures { result ≡ is_assent body.now }
{
    matches!(body, Body::Reveal { .. } | Body::Confirm { .. })
}

// The post of the slot of a number, copied, if bytes are one.
fn post_for(
    alloc: Global,
    roster: &Roster,
    round: u64,
    number: u32,
    bytes: &[u8],
) -> Mem<Option<Placed>>
    ensures value { IfOk result (λ placed. (slot : GivenSlot) →
        slot_at (shape_of_roster (roster_of roster.now)) number ≡ Some slot →
        IsPlacedPost placed (post_for_slot (roster_of roster.now) round slot bytes.now)) }
    ensures numbered { IfOk result (λ placed. IfSome placed (λ p.
        slot_number (shape_of_roster (roster_of roster.now)) p.slot.stage p.slot.sender ≡ number)) }
    ensures stands { IfOk result (λ placed. IfSome placed (λ p.
        StandsThere (shape_of_roster (roster_of roster.now)) p.slot.stage p.slot.sender p.post.content)) }
{
    let Some(checked) = check_bytes(roster, round, bytes) else {
        return Ok(None);
    };
    let slot = Slot {
        stage: checked.header.stage,
        sender: checked.header.sender,
    };
    if slot_number(roster.shape(), slot) != number {
        return Ok(None);
    }
    let post = Post {
        content: List::of(Vec::from_slice(alloc, checked.content)?),
        signature: List::of(Vec::from_slice(alloc, checked.signature)?),
    };
    Ok(Some(Placed { slot, post }))
}

// Bytes as a post that passes the eight checks, if they are one.
fn check_bytes<'a>(roster: &Roster, round: u64, bytes: &'a [u8]) -> Option<Checked<'a>>
    ensures value { IsChecked result (checked_post (roster_of roster.now) round bytes.now) }
    ensures stands { IfSome result (λ c.
        StandsThere (shape_of_roster (roster_of roster.now)) c.header.stage c.header.sender c.content.now) }
{
    let Ok(parts) = unframed(bytes) else {
        return None;
    };
    let Ok(header) = check_parts(roster, round, parts) else {
        return None;
    };
    if first_offence(roster.shape(), parts.content).is_some() {
        return None;
    }
    Some(Checked {
        header,
        content: parts.content,
        signature: parts.signature,
    })
}
