//! The look at one listed post: its seven checks before the body, its slot, and its body where the claim asks for it.

ghost use Rattle.group_roster.specs.Given.{roster_of};
ghost use Rattle.std.specs.Prelude.{◌≡◌, ◌<◌, ◌≤◌, ◌^◌, All, length, map, None, Some, Ok, Err, IfOk, IsOk, IsTrue};
ghost use Rattle.wire_core.specs.Answers.{Gives};
ghost use Rattle.phase_message.specs.declared.content.Body.{Body};
ghost use Rattle.phase_message.specs.Grammar.{kind_number};
ghost use Rattle.phase_message.specs.Stages.{is_slot, kind_of_stage, shape_of};
ghost use Rattle.group_roster.specs.Roster.{shape_of_roster};
ghost use Rattle.judge_core.specs.Checks.{Looks, content_of, failed_of, heard_of, hearing_of, is_asked, is_closing_stage, is_final_stage, is_keys_stage, is_kind_asked, is_of_bodies, is_of_one_stage, is_pad_stage, taken_of};
ghost use Rattle.judge_core.specs.Case.{case_of, said_of};

use crate::failed_check::{FailedCheck, Unjudged};
use group_roster::Roster;
use phase_message::{Header, Slot, StageKind, first_offence, slot_number, stage_kind};
use signed_post::{PostRefusal, check_parts, unframed};
use std::alloc::Global;
use transcript_form::{Accusation, Claim, ListedPosts};

// Where the number of a content's kind stands.
const KIND_AT: usize = 75;

// What is known before the first post.
#[derive(Clone, Copy)]
pub(crate) struct Case<'a> {
    pub(crate) roster: &'a Roster,
    pub(crate) claim: Claim,
    pub(crate) accused: u8,
    pub(crate) round: u64,
    pub(crate) detail: Option<Accusation>,
}

// A listed post that passes the seven checks before its body and stands in a slot that the claim asks for.
#[derive(Clone, Copy)]
pub(crate) struct Said<'a> {
    pub(crate) header: Header,
    pub(crate) content: &'a [u8],
}

// What is heard of a listed post, by its number from 1 and the header of the first one: checks 4 and 5.
#[tactic(auto, unfolding(crate::specs::Checks::heard_of))]
pub(crate) fn hear<'a>(
    case: Case<'_>,
    first: Option<Header>,
    number: u32,
    bytes: &'a [u8],
) -> Result<Said<'a>, FailedCheck>
    requires { 1 ≤ number }
    ensures exact { Gives (λ e. Some e) said_of result (heard_of (case_of case.entry) first number bytes.now) }
    ensures short { IfOk result (λ said. length said.content.now < 2 ^ 32) }
{
    let refused = |refusal: PostRefusal| FailedCheck::Post {
        post: number,
        refusal,
    };
    let parts = match unframed(bytes) {
        Ok(parts) => parts,
        Err(at) => return Err(refused(PostRefusal::Frame { at })),
    };
    let header = match check_parts(case.roster, case.round, parts) {
        Ok(header) => header,
        Err(refusal) => return Err(refused(refusal)),
    };
    if !is_asked(case, first, number, header) {
        return Err(FailedCheck::Slot {
            post: number,
            stage: header.stage,
        });
    }
    Ok(Said {
        header,
        content: parts.content,
    })
}

// Whether the claim asks for a post with this header.
fn is_asked(case: Case<'_>, first: Option<Header>, number: u32, header: Header) -> bool
    requires from_one { 1 ≤ number }
    requires slot { IsTrue (is_slot (shape_of_roster (roster_of case.roster.now)) header.stage header.sender) }
    ensures { result ≡ is_asked (case_of case.entry) first number header }
{
    let shape = case.roster.shape();
    let kind = stage_kind(shape, header.stage);
    let is_of_accused = header.sender == case.accused;
    match (case.claim, first) {
        (Claim::Equivocation, _) => is_of_accused && is_of_one_stage(first, header),
        (Claim::Malformed, _) => is_of_accused,
        (Claim::WrongSeed, None) => is_of_accused && is_keys_stage(kind),
        (Claim::WrongSeed, Some(_)) => is_of_accused && is_final_stage(kind),
        (Claim::BadLog, _) => is_of_accused && is_closing_stage(kind),
        (Claim::Replay, _) => {
            u32::from(header.sender) == number
                && is_closing_stage(kind)
                && is_of_one_stage(first, header)
        }
        (Claim::Pad, _) => {
            let slot = Slot {
                stage: header.stage,
                sender: header.sender,
            };
            if number == Claim::Pad.posts(shape) {
                is_of_accused && is_pad_stage(kind)
            } else {
                slot_number(shape, slot) == number - 1
            }
        }
    }
}

fn is_of_one_stage(first: Option<Header>, header: Header) -> bool
    ensures { result ≡ is_of_one_stage first header }
{
    match first {
        None => true,
        Some(first) => header.stage == first.stage,
    }
}

fn is_keys_stage(kind: Option<StageKind>) -> bool
    ensures { result ≡ is_keys_stage kind }
{
    matches!(kind, Some(StageKind::Keys))
}

fn is_final_stage(kind: Option<StageKind>) -> bool
    ensures { result ≡ is_final_stage kind }
{
    matches!(kind, Some(StageKind::Final { .. }))
}

fn is_pad_stage(kind: Option<StageKind>) -> bool
    ensures { result ≡ is_pad_stage kind }
{
    matches!(kind, Some(StageKind::Pad))
}

fn is_closing_stage(kind: Option<StageKind>) -> bool
    ensures { result ≡ is_closing_stage kind }
{
    matches!(kind, Some(StageKind::Final { .. } | StageKind::Confirm))
}

// What is taken of a listed post, by its number from 1 and the header of the first one: checks 4 to 7.
#[tactic(auto, unfolding(crate::specs::Checks::taken_of))]
pub(crate) fn take<'a>(
    case: Case<'_>,
    first: Option<Header>,
    number: u32,
    bytes: &'a [u8],
) -> Result<Said<'a>, FailedCheck>
    requires { 1 ≤ number }
    ensures exact { Gives (λ e. Some e) said_of result (taken_of (case_of case.entry) first number bytes.now) }
    ensures short { IfOk result (λ said. length said.content.now < 2 ^ 32) }
{
    let said = hear(case, first, number, bytes)?;
    if is_of_bodies(case.claim) {
        look(case, first, number, said.content)?;
    }
    Ok(said)
}

// Whether a claim looks at the bodies of listed posts.
fn is_of_bodies(claim: Claim) -> bool
    ensures { result ≡ is_of_bodies claim }
{
    !matches!(claim, Claim::Equivocation | Claim::Malformed)
}

// Whether a content passes the checks 6 and 7.
#[tactic(auto, unfolding(crate::specs::Checks::content_of))]
fn look(case: Case<'_>, first: Option<Header>, number: u32, bytes: &[u8]) -> Result<(), FailedCheck>
    requires { length bytes.now < 2 ^ 32 }
    ensures { Looks result (content_of (case_of case.entry) first number bytes.now) }
{
    if let Some(offence) = first_offence(case.roster.shape(), bytes) {
        return Err(FailedCheck::Body {
            post: number,
            at: offence.at,
        });
    }
    let kind = bytes[KIND_AT];
    if !is_kind_asked(case.claim, first, kind) {
        return Err(FailedCheck::Kind { post: number, kind });
    }
    Ok(())
}

// Whether the claim asks for a body of the kind of this number: a Reveal, or a Dispute or a Differ.
fn is_kind_asked(claim: Claim, first: Option<Header>, kind: u8) -> bool
    ensures { (body : Body) → kind ≡ kind_number body → result ≡ is_kind_asked claim first body }
{
    match (claim, first) {
        (Claim::WrongSeed, Some(_)) => kind == 6,
        (Claim::Replay, _) => kind == 7 || kind == 11,
        _ => true,
    }
}

// What is taken of the listed posts, one after the other. Out of memory is told behind the checks of all posts.
pub(crate) fn take_all<'a>(
    alloc: Global,
    case: Case<'_>,
    posts: ListedPosts<'a>,
) -> Result<Vec<Said<'a>>, Unjudged>
    requires { length posts < 2 ^ 31 }
    ensures exact { Gives failed_of (λ said. map said_of said.items) result (hearing_of (case_of case.entry) None 1 posts.entry) }
    ensures short { IfOk result (λ said. All (λ one. length one.content.now < 2 ^ 32) said.items) }
    ensures memory { result ≡ Err Unjudged.Memory → IsOk (hearing_of (case_of case.entry) None 1 posts.entry) }
{
    let mut all = Vec::new(alloc);
    let mut first = None;
    let mut number = 1;
    let mut lost = false;
    for bytes in posts {
        let said = take(case, first, number, bytes)?;
        first = first.or(Some(said.header));
        number += 1;
        lost = lost || all.push(said).is_err();
    }
    if lost {
        return Err(Unjudged::Memory);
    }
    Ok(all)
}
