//! The claim Pad: the pad that the accused sent is not the pad of the seed that was sealed for it.

ghost use Rattle.group_roster.specs.Given.{roster_of};
ghost use Rattle.std.specs.Prelude.{◌≡◌, ◌==◌, [], All, IfOk, IfSome, Some, Ok, Err, length, map, replicate};
ghost use Rattle.std.specs.Option.{option_and_then, option_map};
ghost use Rattle.wire_core.specs.Answers.{Gives, value_unless};
ghost use Rattle.phase_message.specs.Stages.{shape_of};
ghost use Rattle.bulk_descriptor.specs.Descriptor.{descriptor_read};
ghost use Rattle.bulk_descriptor.specs.Fields.{description_of};
ghost use Rattle.shuffle_core.specs.Shuffle.{opened_list};
ghost use Rattle.group_roster.specs.Roster.{shape_of_roster};
ghost use Rattle.transcript_form.specs.Claim.{claim_posts};
ghost use Rattle.round_spec.specs.Slots.{pads_in};
ghost use Rattle.judge_core.specs.Case.{case_of, said_of, shape_in};
ghost use Rattle.judge_core.specs.Checks.{WantsMemory, conviction_of, failed_of};
ghost use Rattle.judge_core.specs.Pad.{accusation_failure, pad_answer, pads_row, row_of, table_of, view_failure};
ghost use Rattle.judge_core.specs.PadLog.{AreEntries, ArePadPosts, ArePads, IsListedLog, IsPadsPost, IsRevealed, Reveals, contents_said};

use crate::failed_check::{FailedCheck, Unjudged};
use crate::hearing::{Case, Said, take_all};
use crate::listed_log::{bulk_keys, last_list, revealed_seeds, view_behind};
use crate::reading::read_content;
use accusation::holds;
use bulk_descriptor::{Descriptor, PadTable, decode};
use phase_message::{Body, Shape};
use shuffle_core::open_final;
use std::alloc::Global;
use transcript_form::{Accusation, Claim, ListedPosts};
use wire_core::{List, Mem};

// What a log reveals of shuffle A: the last list, and the inner seeds by which it opens.
#[derive(Drop)]
pub(crate) struct Revealed {
    pub(crate) seeds: List<[u8; 32]>,
    pub(crate) list: List<List<u8>>,
}

// Whether the posts of all slots before the pads and the pads of the accused show that an accusation of it holds.
pub(crate) fn pad(alloc: Global, case: Case<'_>, posts: ListedPosts<'_>) -> Result<(), Unjudged>
    requires claim { case.claim ≡ Claim.Pad }
    requires count { length posts ≡ claim_posts (shape_of_roster (roster_of case.roster.now)) case.claim }
    ensures exact { Gives failed_of (λ x. x) result (conviction_of (case_of case.entry) posts.entry) }
    ensures memory { result ≡ Err Unjudged.Memory → WantsMemory (case_of case.entry) posts.entry }
{
    let said = take_all(alloc, case, posts)?;
    check_pad(alloc, case, said.as_slice())
}

// The checks 15 to 17 of posts that are taken.
fn check_pad(alloc: Global, case: Case<'_>, said: &[Said<'_>]) -> Result<(), Unjudged>
    requires { ArePadPosts (case_of case) said.now }
    ensures { Gives failed_of (λ x. x) result (pad_answer (case_of case.entry) (map said_of said.now)) }
{
    let Some((pads, log)) = said.split_last() else {
        unreachable!()
    };
    check_view(case, log, *pads)?;
    let revealed = reveal(alloc, case, log)?;
    check_accusation(alloc, case, log, *pads, &revealed)
}

// Check 15: the post of pads carries the view of the log.
fn check_view(case: Case<'_>, log: &[Said<'_>], pads: Said<'_>) -> Result<(), FailedCheck>
    requires { IsListedLog (shape_in (case_of case)) log.now }
    ensures { Gives (λ e. Some e) (λ x. x) result
        (value_unless (view_failure (shape_in (case_of case.entry)) (contents_said log.now) (said_of pads.entry)) tt) }
{
    let shape = case.roster.shape();
    if pads.header.view == view_behind(shape, log) {
        Ok(())
    } else {
        Err(FailedCheck::View {
            post: Claim::Pad.posts(shape),
        })
    }
}

// Check 16: what the log reveals of shuffle A.
fn reveal(alloc: Global, case: Case<'_>, log: &[Said<'_>]) -> Result<Revealed, Unjudged>
    requires { IsListedLog (shape_in (case_of case)) log.now }
    ensures { Reveals (shape_in (case_of case.entry)) (contents_said log.now) result }
{
    let shape = case.roster.shape();
    let Some(seeds) = revealed_seeds(alloc, shape, log)? else {
        return Err(Unjudged::Failed(FailedCheck::NotOpened {
            stage: shape.members + 3,
        }));
    };
    let Some(list) = last_list(alloc, shape, log)? else {
        return Err(Unjudged::Failed(FailedCheck::NotOpened {
            stage: shape.members + 1,
        }));
    };
    Ok(Revealed { seeds, list })
}

// Check 17: the accusation names the accused, and holds.
fn check_accusation(
    alloc: Global,
    case: Case<'_>,
    log: &[Said<'_>],
    pads: Said<'_>,
    revealed: &Revealed,
) -> Result<(), Unjudged>
    requires log { IsListedLog (shape_in (case_of case)) log.now }
    requires pads { IsPadsPost (case_of case) pads }
    requires revealed { IsRevealed (shape_in (case_of case)) (contents_said log.now) revealed.now }
    ensures { let case = case_of case.entry in Gives failed_of (λ x. x) result (value_unless
        (accusation_failure case (contents_said log.now) (pads_row case (said_of pads.entry)) case.detail) tt) }
{
    let Some(accusation) = case.detail else {
        return Err(Unjudged::Failed(FailedCheck::OtherMember));
    };
    if !is_of(accusation, case.accused) {
        return Err(Unjudged::Failed(FailedCheck::OtherMember));
    }
    let shape = case.roster.shape();
    let descriptors = opened_descriptors(alloc, shape, revealed)?;
    let keys = bulk_keys(alloc, shape, log)?;
    let table = table_of(alloc, case, pads)?;
    match holds(&accusation, &descriptors, &table, &keys) {
        Ok(()) => Ok(()),
        Err(refusal) => Err(Unjudged::Failed(FailedCheck::Accusation(refusal))),
    }
}

// Whether an accusation names a member.
fn is_of(accusation: Accusation, member: u8) -> bool
    ensures { result ≡ (accusation.member == member) }
{
    accusation.member == member
}

// The descriptor of each entry of the last list, where it opens to one.
fn opened_descriptors(
    alloc: Global,
    shape: Shape,
    revealed: &Revealed,
) -> Mem<Vec<Option<Descriptor>>>
    requires { AreEntries (shape_of shape) revealed.now.list }
    ensures value { IfOk result (λ found. map (option_map description_of) found.items
        ≡ map (option_and_then (descriptor_read (shape_of shape).members))
        (opened_list revealed.now.seeds revealed.now.list)) }
    ensures hashes { IfOk result (λ found.
        All (λ slot. IfSome slot (λ d. length d.pad_hashes ≡ (shape_of shape).members))
        (map (option_map description_of) found.items)) }
{
    let items = open_final(alloc, revealed.seeds.items(), revealed.list.items())?;
    let mut descriptors = Vec::with_capacity(alloc, items.len())?;
    for item in &items {
        let descriptor = descriptor_in(alloc, shape.members, item)?;
        descriptors.push(descriptor)?;
    }
    Ok(descriptors)
}

// The descriptor that an entry opened to, if it is one.
fn descriptor_in(alloc: Global, members: u8, item: &Option<List<u8>>) -> Mem<Option<Descriptor>>
    ensures value { IfOk result (λ found.
        option_map description_of found ≡ option_and_then (descriptor_read members) item.now) }
    ensures hashes { IfOk result (λ found.
        IfSome (option_map description_of found) (λ d. length d.pad_hashes ≡ members)) }
{
    match item {
        None => Ok(None),
        Some(bytes) => decode(alloc, members, bytes.items()),
    }
}

// The pads of the accused, and empty ones of the other members.
fn table_of(alloc: Global, case: Case<'_>, pads: Said<'_>) -> Mem<PadTable>
    requires { IsPadsPost (case_of case) pads }
    ensures rows { IfOk result (λ table.
        All (λ row. length row ≡ (shape_in (case_of case.entry)).members) table.members) }
    ensures value { IfOk result (λ table.
        table.members ≡ table_of (case_of case.entry) (pads_row (case_of case.entry) (said_of pads.entry))) }
{
    let members = case.roster.shape().members;
    let mut rows = Vec::with_capacity(alloc, usize::from(members))?;
    for member in 1..members + 1 {
        let row = row_of(alloc, case, pads, member)?;
        rows.push(row)?;
    }
    Ok(PadTable {
        members: List::of(rows),
    })
}

// The row of a member.
fn row_of(alloc: Global, case: Case<'_>, pads: Said<'_>, member: u8) -> Mem<List<List<u8>>>
    requires { IsPadsPost (case_of case) pads }
    ensures count { IfOk result (λ row. length row ≡ (shape_in (case_of case.entry)).members) }
    ensures value { IfOk result (λ row.
        row ≡ row_of (case_of case.entry) (pads_row (case_of case.entry) (said_of pads.entry)) member) }
{
    if member == case.accused {
        said_pads(alloc, case, pads)
    } else {
        no_pads(alloc, case.roster.shape().members)
    }
}

// The pads that a post of pads says.
fn said_pads(alloc: Global, case: Case<'_>, pads: Said<'_>) -> Mem<List<List<u8>>>
    requires { IsPadsPost (case_of case) pads }
    ensures count { IfOk result (λ row. length row ≡ (shape_in (case_of case.entry)).members) }
    ensures value { IfOk result (λ row. row ≡ pads_row (case_of case.entry) (said_of pads.entry)) }
{
    let content = read_content(alloc, case.roster.shape(), pads.content)?;
    Ok(pads_in(content.body))
}

// The pads that a body says.
fn pads_in(body: Body) -> List<List<u8>>
    requires { ArePads body }
    ensures { result ≡ pads_in body }
{
    match body {
        Body::Pads { pads } => pads,
        _ => unreachable!(),
    }
}

// So many empty pads.
fn no_pads(alloc: Global, members: u8) -> Mem<List<List<u8>>>
    ensures { IfOk result (λ row. row ≡ replicate members []) }
{
    let mut row = Vec::with_capacity(alloc, usize::from(members))?;
    for _ in 0..members {
        row.push(List::of(Vec::new(alloc)))?;
    }
    Ok(List::of(row))
}
