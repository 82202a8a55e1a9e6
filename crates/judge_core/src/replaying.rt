//! The claim Replay: what all members show of the stages before is not what the accused should have said.

ghost use Rattle.group_roster.specs.Given.{roster_of};
ghost use Rattle.std.specs.Prelude.{◌≡◌, ◌<◌, ◌^◌, ◌++◌, ℕ, List, length, map, option_map, option_to_list, Some, Ok, Err, IfOk};
ghost use Rattle.wire_core.specs.Answers.{Gives};
ghost use Rattle.group_roster.specs.Roster.{shape_of_roster};
ghost use Rattle.transcript_form.specs.Claim.{claim_posts};
ghost use Rattle.judge_core.specs.Case.{Said as HeardSaid, case_of, said_of};
ghost use Rattle.judge_core.specs.Checks.{WantsMemory, conviction_of, failed_of};
ghost use Rattle.judge_core.specs.Closing.{shown_by};
ghost use Rattle.judge_core.specs.Replay.{culprit_failure, replay_answer, unlike_place};
ghost use Rattle.judge_core.specs.Showing.{AreObjections, AreOfOneStage, Compares, IsObjection, IsShown, KeepsPast, ShowsPost};

use crate::failed_check::{FailedCheck, Unjudged};
use crate::hearing::{Case, Said, take_all};
use crate::reading::read_content;
use embedded_log::justifying_log;
use go_nogo::compare_logs;
use phase_message::{Body, slot_number};
use shuffle_blame::{Fault, Shown, replay};
use stage_log::StageLog;
use std::alloc::Global;
use transcript_form::{Claim, ListedPosts};
use wire_core::Mem;

// What a closing post shows: its stage, the log that it embeds, and its part of the outer layers.
#[derive(Drop)]
pub(crate) struct Shows {
    pub(crate) stage: u8,
    pub(crate) log: StageLog,
    pub(crate) shown: Option<Shown>,
}

// What all posts show: the first difference of their logs, and their parts.
#[derive(Drop)]
pub(crate) struct Compared {
    pub(crate) difference: Option<FailedCheck>,
    pub(crate) told: Vec<Shown>,
}

// Whether the closing posts of all members embed one log, whose replay blames the accused.
pub(crate) fn replaying(
    alloc: Global,
    case: Case<'_>,
    posts: ListedPosts<'_>,
) -> Result<(), Unjudged>
    requires claim { case.claim ≡ Claim.Replay }
    requires count { length posts ≡ claim_posts (shape_of_roster (roster_of case.roster.now)) case.claim }
    ensures exact { Gives failed_of (λ x. x) result (conviction_of (case_of case.entry) posts.entry) }
    ensures memory { result ≡ Err Unjudged.Memory → WantsMemory (case_of case.entry) posts.entry }
{
    let said = take_all(alloc, case, posts)?;
    check_all(alloc, case, said.as_slice())
}

// The checks 12 to 14 of posts that are taken.
fn check_all(alloc: Global, case: Case<'_>, said: &[Said<'_>]) -> Result<(), Unjudged>
    requires objections { AreOfOneStage (case_of case) said.now }
    requires count { length said.now ≡ (shape_of_roster (roster_of case.roster.now)).members }
    ensures { Gives failed_of (λ x. x) result (replay_answer (case_of case.entry) (map said_of said.now)) }
{
    let Some((first, others)) = said.split_first() else {
        return Err(Unjudged::Failed(FailedCheck::Culprit { member: 0 }));
    };
    let first = show(alloc, case, 1, *first)?;
    let compared = compare_all(alloc, case, &first, others)?;
    if let Some(failed) = compared.difference {
        return Err(Unjudged::Failed(failed));
    }
    let fault = replay(alloc, &first.log, first.stage, case.round, &compared.told)?;
    match culprit_failure(case.accused, fault) {
        None => Ok(()),
        Some(failed) => Err(Unjudged::Failed(failed)),
    }
}

// What the first post and the others show together, if the others are justified.
fn compare_all(
    alloc: Global,
    case: Case<'_>,
    first: &Shows,
    others: &[Said<'_>],
) -> Result<Compared, Unjudged>
    requires objections { AreObjections (case_of case) first.now.stage others.now }
    requires few { length others.now < 2 ^ 31 }
    ensures { (said : HeardSaid) → IsShown (case_of case.entry) said first.now →
        Compares (case_of case.entry) said (map said_of others.now) result }
{
    let mut told = Vec::new(alloc);
    tell(&mut told, first.shown)?;
    let mut difference = None;
    for place in 0..others.len() {
        let post = place as u32 + 2;
        let said = others[place];
        let shows = show(alloc, case, post, said)?;
        difference = difference.or(unlike_log(&first.log, &shows.log, post));
        tell(&mut told, shows.shown)?;
    }
    Ok(Compared { difference, told })
}

// Appends the part that a post shows, if it shows one.
fn tell(told: &mut Vec<Shown>, shown: Option<Shown>) -> Mem<()>
    ensures { IfOk result (λ done. told.new.items ≡ told.old.items ++ option_to_list shown) }
{
    if let Some(one) = shown {
        told.push(one)?;
    }
    Ok(())
}

// What a closing post shows, if it is justified.
fn show(alloc: Global, case: Case<'_>, number: u32, said: Said<'_>) -> Result<Shows, Unjudged>
    requires short { length said.content.now < 2 ^ 32 }
    requires objection { IsObjection (case_of case) said.header.stage (said_of said) }
    ensures { ShowsPost (case_of case.entry) number (said_of said.entry) result }
{
    let content = read_content(alloc, case.roster.shape(), said.content)?;
    let Some(log) = justifying_log(alloc, case.roster, case.round, &content)? else {
        return Err(Unjudged::Failed(FailedCheck::NotJustified { post: number }));
    };
    Ok(Shows {
        stage: said.header.stage,
        log,
        shown: shown_by(&content.body),
    })
}

// What a body shows of the outer layers: a Dispute alone does.
fn shown_by(body: &Body) -> Option<Shown>
    ensures { result ≡ shown_by body.now }
{
    match body {
        Body::Dispute {
            outer_seed,
            outer_opening,
            ..
        } => Some(Shown {
            outer_seed: *outer_seed,
            outer_opening: *outer_opening,
        }),
        _ => None,
    }
}

// The least slot in which the log of a post keeps another content than that of the first one.
fn unlike_log(log: &StageLog, other: &StageLog, post: u32) -> Option<FailedCheck>
    ensures { (stage : ℕ) (past others : List (List ℕ)) → KeepsPast log.now.shape stage past log.now →
        KeepsPast log.now.shape stage others other.now →
        result ≡ option_map (λ slot. FailedCheck.LogsDiffer post slot) (unlike_place past others) }
{
    let slot = unlike_slot(log, other)?;
    Some(FailedCheck::LogsDiffer { post, slot })
}

// The number of the least slot before a stage in which two logs keep different contents.
fn unlike_slot(log: &StageLog, other: &StageLog) -> Option<u32>
    ensures { (stage : ℕ) (past others : List (List ℕ)) → KeepsPast log.now.shape stage past log.now →
        KeepsPast log.now.shape stage others other.now → result ≡ unlike_place past others }
{
    let slot = compare_logs(log, other)?;
    Some(slot_number(log.shape(), slot))
}

// Whether the replay blames nobody, or another member than the accused.
fn culprit_failure(accused: u8, fault: Option<Fault>) -> Option<FailedCheck>
    ensures { result ≡ culprit_failure accused fault }
{
    match fault {
        None => Some(FailedCheck::Culprit { member: 0 }),
        Some(fault) => {
            if fault.member == accused {
                None
            } else {
                Some(FailedCheck::Culprit {
                    member: fault.member,
                })
            }
        }
    }
}
