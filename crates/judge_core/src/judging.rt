//! The judge of transcripts: whoever reads one comes to the same answer.

ghost use Rattle.group_roster.specs.Given.{roster_of};
ghost use Rattle.std.specs.Prelude.{◌≡◌, ◌<◌, ◌^◌, ℕ, List, length, Some, Ok, Err, IfOk, is_ok};
ghost use Rattle.wire_core.specs.Answers.{Gives};
ghost use Rattle.phase_message.specs.Offence.{content_read};
ghost use Rattle.phase_message.specs.Stages.{shape_of};
ghost use Rattle.group_roster.specs.Roster.{shape_of_roster};
ghost use Rattle.transcript_form.specs.Claim.{claim_posts};
ghost use Rattle.transcript_form.specs.Refusals.{failure_of_refusal};
ghost use Rattle.conviction.specs.Accepts.{Accepts};
ghost use Rattle.conviction.specs.Framing.{HasNoHonestRun, NoRunsSaid};
ghost use Rattle.judge_core.specs.Checks.{JudgingWantsMemory, WantsMemory, conviction_of, failed_of, judgement_of, printed_judgement_of};
ghost use Rattle.judge_core.specs.Case.{case_of};

use crate::bad_log::bad_log;
use crate::failed_check::{FailedCheck, Unjudged};
use crate::hearing::{Case, hear};
use crate::pad::pad;
use crate::replaying::replaying;
use crate::wrong_seed::wrong_seed;
use group_roster::Roster;
use phase_message::{Shape, first_offence};
use std::alloc::Global;
use transcript_form::{Claim, ListedPosts, Refused, read_listed};

/// What a transcript shows.
#[derive(Clone, Copy, Debug, PartialEq, Eq)]
pub struct Accepted {
    /// The member's number, from 1.
    pub accused: u8,
    pub claim: Claim,
}

/// Whom the bytes of a transcript convict under a roster, and of what. `Check` names the first check
/// that they fail, as `FailedCheck` has them. Nothing of the bytes is copied before all listed posts pass the checks
/// 1 to 7, and out of memory hides none of these; in Equivocation, Malformed and WrongSeed it never comes.
///
/// It stands on no premise: what convicts is accepted, whoever wrote it down, and nothing else is. A
/// member that follows the rules is not convicted, unless its signature was forged or two hashed strings collide.
pub fn judge(alloc: Global, roster: &Roster, bytes: &[u8]) -> Result<Accepted, Refused>
    requires few { length bytes.now < 2 ^ 32 }
    ensures exact { Gives failure_of_refusal (λ a. a) result (printed_judgement_of (roster_of roster.now) bytes.now) }
    ensures memory { result ≡ Err Refused.Memory → JudgingWantsMemory (roster_of roster.now) bytes.now }

    // What is accepted convicts, and what convicts is accepted, unless memory runs out.
    ensures accepted { IfOk result (λ a. Accepts (roster_of roster.now) bytes.now a.accused a.claim) }
    ensures only { (accused : ℕ) (claim : Claim) → Accepts (roster_of roster.now) bytes.now accused claim →
        Gives failure_of_refusal (λ a. a) result (Ok record { accused = accused; claim = claim }) }

    // Nobody honest is accused: no honest run is of the accused, unless a signature was forged or two hashed strings collide;
    // and no honest runs said what is listed of it, unless two hashed strings collide.
    ensures honest { IfOk result (λ a. HasNoHonestRun (roster_of roster.now) bytes.now a.accused) }
    ensures no_framing { IfOk result (λ a. NoRunsSaid (roster_of roster.now) bytes.now a.accused) }
{
    match judgement(alloc, roster, bytes) {
        Ok(accepted) => Ok(accepted),
        Err(Unjudged::Failed(failed)) => Err(Refused::from(failed)),
        Err(Unjudged::Memory) => Err(Refused::Memory),
    }
}

#[tactic(auto, unfolding(crate::specs::Checks::judgement_of))]
fn judgement(alloc: Global, roster: &Roster, bytes: &[u8]) -> Result<Accepted, Unjudged>
    requires few { length bytes.now < 2 ^ 32 }
    ensures exact { Gives failed_of (λ a. a) result (judgement_of (roster_of roster.now) bytes.now) }
    ensures memory { result ≡ Err Unjudged.Memory → JudgingWantsMemory (roster_of roster.now) bytes.now }
{
    let listed = read_listed(roster.shape(), bytes)?;
    let case = Case {
        roster,
        claim: listed.claim,
        accused: listed.accused,
        round: listed.round,
        detail: listed.detail,
    };
    convict(alloc, case, listed.posts)?;
    Ok(Accepted {
        accused: listed.accused,
        claim: listed.claim,
    })
}

// Whether the listed posts are what the claim asks.
fn convict(alloc: Global, case: Case<'_>, posts: ListedPosts<'_>) -> Result<(), Unjudged>
    requires count { length posts ≡ claim_posts (shape_of_roster (roster_of case.roster.now)) case.claim }
    ensures exact { Gives failed_of (λ x. x) result (conviction_of (case_of case.entry) posts.entry) }
    ensures memory { result ≡ Err Unjudged.Memory → WantsMemory (case_of case.entry) posts.entry }
{
    match case.claim {
        Claim::Equivocation => Ok(equivocation(case, posts)?),
        Claim::Malformed => Ok(malformed(case, posts)?),
        Claim::WrongSeed => Ok(wrong_seed(case, posts)?),
        Claim::BadLog => bad_log(alloc, case, posts),
        Claim::Replay => replaying(alloc, case, posts),
        Claim::Pad => pad(alloc, case, posts),
    }
}

// Whether two posts are of the accused, in one slot, and of different contents.
fn equivocation(case: Case<'_>, mut posts: ListedPosts<'_>) -> Result<(), FailedCheck>
    requires claim { case.claim ≡ Claim.Equivocation }
    requires two { length posts ≡ 2 }
    ensures { Gives (λ e. Some e) (λ x. x) result (conviction_of (case_of case.entry) posts.entry) }
{
    let (Some(first_post), Some(second_post)) = (posts.next(), posts.next()) else {
        unreachable!()
    };
    let first = hear(case, None, 1, first_post)?;
    let second = hear(case, Some(first.header), 2, second_post)?;
    if first.content == second.content {
        return Err(FailedCheck::Same);
    }
    Ok(())
}

// Whether one post is of the accused, and of a content outside the grammar.
fn malformed(case: Case<'_>, mut posts: ListedPosts<'_>) -> Result<(), FailedCheck>
    requires claim { case.claim ≡ Claim.Malformed }
    requires one { length posts ≡ 1 }
    ensures { Gives (λ e. Some e) (λ x. x) result (conviction_of (case_of case.entry) posts.entry) }
{
    let Some(post) = posts.next() else {
        unreachable!()
    };
    let said = hear(case, None, 1, post)?;
    if is_well_formed(case.roster.shape(), said.content) {
        return Err(FailedCheck::WellFormed);
    }
    Ok(())
}

// Whether a content is of the grammar.
fn is_well_formed(shape: Shape, content: &[u8]) -> bool
    requires { length content.now < 2 ^ 32 }
    ensures { result ≡ is_ok (content_read (shape_of shape) content.now) }
{
    first_offence(shape, content).is_none()
}
