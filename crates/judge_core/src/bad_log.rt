//! The claim BadLog: a closing content is not borne out by the posts that it embeds.

ghost use Rattle.group_roster.specs.Given.{roster_of};
ghost use Rattle.std.specs.Prelude.{◌≡◌, ◌<◌, ◌^◌, length, Some, Ok, Err, IfOk};
ghost use Rattle.wire_core.specs.Answers.{Gives};
ghost use Rattle.judge_core.specs.Case.{case_of, said_of};
ghost use Rattle.judge_core.specs.Checks.{WantsMemory, conviction_of, failed_of};
ghost use Rattle.judge_core.specs.Closing.{IsClosingPost, is_justified_in};

use crate::failed_check::{FailedCheck, Unjudged};
use crate::hearing::{Case, Said, take};
use crate::reading::read_content;
use embedded_log::justifying_log;
use std::alloc::Global;
use transcript_form::{Claim, ListedPosts};
use wire_core::Mem;

// Whether one post is a closing post of the accused that is not justified.
pub(crate) fn bad_log(
    alloc: Global,
    case: Case<'_>,
    mut posts: ListedPosts<'_>,
) -> Result<(), Unjudged>
    requires claim { case.claim ≡ Claim.BadLog }
    requires one { length posts ≡ 1 }
    ensures exact { Gives failed_of (λ x. x) result (conviction_of (case_of case.entry) posts.entry) }
    ensures memory { result ≡ Err Unjudged.Memory → WantsMemory (case_of case.entry) posts.entry }
{
    let Some(post) = posts.next() else {
        unreachable!()
    };
    let said = take(case, None, 1, post)?;
    if is_justified(alloc, case, said)? {
        return Err(Unjudged::Failed(FailedCheck::Justified));
    }
    Ok(())
}

// Whether a closing post is justified.
fn is_justified(alloc: Global, case: Case<'_>, said: Said<'_>) -> Mem<bool>
    requires short { length said.content.now < 2 ^ 32 }
    requires closing { IsClosingPost (case_of case) (said_of said) }
    ensures { IfOk result (λ justified. justified ≡ is_justified_in (case_of case.entry) (said_of said.entry)) }
{
    let content = read_content(alloc, case.roster.shape(), said.content)?;
    let log = justifying_log(alloc, case.roster, case.round, &content)?;
    Ok(log.is_some())
}
