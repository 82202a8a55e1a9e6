//! Making the posts that are due.
ghost use Rattle.std.specs.Prelude.{◌≡◌, ◌≤◌, ◌<◌, ◌-◌, ℕ, true, false, List, IfErr, IfOk, Ok, OnOk, length};
ghost use Rattle.round_link.specs.Traffic.{shown_by};
ghost use Rattle.member_run.specs.Begun.{Begun, Going, IsHandedOut, posts_left};
ghost use Rattle.member_run.specs.Ran.{Ran};
ghost use Rattle.member_parts.specs.Endings.{IsRunning};

use crate::run_end::{FRAME_LIMIT, RunEnd};
use member_core::{Conduct, Honest, Member};
use round_link::{Link, LinkAnswer};
use std::alloc::Global;

// All posts that are due are made.
pub(crate) fn hand_out<L: Link>(
    alloc: Global,
    member: &mut Member<Honest>,
    link: &mut L,
) -> Result<(), RunEnd>
    ensures goes_on { OnOk result ((begun : Begun Honest) (frames : List (List ℕ)) →
        Going ⟦<Honest as Conduct>⟧.replies begun frames member.old (shown_by L.faults L.frames L.ends L.told link.old) →
        Going ⟦<Honest as Conduct>⟧.replies begun frames member.new (shown_by L.faults L.frames L.ends L.told link.new)) }
    ensures all { OnOk result (IsHandedOut member.new) }
    ensures runs { OnOk result (IsRunning member.new.holds.ending) }
    ensures err { IfErr result (λ end. (begun : Begun Honest) (frames : List (List ℕ)) → length frames ≤ FRAME_LIMIT →
        Going ⟦<Honest as Conduct>⟧.replies begun frames member.old (shown_by L.faults L.frames L.ends L.told link.old) →
        Ran ⟦<Honest as Conduct>⟧.replies begun.member member.new begun.link (shown_by L.faults L.frames L.ends L.told link.new) end) }
{
    while post_next(alloc, member, link)? {}
    Ok(())
}

// The next post that is due is made, if there is one; `false` where there is none.
fn post_next<L: Link>(
    alloc: Global,
    member: &mut Member<Honest>,
    link: &mut L,
) -> Result<bool, RunEnd>
    ensures goes_on { OnOk result ((begun : Begun Honest) (frames : List (List ℕ)) →
        Going ⟦<Honest as Conduct>⟧.replies begun frames member.old (shown_by L.faults L.frames L.ends L.told link.old) →
        Going ⟦<Honest as Conduct>⟧.replies begun frames member.new (shown_by L.faults L.frames L.ends L.told link.new)) }
    ensures none { result ≡ Ok false → IsHandedOut member.new }
    ensures runs { OnOk result (IsRunning member.new.holds.ending) }
    ensures one { result ≡ Ok true → posts_left member.new < posts_left member.old }
    ensures err { IfErr result (λ end. (begun : Begun Honest) (frames : List (List ℕ)) → length frames ≤ FRAME_LIMIT →
        Going ⟦<Honest as Conduct>⟧.replies begun frames member.old (shown_by L.faults L.frames L.ends L.told link.old) →
        Ran ⟦<Honest as Conduct>⟧.replies begun.member member.new begun.link (shown_by L.faults L.frames L.ends L.told link.new) end) }
{
    let Ok(next) = member.next_post(alloc) else {
        return Err(RunEnd::OutOfMemory);
    };
    let Some(post) = next else {
        return Ok(false);
    };
    match link.post(&post) {
        LinkAnswer::Done => Ok(true),
        LinkAnswer::Failed => Err(RunEnd::LinkFault),
        LinkAnswer::OutOfMemory => Err(RunEnd::OutOfMemory),
    }
}
