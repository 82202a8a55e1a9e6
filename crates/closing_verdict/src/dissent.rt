//! Where all dissent: whom the replay blames.

ghost use Rattle.std.specs.Prelude.{◌≡◌, All, IfOk, false, map};
ghost use Rattle.closing_verdict.specs.Telling.{TellsPart, part_told};

use crate::convicting::Charge;
use crate::judging::{Closing, Judged};
use crate::reading::Told;
use phase_message::{StageKind, stage_kind};
use shuffle_blame::{Shown, replay};
use std::alloc::Global;
use transcript_form::Claim;
use wire_core::Mem;

impl<'a> Closing<'a> {
    ghost use Rattle.std.specs.List.{list_all};
    ghost use Rattle.phase_message.specs.Stages.{kind_of_stage};
    ghost use Rattle.round_spec.specs.Verdict.{shown_at};
    ghost use Rattle.closing_verdict.specs.Closed.{AreTold};
    ghost use Rattle.closing_verdict.specs.Telling.{tells_assent};
    ghost use Rattle.closing_verdict.specs.Judgement.{IsToBeJudged, TellsVerdict, completed_of, stage_closed};

    // What it comes to where all dissent: the replay of the stages before blames a member.
    pub(crate) fn judge_dissent(self, alloc: Global, told: &Vec<Told>) -> Mem<Judged>
        requires closing { IsToBeJudged self }
        requires told { AreTold (completed_of self) told.now.items }
        requires differ { list_all tells_assent told.now.items ≡ false }
        ensures { IfOk result (TellsVerdict (completed_of self.entry)) }
    {
        let shown = self.outer_shown(alloc, told)?;
        let Some(fault) = replay(alloc, self.log, self.stage, self.round, &shown)? else {
            unreachable!()
        };
        let posts = self.closings_sent(alloc)?;
        let charge = Charge::of(Claim::Replay, fault.member, self.round);
        let conviction = charge.shown_by(alloc, posts)?;
        Ok(Judged::Convicts(conviction))
    }

    // What the members show of the outer layers at the end of a shuffle, and nothing elsewhere.
    fn outer_shown(self, alloc: Global, told: &[Told]) -> Mem<Vec<Shown>>
        requires closing { IsToBeJudged self }
        requires told { AreTold (completed_of self) told.now }
        requires differ { list_all tells_assent told.now ≡ false }
        ensures { IfOk result (λ shown. shown.items
            ≡ shown_at (stage_closed (completed_of self.entry)) (kind_of_stage self.entry.log.now.shape self.entry.stage)) }
    {
        match stage_kind(self.roster.shape(), self.stage) {
            Some(StageKind::Final { .. }) => parts_shown(alloc, told),
            _ => Ok(Vec::new(alloc)),
        }
    }
}

// The parts that all members show.
fn parts_shown(alloc: Global, told: &[Told]) -> Mem<Vec<Shown>>
    requires { All TellsPart told.now }
    ensures { IfOk result (λ shown. shown.items ≡ map part_told told.now) }
{
    let mut shown = Vec::with_capacity(alloc, told.len())?;
    for one in told {
        shown.push(part_shown(*one))?;
    }
    Ok(shown)
}

fn part_shown(told: Told) -> Shown
    requires { TellsPart told }
    ensures { result ≡ part_told told }
{
    match told {
        Told::Disputes(shown) => shown,
        _ => unreachable!(),
    }
}
