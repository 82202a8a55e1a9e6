//! The accusations of pads that the last list of shuffle B opens to.

ghost use Rattle.std.specs.Prelude.{◌≡◌, ◌≤◌, ◌+◌, IfOk, IsTrue, Some};

use crate::convicting::Charge;
use crate::judging::{Closing, Judged};
use accusation::holds;
use honest_say::opened_items;
use phase_message::StageKind;
use std::alloc::Global;
use transcript_form::{Accusation, Claim};
use wire_core::{List, Mem};

impl<'a> Closing<'a> {
    ghost use Rattle.std.specs.Prelude.{map, unwrap_or};
    ghost use Rattle.wire_core.specs.Answers.{first_some};
    ghost use Rattle.phase_message.specs.Stages.{kind_of_stage};
    ghost use Rattle.shuffle_blame.specs.Asked.{past_of};
    ghost use Rattle.round_spec.specs.Slots.{seeds_revealed};
    ghost use Rattle.round_spec.specs.Verdict.{bad_pad, first_bad_pad, Done};
    ghost use Rattle.closing_verdict.specs.Carried.{stage_found};
    ghost use Rattle.closing_verdict.specs.Judgement.{IsToBeJudged, TellsVerdict, completed_of, stage_closed, verdict_in};
    ghost use Rattle.closing_verdict.specs.Telling.{held_by, is_held_at};

    // What the end of shuffle B comes to where all agree and their seeds are those of their keys.
    pub(crate) fn judge_accusations(self, alloc: Global, seeds: &Vec<[u8; 32]>) -> Mem<Judged>
        requires closing { IsToBeJudged self }
        requires at { kind_of_stage self.log.now.shape self.stage ≡ Some (StageKind.Final 2) }
        requires seeds { seeds.now.items ≡ seeds_revealed self.log.now.shape (past_of self.log.now (self.stage + 1)) 2 }
        requires agree { verdict_in (completed_of self) ≡ unwrap_or (first_bad_pad (stage_closed (completed_of self))) Done }
        ensures { IfOk result (TellsVerdict (completed_of self.entry)) }
    {
        let items = opened_items(alloc, self.log, self.stage + 1, 2, seeds)?;
        match self.first_that_holds(&items) {
            Some(accusation) => self.convict_pad(alloc, accusation),
            None => Ok(Judged::Agreed),
        }
    }

    // An accusation holds: the posts of all slots before the pads and the pads of the accused show it.
    fn convict_pad(self, alloc: Global, accusation: Accusation) -> Mem<Judged>
        requires closing { IsToBeJudged self }
        requires late { stage_found self.log.now ≤ self.stage }
        requires held { IsTrue (is_held_at (stage_closed (completed_of self)) accusation) }
        requires verdict { verdict_in (completed_of self) ≡ bad_pad (stage_closed (completed_of self)) accusation }
        ensures { IfOk result (TellsVerdict (completed_of self.entry)) }
    {
        let posts = self.pads_sent(alloc, accusation.member)?;
        let charge = Charge {
            claim: Claim::Pad,
            accused: accusation.member,
            round: self.round,
            detail: Some(accusation),
        };
        let conviction = charge.shown_by(alloc, posts)?;
        Ok(Judged::Convicts(conviction))
    }

    // The first accusation among the items that holds.
    fn first_that_holds(self, items: &[Option<List<u8>>]) -> Option<Accusation>
        requires closing { IsToBeJudged self }
        requires late { stage_found self.log.now ≤ self.stage }
        ensures { result ≡ first_some (map (held_by (stage_closed (completed_of self.entry))) items.now) }
    {
        for item in items {
            if let Some(accusation) = self.accusation_in(item) {
                return Some(accusation);
            }
        }
        None
    }

    // The accusation that an item is, if it is one and it holds.
    fn accusation_in(self, item: &Option<List<u8>>) -> Option<Accusation>
        requires closing { IsToBeJudged self }
        requires late { stage_found self.log.now ≤ self.stage }
        ensures { result ≡ held_by (stage_closed (completed_of self.entry)) item.now }
    {
        let Some(bytes) = item else {
            return None;
        };
        let accusation = Accusation::decode(bytes.items().as_slice())?;
        if self.is_held(&accusation) {
            Some(accusation)
        } else {
            None
        }
    }

    // Whether an accusation holds, by what the slots hold and the members' keys.
    fn is_held(self, accusation: &Accusation) -> bool
        requires closing { IsToBeJudged self }
        requires late { stage_found self.log.now ≤ self.stage }
        ensures { result ≡ is_held_at (stage_closed (completed_of self.entry)) accusation.now }
    {
        let Some(slots) = self.slots else {
            unreachable!()
        };
        let keys = self.keys.bulk.items();
        holds(accusation, slots.descriptors.items(), &slots.pads, keys).is_ok()
    }
}
