//! Going on from stage to stage.

ghost use Rattle.std.specs.Prelude.{◌≡◌};
ghost use Rattle.std.specs.List.{list_any};
ghost use Rattle.round_spec.specs.Verdict.{is_bad};

use crate::machine::Machine;
use bulk_descriptor::SlotState;
use closing_verdict::{Closing, Judged};
use honest_say::{GroupKeys, Slots};
use member_parts::Ending;
use member_spec::{Conduct, Mood};
use phase_message::{StageKind, is_slot, stage_kind};
use std::alloc::Global;
use wire_core::{List, Mem};

impl Machine {
    ghost use Rattle.std.specs.Prelude.{◌≡◌, ◌<◌, ◌+◌, IfOk, IsSome, None, Some, option_map, true};
    ghost use Rattle.phase_message.specs.Stages.{shape_of};
    ghost use Rattle.stage_log.specs.Log.{before};
    ghost use Rattle.stage_log.specs.Seen.{HasSeen};
    ghost use Rattle.go_nogo.specs.Stands.{StandAll};
    ghost use Rattle.shuffle_blame.specs.Asked.{past_of};
    ghost use Rattle.round_spec.specs.Say.{Configuration};
    ghost use Rattle.round_spec.specs.Verdict.{is_closing};
    ghost use Rattle.closing_verdict.specs.Judgement.{TellsVerdict};
    ghost use Rattle.member_spec.specs.Actor.{Actor, actor_behind_step, actor_behind_steps};
    ghost use Rattle.member_spec.specs.Replies.{Replies};
    ghost use Rattle.member_parts.specs.Endings.{IsOpen, IsRunning};
    ghost use Rattle.member_core.specs.Concluding.{HasSlotsFor, is_due_by, is_filled, machine_behind, machine_by, machine_done, machine_with_slots};
    ghost use Rattle.member_core.specs.Membership.{completed_of, holdings_of};
    ghost use Rattle.member_core.specs.Sound.{CarriesKeys, IsFormed, IsReady, IsSound};
    ghost use Rattle.member_core.specs.Stands.{StandsFor};

    // Whether the stage that is being filled is one of the round, and all its posts are there.
    fn is_stage_complete(&self) -> bool
        ensures { result ≡ is_filled self.now }
    {
        self.stage < self.stage_count() && self.log.complete(self.stage)
    }

    // Whether it is to be asked: it speaks at the stage that is being filled, and was not asked there yet.
    fn is_due(&self) -> bool
        ensures { result ≡ is_due_by self.now self.now.mood }
    {
        match &self.mood {
            Mood::Unasked => is_slot(self.seat.shape, self.own_slot()),
            _ => false,
        }
    }

    // Whether the stage that is being filled is a closing one.
    fn is_closing(&self) -> bool
        ensures { result ≡ is_closing (shape_of self.now.seat.shape) self.now.stage }
    {
        matches!(
            stage_kind(self.seat.shape, self.stage),
            Some(StageKind::Final { .. } | StageKind::Confirm)
        )
    }

    // What the stage that is being filled comes to, which is complete.
    fn judge(&self, alloc: Global) -> Mem<Judged>
        requires formed { IsFormed self.now }
        requires ready { IsReady self.now }
        requires there { IsSome (before self.now.log (self.now.stage + 1)) }
        ensures { IfOk result (TellsVerdict (completed_of (holdings_of self.now))) }
    {
        if !self.is_closing() {
            return Ok(Judged::Goes);
        }
        let Some(keys) = &self.keys else {
            unreachable!()
        };
        let closing = Closing {
            roster: &self.roster,
            round: self.seat.round,
            log: &self.log,
            stage: self.stage,
            keys,
            opened: self.opened.as_ref(),
            slots: self.slots.as_ref(),
        };
        closing.judge(alloc)
    }

    // Reads the keys that all members said, once their stage is complete.
    fn carry_keys(&mut self, alloc: Global) -> Mem<()>
        requires stand { StandAll self.old.log }
        requires there { IsSome (before self.old.log (self.old.stage + 1)) }
        ensures same { self.new ≡ record self.old { keys = self.new.keys } }
        ensures keys { IfOk result (λ _. CarriesKeys self.old.log self.old.stage self.old.keys →
            CarriesKeys self.old.log (self.old.stage + 1) self.new.keys) }
    {
        if self.stage == 0 {
            let keys = GroupKeys::said(alloc, &self.log, 1)?;
            self.keys = Some(keys);
        }
        Ok(())
    }

    // Goes on to the next stage.
    fn go_on(&mut self)
        requires there { IsSome (before self.old.log (self.old.stage + 1)) }
        requires inside { self.old.stage < 255 }
        ensures same { self.new ≡ machine_behind self.old self.new.seen }
        ensures seen { HasSeen self.old.log.shape (past_of self.old.log self.old.stage) self.old.stage self.old.seen →
            HasSeen self.old.log.shape (past_of self.old.log (self.old.stage + 1)) (self.old.stage + 1) self.new.seen }
    {
        self.seen.pass(&self.log, self.stage);
        self.stage += 1;
        self.mood = Mood::Unasked;
    }

    // Takes what the stage that was passed came to.
    fn conclude(&mut self, judged: Judged)
        requires { HasSlotsFor judged self.old.slots }
        ensures { self.new ≡ machine_by self.old judged }
    {
        match judged {
            Judged::Goes => {}
            Judged::Opens(opened) => self.opened = Some(opened),
            Judged::Finds(slots) => self.find_slots(slots),
            Judged::Agreed => self.settle(),
            Judged::Convicts(conviction) => self.end(Ending::Blamed(conviction)),
        }
    }

    // Takes what the slots come to: the round is done, unless one is bad.
    fn find_slots(&mut self, slots: Slots)
        ensures { self.new ≡ machine_with_slots self.old slots }
    {
        let is_done = !has_bad(slots.states.items());
        self.slots = Some(slots);
        if is_done {
            self.settle();
        }
    }

    // The round is done.
    fn settle(&mut self)
        requires { IsSome self.old.slots }
        ensures { self.new ≡ machine_done self.old self.old.slots }
    {
        let states = self.take_states();
        self.end(Ending::Done(states));
    }

    // The states of the slots, which it carries no longer.
    fn take_states(&mut self) -> List<SlotState>
        requires { IsSome self.old.slots }
        ensures states { option_map (λ slots. slots.states) self.old.slots ≡ Some result }
        ensures left { self.new ≡ record self.old { slots = None } }
    {
        let Some(slots) = self.slots.take() else {
            unreachable!()
        };
        let Slots {
            descriptors: _,
            pads: _,
            states,
        } = slots;
        states
    }

    // Passes the stage that is being filled, which is complete.
    fn pass(&mut self, alloc: Global) -> Mem<()>
        requires sound { IsSound self.old }
        requires open { IsOpen self.old.ending }
        requires filled { is_filled self.old ≡ true }
        ensures formed { IsFormed self.new }
        ensures sound { IfOk result (λ _. IsSound self.new) }
        ensures runs { IfOk result (λ _. IsRunning self.new.ending) }
        ensures handed { IfOk result (λ _. self.new.handed ≡ self.old.handed) }
        ensures stands { IfOk result (λ _. (now start : Replies) (c : Configuration) (a : Actor) →
            StandsFor now start c a (holdings_of self.old) →
            StandsFor now start c (actor_behind_step start c a) (holdings_of self.new)) }
    {
        let judged = self.judge(alloc)?;
        self.carry_keys(alloc)?;
        self.go_on();
        self.conclude(judged);
        Ok(())
    }

    // One step: a complete stage is passed; where it is not complete, the member speaks if it is to be asked.
    fn turn<C: Conduct>(&mut self, alloc: Global, conduct: &mut C) -> Mem<()>
        requires sound { IsSound self.old }
        requires running { IsRunning self.old.ending }
        ensures formed { IsFormed self.new }
        ensures sound { IfOk result (λ _. IsSound self.new) }
        ensures runs { IfOk result (λ _. IsRunning self.new.ending) }
        ensures handed { IfOk result (λ _. self.new.handed ≡ self.old.handed) }
        ensures stands { IfOk result (λ _. (start : Replies) (c : Configuration) (a : Actor) →
            StandsFor (C.replies conduct.old) start c a (holdings_of self.old) →
            StandsFor (C.replies conduct.new) start c (actor_behind_step start c a) (holdings_of self.new)) }
    {
        if !self.ending.is_open() {
            return Ok(());
        }
        if self.is_stage_complete() {
            return self.pass(alloc);
        }
        if self.is_due() {
            return self.speak(alloc, conduct);
        }
        Ok(())
    }

    // All steps that there can be.
    pub(crate) fn advance<C: Conduct>(&mut self, alloc: Global, conduct: &mut C) -> Mem<()>
        requires sound { IsSound self.old }
        requires running { IsRunning self.old.ending }
        ensures formed { IsFormed self.new }
        ensures sound { IfOk result (λ _. IsSound self.new) }
        ensures runs { IfOk result (λ _. IsRunning self.new.ending) }
        ensures handed { IfOk result (λ _. self.new.handed ≡ self.old.handed) }
        ensures stands { IfOk result (λ _. (start : Replies) (c : Configuration) (a : Actor) →
            StandsFor (C.replies conduct.old) start c a (holdings_of self.old) →
            StandsFor (C.replies conduct.new) start c (actor_behind_steps start c a) (holdings_of self.new)) }
    {
        for _ in 0..2 * self.stage_count() {
            self.turn(alloc, conduct)?;
        }
        Ok(())
    }
}

// Whether a pad that was sent for a slot does not fit.
fn has_bad(states: &Vec<SlotState>) -> bool
    ensures { result ≡ list_any is_bad states.now.items }
{
    states
        .iter()
        .any(|state| matches!(state, SlotState::Bad { .. }))
}
