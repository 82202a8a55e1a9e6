//! The body that the rules give a member to say, by the kind of the stage.

ghost use Rattle.std.specs.Prelude.{◌≡◌, IfOk, Some};
ghost use Rattle.phase_message.specs.declared.stage.StageKind.TheVariants.{Check, Confirm, Final, Go, Keys, Pad, Shuffle};
ghost use Rattle.phase_message.specs.Stages.{kind_of_stage};
ghost use Rattle.round_spec.specs.Say.{Configuration};
ghost use Rattle.member_spec.specs.declared.mood.Mood.TheVariants.{Spoken};
ghost use Rattle.member_spec.specs.Actor.{Actor};
ghost use Rattle.member_spec.specs.Replies.{Replies};
ghost use Rattle.member_core.specs.Asking.{IsDue, IsToBeAsked, StandsAsked, asked_at};
ghost use Rattle.member_core.specs.Membership.{holdings_of};
ghost use Rattle.member_core.specs.Needs.{HoldsNeeded};
ghost use Rattle.member_core.specs.Sound.{IsFormed, IsReady};
ghost use Rattle.member_core.specs.Stands.{StandsFor};

use crate::machine::Machine;
use honest_say::{check_body, confirm_body, final_body, go_body, keys_body, pads_body, turn_body};
use phase_message::Body;
use std::alloc::Global;
use wire_core::Mem;

impl Machine {
    // Its five keys.
    #[tactic(none)]
    pub(crate) fn keys_due(&self) -> Body
        requires formed { IsFormed self.now }
        requires ready { IsReady self.now }
        requires needed { HoldsNeeded (holdings_of self.now) }
        requires asked { IsToBeAsked self.now }
        requires kind { kind_of_stage self.now.log.shape self.now.stage ≡ Some Keys }
        ensures { (now : Replies) → IsDue now self.now Keys result }
    {
        let Some(first) = &self.secrets.first else {
            unreachable!()
        };
        let Some(bulk) = &self.secrets.bulk else {
            unreachable!()
        };
        let Some(second) = &self.secrets.second else {
            unreachable!()
        };
        keys_body(first, bulk, second)
    }

    // Its turn of a shuffle.
    #[tactic(none)]
    pub(crate) fn turn_due(&self, alloc: Global, shuffle: u8) -> Mem<Body>
        requires formed { IsFormed self.now }
        requires ready { IsReady self.now }
        requires needed { HoldsNeeded (holdings_of self.now) }
        requires asked { IsToBeAsked self.now }
        requires kind { kind_of_stage self.now.log.shape self.now.stage ≡ Some (Shuffle shuffle self.now.seat.number) }
        ensures { IfOk result (λ body. (now : Replies) → IsDue now self.now (Shuffle shuffle self.now.seat.number) body) }
    {
        let secrets = self.secrets.of_shuffle(shuffle);
        turn_body(alloc, &self.seat, &self.log, secrets, shuffle)
    }

    // Its vote on a shuffle.
    #[tactic(none)]
    pub(crate) fn go_due(&self, alloc: Global, shuffle: u8) -> Mem<Body>
        requires formed { IsFormed self.now }
        requires ready { IsReady self.now }
        requires asked { IsToBeAsked self.now }
        requires kind { kind_of_stage self.now.log.shape self.now.stage ≡ Some (Go shuffle) }
        ensures { IfOk result (λ body. (now : Replies) → IsDue now self.now (Go shuffle) body) }
    {
        let own = self.own.inner_ciphertext.items().as_slice();
        go_body(alloc, &self.log, shuffle, self.seen.all_right(), own)
    }

    // The end of a shuffle, which takes its secrets.
    #[tactic(none)]
    pub(crate) fn end_due(&mut self, alloc: Global, shuffle: u8) -> Mem<Body>
        requires formed { IsFormed self.old }
        requires ready { IsReady self.old }
        requires needed { HoldsNeeded (holdings_of self.old) }
        requires asked { IsToBeAsked self.old }
        requires kind { kind_of_stage self.old.log.shape self.old.stage ≡ Some (Final shuffle) }
        ensures formed { IsFormed self.new }
        ensures same { self.new ≡ record self.old { secrets = self.new.secrets } }
        ensures needed { IfOk result (λ _. HoldsNeeded (asked_at (holdings_of self.new) Spoken)) }
        ensures due { IfOk result (λ body. (now : Replies) → IsDue now self.old (Final shuffle) body) }
        ensures stands { IfOk result (λ _. (now start : Replies) (c : Configuration) (a : Actor) →
            StandsFor now start c a (holdings_of self.old) → StandsAsked now start c a (holdings_of self.new)) }
    {
        let Some(secrets) = self.secrets.take_shuffle(shuffle) else {
            unreachable!()
        };
        final_body(alloc, &self.log, secrets, shuffle)
    }

    // Its pads.
    #[tactic(none)]
    pub(crate) fn pads_due(&self, alloc: Global) -> Mem<Body>
        requires formed { IsFormed self.now }
        requires ready { IsReady self.now }
        requires needed { HoldsNeeded (holdings_of self.now) }
        requires asked { IsToBeAsked self.now }
        requires kind { kind_of_stage self.now.log.shape self.now.stage ≡ Some Pad }
        ensures { IfOk result (λ body. (now : Replies) → IsDue now self.now Pad body) }
    {
        let Some(bulk) = &self.secrets.bulk else {
            unreachable!()
        };
        let Some(opened) = &self.opened else {
            unreachable!()
        };
        let own = self.own.descriptor.items();
        let pad = self.own.pad.items();
        pads_body(alloc, &self.seat, bulk, own, pad, opened)
    }

    // Its vote on what was seen.
    #[tactic(none)]
    pub(crate) fn check_due(&self) -> Body
        requires formed { IsFormed self.now }
        requires ready { IsReady self.now }
        requires asked { IsToBeAsked self.now }
        requires kind { kind_of_stage self.now.log.shape self.now.stage ≡ Some Check }
        ensures { (now : Replies) → IsDue now self.now Check result }
    {
        check_body(&self.log, self.stage, self.seen.all_right())
    }

    // What closes the votes on what was seen.
    #[tactic(none)]
    pub(crate) fn confirm_due(&self, alloc: Global) -> Mem<Body>
        requires formed { IsFormed self.now }
        requires ready { IsReady self.now }
        requires asked { IsToBeAsked self.now }
        requires kind { kind_of_stage self.now.log.shape self.now.stage ≡ Some Confirm }
        ensures { IfOk result (λ body. (now : Replies) → IsDue now self.now Confirm body) }
    {
        confirm_body(alloc, &self.log)
    }
}
