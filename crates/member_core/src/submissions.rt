//! What a member submits to the shuffles: its descriptor, and what it accuses of.

ghost use Rattle.std.specs.Prelude.{◌≡◌, ◌≤◌, ◌<◌, ◌+◌, ◌*◌, IfOk, IsSome, List, Some, length, ℕ};
ghost use Rattle.phase_message.specs.declared.post.TheConstants.{POST_LIMIT};
ghost use Rattle.phase_message.specs.declared.stage.StageKind.TheVariants.{Submit};
ghost use Rattle.phase_message.specs.Stages.{kind_of_stage};
ghost use Rattle.bulk_descriptor.specs.Descriptor.{descriptor_text, own_pad};
ghost use Rattle.shuffle_blame.specs.Asked.{past_of};
ghost use Rattle.round_spec.specs.Slots.{submit_stage};
ghost use Rattle.round_spec.specs.Say.{Configuration, own_description, own_item, own_pad_seeds, own_submission};
ghost use Rattle.honest_say.specs.Seats.{IsSeatOf};
ghost use Rattle.member_spec.specs.declared.mood.Mood.TheVariants.{Spoken};
ghost use Rattle.member_spec.specs.Actor.{Actor};
ghost use Rattle.member_spec.specs.Replies.{Replies};
ghost use Rattle.member_parts.specs.Secrets.{AreSecretsOf, shuffle_secrets};
ghost use Rattle.member_core.specs.Asking.{IsDue, IsToBeAsked, StandsAsked, asked_at};
ghost use Rattle.member_core.specs.Membership.{holdings_of};
ghost use Rattle.member_core.specs.Needs.{HoldsNeeded};
ghost use Rattle.member_core.specs.Sound.{IsFormed, IsReady};
ghost use Rattle.member_core.specs.Stands.{StandsFor};

use crate::machine::Machine;
use bulk_descriptor::Made;
use honest_say::{accusation_item, make_descriptor, submit};
use member_parts::Own;
use member_spec::Conduct;
use phase_message::Body;
use shuffle_core::Submission;
use std::alloc::Global;
use wire_core::{List, Mem};

impl Machine {
    // The submission to shuffle A, for which the conduct is asked about the descriptor.
    #[tactic(none)]
    pub(crate) fn first_submission_due<C: Conduct>(
        &mut self,
        alloc: Global,
        conduct: &mut C,
    ) -> Mem<Body>
        requires formed { IsFormed self.old }
        requires ready { IsReady self.old }
        requires needed { HoldsNeeded (holdings_of self.old) }
        requires asked { IsToBeAsked self.old }
        requires kind { kind_of_stage self.old.log.shape self.old.stage ≡ Some (Submit 1) }
        ensures formed { IsFormed self.new }
        ensures same { self.new ≡ record self.old { own = self.new.own } }
        ensures needed { IfOk result (λ _. HoldsNeeded (asked_at (holdings_of self.new) Spoken)) }
        ensures due { IfOk result (λ body. IsDue (C.replies conduct.old) self.old (Submit 1) body) }
        ensures stands { IfOk result (λ _. (start : Replies) (c : Configuration) (a : Actor) →
            StandsFor (C.replies conduct.old) start c a (holdings_of self.old) →
            StandsAsked (C.replies conduct.new) start c a (holdings_of self.new)) }
    {
        let (descriptor, pad) = self.descriptor_due(alloc, conduct)?;
        let submission = self.submission_of(alloc, 1, descriptor.items())?;
        let Submission {
            inner_ciphertext,
            ciphertext,
        } = submission;
        self.own = Own {
            descriptor,
            pad,
            inner_ciphertext,
        };
        Ok(Body::Submit { ciphertext })
    }

    // The bytes of the descriptor that the conduct makes of its own one, and the pad that it sends itself.
    #[tactic(none)]
    fn descriptor_due<C: Conduct>(
        &self,
        alloc: Global,
        conduct: &mut C,
    ) -> Mem<(List<u8>, List<u8>)>
        requires formed { IsFormed self.now }
        requires ready { IsReady self.now }
        requires behind { 1 ≤ self.now.stage }
        requires held { IsSome self.now.secrets.bulk }
        ensures long { IfOk result (λ made. length made.0 ≡ 36 + 2272 * self.now.log.shape.members) }
        ensures told { IfOk result (λ made. (c : Configuration) → IsSeatOf c self.now.seat → AreSecretsOf c self.now.secrets →
            self.now.message ≡ c.message → made.0 ≡ descriptor_text ((C.replies conduct.old).descriptor
            (own_description c (past_of self.now.log self.now.stage)))) }
        ensures pad { IfOk result (λ made. (c : Configuration) → IsSeatOf c self.now.seat → AreSecretsOf c self.now.secrets →
            self.now.message ≡ c.message → made.1 ≡ own_pad (own_pad_seeds c) c.number c.message) }
        ensures then { IfOk result (λ _. (c : Configuration) → IsSeatOf c self.now.seat → AreSecretsOf c self.now.secrets →
            self.now.message ≡ c.message → (C.replies conduct.new).speech ≡ (C.replies conduct.old).speech_after
            (own_description c (past_of self.now.log self.now.stage))) }
    {
        let Some(keys) = &self.keys else {
            unreachable!()
        };
        let Some(bulk) = &self.secrets.bulk else {
            unreachable!()
        };
        let message = self.message.items();
        let made = make_descriptor(alloc, &self.seat, keys.bulk.items(), bulk, message)?;
        let Made {
            descriptor,
            own_pad,
        } = made;
        let descriptor = conduct.descriptor(alloc, descriptor)?;
        let bytes = descriptor.encode(alloc)?;
        Ok((List::of(bytes), own_pad))
    }

    // An item as it submits it to a shuffle.
    #[tactic(none)]
    fn submission_of(&self, alloc: Global, shuffle: u8, item: &[u8]) -> Mem<Submission>
        requires formed { IsFormed self.now }
        requires ready { IsReady self.now }
        requires behind { 1 ≤ self.now.stage }
        requires first { 1 ≤ shuffle }
        requires last { shuffle ≤ 2 }
        requires held { IsSome (shuffle_secrets self.now.secrets shuffle) }
        requires short { length item.now < POST_LIMIT }
        ensures { IfOk result (λ submission. (c : Configuration) (own : List ℕ) → IsSeatOf c self.now.seat →
            AreSecretsOf c self.now.secrets → item.now ≡ own_item c own (past_of self.now.log self.now.stage) shuffle →
            submission ≡ own_submission c own (past_of self.now.log self.now.stage) shuffle) }
    {
        let Some(keys) = &self.keys else {
            unreachable!()
        };
        let secrets = self.secrets.of_shuffle(shuffle);
        if shuffle == 1 {
            submit(alloc, &self.seat, secrets, &keys.first, shuffle, item)
        } else {
            submit(alloc, &self.seat, secrets, &keys.second, shuffle, item)
        }
    }

    // The submission to shuffle B, behind which the secrets of the messages are not needed any more.
    #[tactic(none)]
    pub(crate) fn second_submission_due(&mut self, alloc: Global) -> Mem<Body>
        requires formed { IsFormed self.old }
        requires ready { IsReady self.old }
        requires needed { HoldsNeeded (holdings_of self.old) }
        requires asked { IsToBeAsked self.old }
        requires kind { kind_of_stage self.old.log.shape self.old.stage ≡ Some (Submit 2) }
        ensures formed { IsFormed self.new }
        ensures same { self.new ≡ record self.old { secrets = self.new.secrets; own = self.new.own } }
        ensures needed { IfOk result (λ _. HoldsNeeded (asked_at (holdings_of self.new) Spoken)) }
        ensures due { IfOk result (λ body. (now : Replies) → IsDue now self.old (Submit 2) body) }
        ensures stands { IfOk result (λ _. (now start : Replies) (c : Configuration) (a : Actor) →
            StandsFor now start c a (holdings_of self.old) → StandsAsked now start c a (holdings_of self.new)) }
    {
        let item = self.accusation_due();
        let submission = self.submission_of(alloc, 2, &item)?;
        let Submission {
            inner_ciphertext,
            ciphertext,
        } = submission;
        self.own.inner_ciphertext = inner_ciphertext;
        self.secrets.end_bulk();
        Ok(Body::Submit { ciphertext })
    }

    // What it accuses of.
    #[tactic(none)]
    fn accusation_due(&self) -> [u8; 34]
        requires formed { IsFormed self.now }
        requires ready { IsReady self.now }
        requires stage { self.now.stage ≡ submit_stage self.now.log.shape 2 }
        requires held { IsSome self.now.secrets.bulk }
        ensures { (c : Configuration) → IsSeatOf c self.now.seat → AreSecretsOf c self.now.secrets →
            result ≡ own_item c self.now.own.descriptor (past_of self.now.log self.now.stage) 2 }
    {
        let Some(opened) = &self.opened else {
            unreachable!()
        };
        let Some(slots) = &self.slots else {
            unreachable!()
        };
        let Some(bulk) = &self.secrets.bulk else {
            unreachable!()
        };
        let own = self.own.descriptor.items();
        accusation_item(own, opened, slots.states.items(), bulk)
    }
}
