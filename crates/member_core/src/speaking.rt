//! Asking the conduct, and posting what it says.

ghost use Rattle.std.specs.Prelude.{◌≡◌, ◌+◌, ◌<◌, ◌≤◌, ◌^◌, IfOk, IsTrue, Some, is_ok, length};
ghost use Rattle.wire_core.specs.Bytes.{IsBytes};
ghost use Rattle.phase_message.specs.declared.post.TheConstants.{LEAST_CONTENT};
ghost use Rattle.phase_message.specs.declared.stage.StageKind.{StageKind as Kind};
ghost use Rattle.phase_message.specs.Grammar.{IsBody, body_text, content_text};
ghost use Rattle.phase_message.specs.Offence.{content_read};
ghost use Rattle.phase_message.specs.Stages.{is_slot, kind_of_stage, shape_of};
ghost use Rattle.stage_log.specs.Log.{view_of};
ghost use Rattle.shuffle_blame.specs.Asked.{past_of};
ghost use Rattle.round_spec.specs.Say.{Configuration};
ghost use Rattle.honest_say.specs.Seats.{header_at};
ghost use Rattle.member_spec.specs.declared.conduct.Speech.TheVariants.{Say as Says};
ghost use Rattle.member_spec.specs.declared.mood.Mood.TheVariants.{Mute, Spoken};
ghost use Rattle.member_spec.specs.Actor.{Actor, actor_behind_answer, actor_behind_question, content_to_say};
ghost use Rattle.member_spec.specs.Replies.{HasSlot, KeepsSlot, Replies};
ghost use Rattle.member_parts.specs.Endings.{IsOpen};
ghost use Rattle.member_parts.specs.Secrets.{no_secrets};
ghost use Rattle.member_core.specs.Asking.{IsDue, IsPlainKind, IsSpeakable, IsToBeAsked, StandsAsked, asked_at, content_here};
ghost use Rattle.member_core.specs.Membership.{holdings_of};
ghost use Rattle.member_core.specs.Needs.{HoldsNeeded};
ghost use Rattle.member_core.specs.Shorts.{own_limit};
ghost use Rattle.member_core.specs.Sound.{IsFormed, IsPutOff, IsReady, IsSound, slot_here};
ghost use Rattle.member_core.specs.Stands.{StandsFor};

use crate::machine::Machine;
use member_spec::{Conduct, Mood, Speech};
use phase_message::{
    Body, Content, Header, Post, Shape, StageKind, encode, first_offence, stage_kind,
};
use std::alloc::Global;
use wire_core::{List, Mem};

impl Machine {
    // Posts bytes: signs them with the next leaf, and keeps the post if they are a content of the grammar.
    #[tactic(none)]
    fn say(&mut self, alloc: Global, bytes: List<u8>) -> Mem<()>
        requires formed { IsFormed self.old }
        requires ready { IsReady self.old }
        requires speakable { IsSpeakable self.old }
        requires slot { KeepsSlot self.old.log.shape (slot_here self.old) bytes }
        requires short { length bytes ≤ own_limit (kind_of_stage self.old.log.shape self.old.stage) }
        ensures formed { IsFormed self.new }
        ensures sound { IfOk result (λ _. IsSound self.new) }
        ensures going { IfOk result (λ _. IsOpen self.new.ending) }
        ensures handed { IfOk result (λ _. self.new.handed ≡ self.old.handed) }
        ensures stands { IfOk result (λ _. (now start : Replies) (c : Configuration) (a : Actor) →
            StandsAsked now start c a (holdings_of self.old) →
            StandsFor now start c (actor_behind_answer c a (Says bytes)) (holdings_of self.new)) }
    {
        let signature = self.leaves.sign(alloc, bytes.items())?;
        let is_content = is_of_grammar(self.seat.shape, bytes.items());
        let post = Post {
            content: bytes,
            signature: List::of(signature),
        };
        if is_content {
            let slot = self.own_slot();
            self.log.put(slot, post);
            self.mood = Mood::Spoken;
        } else {
            self.stray = Some(post);
            self.fall_mute();
        }
        Ok(())
    }

    // Says nothing more.
    fn fall_mute(&mut self)
        ensures { self.new ≡ record self.old { secrets = no_secrets; mood = Mute } }
    {
        self.secrets.end();
        self.mood = Mood::Mute;
    }

    // Asks the conduct about the bytes of a content, and does what it answers.
    #[tactic(none)]
    pub(crate) fn ask<C: Conduct>(
        &mut self,
        alloc: Global,
        conduct: &mut C,
        bytes: Vec<u8>,
    ) -> Mem<()>
        requires formed { IsFormed self.old }
        requires ready { IsReady self.old }
        requires speakable { IsSpeakable self.old }
        requires question { IsPutOff self.old bytes.items }
        ensures formed { IsFormed self.new }
        ensures sound { IfOk result (λ _. IsSound self.new) }
        ensures going { IfOk result (λ _. IsOpen self.new.ending) }
        ensures handed { IfOk result (λ _. self.new.handed ≡ self.old.handed) }
        ensures stands { IfOk result (λ _. (start : Replies) (c : Configuration) (a : Actor) →
            StandsAsked (C.replies conduct.old) start c a (holdings_of self.old) →
            StandsFor (C.replies conduct.new) start c (actor_behind_question start c a bytes.items)
            (holdings_of self.new)) }
    {
        match conduct.content(alloc, self.stage, bytes, &self.log)? {
            Speech::Say(bytes) => self.say(alloc, bytes),
            Speech::Wait(bytes) => {
                self.mood = Mood::PutOff(bytes);
                Ok(())
            }
            Speech::Silent => {
                self.fall_mute();
                Ok(())
            }
        }
    }

    // The header of what it says at the stage that is being filled.
    fn header_here(&self) -> Header
        requires { IsReady self.now }
        ensures { result ≡ header_at self.now.seat self.now.stage
            (view_of self.now.log.shape (past_of self.now.log self.now.stage) self.now.stage) }
    {
        let view = self.seen.view();
        self.seat.header(self.stage, &view)
    }

    // The bytes of a body under that header.
    fn content_of(&self, alloc: Global, body: Body) -> Mem<Vec<u8>>
        requires formed { IsFormed self.now }
        requires ready { IsReady self.now }
        requires speaks { IsTrue (is_slot self.now.log.shape self.now.stage self.now.seat.number) }
        requires fits { IsBody self.now.log.shape self.now.stage body }
        ensures spelled { IfOk result (λ bytes. bytes.items ≡ content_text (content_here self.now body)) }
        ensures slot { IfOk result (λ bytes. HasSlot (slot_here self.now) bytes.items) }
        ensures long { IfOk result (λ bytes. length bytes.items ≡ LEAST_CONTENT + length (body_text body)) }
    {
        let header = self.header_here();
        encode(alloc, self.seat.shape, &Content { header, body })
    }

    // The body that the rules give it to say at a stage of a kind that changes nothing else.
    #[tactic(none)]
    fn row_due(&self, alloc: Global, kind: StageKind) -> Mem<Body>
        requires formed { IsFormed self.now }
        requires ready { IsReady self.now }
        requires needed { HoldsNeeded (holdings_of self.now) }
        requires asked { IsToBeAsked self.now }
        requires kind { kind_of_stage self.now.log.shape self.now.stage ≡ Some kind }
        requires plain { IsPlainKind kind }
        ensures { IfOk result (λ body. (now : Replies) → IsDue now self.now kind body) }
    {
        match kind {
            StageKind::Keys => Ok(self.keys_due()),
            StageKind::Shuffle { shuffle, .. } => self.turn_due(alloc, shuffle),
            StageKind::Go { shuffle } => self.go_due(alloc, shuffle),
            StageKind::Pad => self.pads_due(alloc),
            StageKind::Check => Ok(self.check_due()),
            StageKind::Confirm => self.confirm_due(alloc),
            StageKind::Submit { .. } | StageKind::Final { .. } => unreachable!(),
        }
    }

    // The body that the rules give it to say at the stage that is being filled.
    #[tactic(none)]
    fn body_due<C: Conduct>(&mut self, alloc: Global, conduct: &mut C) -> Mem<Body>
        requires formed { IsFormed self.old }
        requires ready { IsReady self.old }
        requires needed { HoldsNeeded (holdings_of self.old) }
        requires asked { IsToBeAsked self.old }
        ensures formed { IsFormed self.new }
        ensures same { IfOk result (λ _. self.new ≡ record self.old { secrets = self.new.secrets; own = self.new.own }) }
        ensures needed { IfOk result (λ _. HoldsNeeded (asked_at (holdings_of self.new) Spoken)) }
        ensures due { IfOk result (λ body. (kind : Kind) → kind_of_stage self.old.log.shape self.old.stage ≡ Some kind →
            IsDue (C.replies conduct.old) self.old kind body) }
        ensures stands { IfOk result (λ _. (start : Replies) (c : Configuration) (a : Actor) →
            StandsFor (C.replies conduct.old) start c a (holdings_of self.old) →
            StandsAsked (C.replies conduct.new) start c a (holdings_of self.new)) }
    {
        let Some(kind) = stage_kind(self.seat.shape, self.stage) else {
            unreachable!()
        };
        match kind {
            StageKind::Submit { shuffle: 1 } => self.first_submission_due(alloc, conduct),
            StageKind::Submit { .. } => self.second_submission_due(alloc),
            StageKind::Final { shuffle } => self.end_due(alloc, shuffle),
            _ => self.row_due(alloc, kind),
        }
    }

    // Speaks at the stage that is being filled.
    #[tactic(none)]
    pub(crate) fn speak<C: Conduct>(&mut self, alloc: Global, conduct: &mut C) -> Mem<()>
        requires formed { IsFormed self.old }
        requires ready { IsReady self.old }
        requires needed { HoldsNeeded (holdings_of self.old) }
        requires asked { IsToBeAsked self.old }
        ensures formed { IsFormed self.new }
        ensures sound { IfOk result (λ _. IsSound self.new) }
        ensures going { IfOk result (λ _. IsOpen self.new.ending) }
        ensures handed { IfOk result (λ _. self.new.handed ≡ self.old.handed) }
        ensures stands { IfOk result (λ _. (start : Replies) (c : Configuration) (a : Actor) →
            StandsFor (C.replies conduct.old) start c a (holdings_of self.old) →
            StandsFor (C.replies conduct.new) start c (actor_behind_question start c a (content_to_say start c a.stand))
            (holdings_of self.new)) }
    {
        let body = self.body_due(alloc, conduct)?;
        let bytes = self.content_of(alloc, body)?;
        self.ask(alloc, conduct, bytes)
    }
}

// Whether bytes are a content of the grammar.
fn is_of_grammar(shape: Shape, bytes: &[u8]) -> bool
    requires { length bytes.now < 2 ^ 32 }
    ensures value { result ≡ is_ok (content_read (shape_of shape) bytes.now) }
    ensures bytes { IsBytes bytes.now }
{
    first_offence(shape, bytes).is_none()
}
