//! Taking a delivery.

use crate::machine::Machine;
use crate::member::Member;
use member_parts::{Ending, Found, find, shown, slot_of};
use member_spec::{Conduct, Mood, Taken};
use phase_message::{Header, Post};
use signed_post::{Parts, PostRefusal, check_parts, unframed};
use std::alloc::{AllocError, Global};
use wire_core::{List, Mem};

impl Machine {
    ghost use Rattle.std.specs.Prelude.{◌≡◌, ◌≤◌, ◌↔◌, ℕ, List, IfErr, IfOk, IsOk, IsSome, IsTrue, None, length};
    ghost use Rattle.group_roster.specs.Given.{roster_of};
    ghost use Rattle.phase_message.specs.declared.post.TheConstants.{POST_LIMIT};
    ghost use Rattle.phase_message.specs.Stages.{is_slot};
    ghost use Rattle.stage_log.specs.Table.{IsKept, filled, kept_in};
    ghost use Rattle.round_spec.specs.Embedded.{slot_named};
    ghost use Rattle.round_spec.specs.Say.{Configuration};
    ghost use Rattle.member_spec.specs.Actor.{Actor, actor_after, actor_behind_repeat, actor_behind_steps};
    ghost use Rattle.member_spec.specs.Replies.{Replies};
    ghost use Rattle.member_spec.specs.Taking.{LeavesAll, answer_to};
    ghost use Rattle.member_parts.specs.Endings.{IsOpen, IsRunning};
    ghost use Rattle.member_parts.specs.Finding.{verdict_shown};
    ghost use Rattle.member_core.specs.Found.{BlamesBy, IsOfAnother, IsStorable, TakesAs, TellsEnding, answer_behind};
    ghost use Rattle.member_core.specs.Membership.{holdings_of};
    ghost use Rattle.member_core.specs.Shorts.{IsShortLog};
    ghost use Rattle.member_core.specs.Sound.{IsFormed, IsSound};
    ghost use Rattle.member_core.specs.Stands.{StandsFor};

    // Keeps a post in its slot, which is empty.
    fn keep(&mut self, alloc: Global, header: Header, parts: Parts<'_>) -> Mem<()>
        requires speaks { IsTrue (is_slot self.old.log.shape header.stage header.sender) }
        requires empty { kept_in self.old.log (slot_named header) ≡ None }
        requires content { IsKept parts.content.now }
        ensures kept { IfOk result (λ _. self.new ≡ record self.old {
          log = filled self.old.log (slot_named header)
              (record { content = parts.entry.content.now; signature = parts.entry.signature.now });
        }) }
        ensures same { IfErr result (λ _. self.new ≡ self.old) }
    {
        let content = Vec::from_slice(alloc, parts.content)?;
        let signature = Vec::from_slice(alloc, parts.signature)?;
        let post = Post {
            content: List::of(content),
            signature: List::of(signature),
        };
        let _put = self.log.put(slot_of(header), post);
        Ok(())
    }

    // Ends the round with a transcript that a string shows, alone or with the kept post of its slot.
    fn blame(&mut self, alloc: Global, header: Header, bytes: &[u8], found: Found) -> Mem<()>
        requires least { 1 ≤ header.sender }
        requires most { header.sender ≤ 8 }
        requires string { length bytes.now ≤ POST_LIMIT }
        requires short { IsShortLog self.old.seat.number self.old.log }
        requires other { found ≡ Found.Other → IsSome (kept_in self.old.log (slot_named header)) }
        ensures blames { IfOk result (λ _. BlamesBy
            (verdict_shown self.old.seat.round header bytes.now (kept_in self.old.log (slot_named header)) found) self.old self.new) }
        ensures same { IfErr result (λ _. self.new ≡ self.old) }
    {
        let conviction = shown(alloc, &self.log, self.seat.round, header, bytes, found)?;
        self.end(Ending::Blamed(conviction));
        Ok(())
    }

    // Asks again about what was put off.
    #[tactic(none)]
    fn ask_again<C: Conduct>(&mut self, alloc: Global, conduct: &mut C) -> Mem<()>
        requires sound { IsSound self.old }
        requires going { IsOpen self.old.ending }
        ensures formed { IsFormed self.new }
        ensures sound { IfOk result (λ _. IsSound self.new) }
        ensures going { IfOk result (λ _. IsOpen self.new.ending) }
        ensures handed { IfOk result (λ _. self.new.handed ≡ self.old.handed) }
        ensures stands { IfOk result (λ _. (start : Replies) (c : Configuration) (a : Actor) →
            StandsFor (C.replies conduct.old) start c a (holdings_of self.old) →
            StandsFor (C.replies conduct.new) start c (actor_behind_repeat start c a a.mood) (holdings_of self.new)) }
    {
        let Mood::PutOff(bytes) = &self.mood else {
            return Ok(());
        };
        let bytes = Vec::from_slice(alloc, bytes.items())?;
        self.mood = Mood::Unasked;
        self.ask(alloc, conduct, bytes)
    }

    // Keeps a post, asks again, and goes on.
    #[tactic(none)]
    fn store<C: Conduct>(
        &mut self,
        alloc: Global,
        conduct: &mut C,
        header: Header,
        parts: Parts<'_>,
    ) -> Mem<Taken>
        requires sound { IsSound self.old }
        requires going { IsOpen self.old.ending }
        requires post { IsStorable self.old (slot_named header) (record { content = parts.content.now; signature = parts.signature.now }) }
        ensures formed { IsFormed self.new }
        ensures sound { IfOk result (λ _. IsSound self.new) }
        ensures runs { IfOk result (λ _. IsRunning self.new.ending) }
        ensures handed { IfOk result (λ _. self.new.handed ≡ self.old.handed) }
        ensures answer { IfOk result (λ taken. taken ≡ answer_behind self.new.ending) }
        ensures stands { IfOk result (λ _. (start : Replies) (c : Configuration) (a : Actor) →
            StandsFor (C.replies conduct.old) start c a (holdings_of self.old) →
            StandsFor (C.replies conduct.new) start c (actor_behind_steps start c (actor_behind_repeat start c
            (record a { log = filled a.log (slot_named header) (record { content = parts.entry.content.now; signature = parts.entry.signature.now }) })
            a.mood)) (holdings_of self.new)) }
    {
        self.keep(alloc, header, parts)?;
        self.ask_again(alloc, conduct)?;
        self.advance(alloc, conduct)?;
        match &self.ending {
            Ending::Blamed(_) => Ok(Taken::Evidence),
            _ => Ok(Taken::Stored),
        }
    }

    // Takes a checked post of another member.
    #[tactic(none)]
    fn hear<C: Conduct>(
        &mut self,
        alloc: Global,
        conduct: &mut C,
        header: Header,
        parts: Parts<'_>,
        bytes: &[u8],
    ) -> Mem<Taken>
        requires sound { IsSound self.old }
        requires going { IsOpen self.old.ending }
        requires post { IsOfAnother (roster_of self.old.roster) self.old.seat.round self.old.seat.number bytes.now header
            (record { content = parts.content.now; signature = parts.signature.now }) }
        ensures formed { IsFormed self.new }
        ensures sound { IfOk result (λ _. IsSound self.new) }
        ensures runs { IfOk result (λ _. IsRunning self.new.ending) }
        ensures handed { IfOk result (λ _. self.new.handed ≡ self.old.handed) }
        ensures leaves { IfOk result (λ taken. LeavesAll taken → self.new ≡ self.old) }
        ensures conduct { IfOk result (λ taken. LeavesAll taken → conduct.new ≡ conduct.old) }
        ensures ending { IfOk result (λ taken. TellsEnding taken self.new.ending) }
        ensures takes { IfOk result (λ taken. (start : Replies) (c : Configuration) (delivered : List (List ℕ)) →
            StandsFor (C.replies conduct.old) start c (actor_after start c delivered) (holdings_of self.old) →
            TakesAs (C.replies conduct.new) start c delivered bytes.now (holdings_of self.new) taken) }
        ensures idle { (start : Replies) (c : Configuration) (delivered : List (List ℕ)) →
            StandsFor (C.replies conduct.old) start c (actor_after start c delivered) (holdings_of self.old) →
            LeavesAll (answer_to start c (actor_after start c delivered) bytes.now) → IsOk result }
    {
        let found = find(&self.log, self.seat.shape, header, parts.content);
        match found {
            Found::Same => Ok(Taken::Same),
            Found::New => self.store(alloc, conduct, header, parts),
            Found::Malformed | Found::Other => {
                self.blame(alloc, header, bytes, found)?;
                Ok(Taken::Evidence)
            }
        }
    }

    // Takes a byte string.
    #[tactic(none)]
    fn take<C: Conduct>(&mut self, alloc: Global, conduct: &mut C, bytes: &[u8]) -> Mem<Taken>
        requires sound { IsSound self.old }
        requires going { IsOpen self.old.ending }
        ensures formed { IsFormed self.new }
        ensures sound { IfOk result (λ _. IsSound self.new) }
        ensures runs { IfOk result (λ _. IsRunning self.new.ending) }
        ensures handed { IfOk result (λ _. self.new.handed ≡ self.old.handed) }
        ensures leaves { IfOk result (λ taken. LeavesAll taken → self.new ≡ self.old) }
        ensures conduct { IfOk result (λ taken. LeavesAll taken → conduct.new ≡ conduct.old) }
        ensures ending { IfOk result (λ taken. TellsEnding taken self.new.ending) }
        ensures takes { IfOk result (λ taken. (start : Replies) (c : Configuration) (delivered : List (List ℕ)) →
            StandsFor (C.replies conduct.old) start c (actor_after start c delivered) (holdings_of self.old) →
            TakesAs (C.replies conduct.new) start c delivered bytes.now (holdings_of self.new) taken) }
        ensures idle { (start : Replies) (c : Configuration) (delivered : List (List ℕ)) →
            StandsFor (C.replies conduct.old) start c (actor_after start c delivered) (holdings_of self.old) →
            LeavesAll (answer_to start c (actor_after start c delivered) bytes.now) → IsOk result }
    {
        let parts = match unframed(bytes) {
            Ok(parts) => parts,
            Err(at) => return Ok(Taken::Ignored(PostRefusal::Frame { at })),
        };
        let header = match check_parts(&self.roster, self.seat.round, parts) {
            Ok(header) => header,
            Err(refusal) => return Ok(Taken::Ignored(refusal)),
        };
        if header.sender == self.seat.number {
            return Ok(Taken::Own);
        }
        self.hear(alloc, conduct, header, parts, bytes)
    }
}

impl<C: Conduct> Member<C> {
    ghost use Rattle.std.specs.Prelude.{◌≡◌, ◌↔◌, ◌++◌, ◌∷◌, [], ℕ, List, IfOk, IsErr, IsOk};
    ghost use Rattle.round_spec.specs.Say.{Configuration};
    ghost use Rattle.member_spec.specs.Actor.{actor_after};
    ghost use Rattle.member_spec.specs.Replies.{Replies};
    ghost use Rattle.member_spec.specs.Taking.{LeavesAll, answer_to};
    ghost use Rattle.member_parts.specs.Endings.{HasBlamed, HasEnded, IsOpen, IsOutOfMemory, IsRunning};
    ghost use Rattle.member_core.specs.Needs.{HoldsNeeded};
    ghost use Rattle.member_core.specs.Promises.{IsPlainMember, KeepsRun};
    ghost use Rattle.member_core.specs.Stands.{Stands};

    /// Takes a delivered byte string. `Finished` exactly where the round had ended; else `Ignored` exactly where one of the
    /// seven checks before the body refuses it, `Own` where it is a post of the member itself, `Same` where its content is
    /// kept already, and none of these takes memory; `Evidence` where the member comes to blame somebody; else `Stored`.
    /// After it ran out of memory the member is stopped.
    #[tactic(none)]
    pub fn deliver(&mut self, alloc: Global, bytes: &[u8]) -> Mem<Taken>
        ensures stands { IfOk result (λ taken. (start : Replies) (c : Configuration) (delivered : List (List ℕ)) →
            Stands C.replies start c delivered self.old → Stands C.replies start c (delivered ++ bytes.now ∷ []) self.new) }
        ensures plain_member { IfOk result (λ taken. (c : Configuration) (delivered : List (List ℕ)) →
            IsPlainMember C.replies c delivered self.old → IsPlainMember C.replies c (delivered ++ bytes.now ∷ []) self.new) }
        ensures run { IfOk result (λ taken. (c : Configuration) (delivered : List (List ℕ)) →
            IsPlainMember C.replies c delivered self.old → KeepsRun c (delivered ++ bytes.now ∷ []) self.new.holds) }
        ensures answer { IfOk result (λ taken. (start : Replies) (c : Configuration) (delivered : List (List ℕ)) →
            Stands C.replies start c delivered self.old → taken ≡ answer_to start c (actor_after start c delivered) bytes.now) }
        ensures leaves { IfOk result (λ taken. LeavesAll taken → self.new ≡ self.old) }
        ensures handed { IfOk result (λ taken. self.new.holds.handed ≡ self.old.holds.handed) }
        ensures idle { (start : Replies) (c : Configuration) (delivered : List (List ℕ)) → Stands C.replies start c delivered self.old →
            LeavesAll (answer_to start c (actor_after start c delivered) bytes.now) → IsOk result }
        ensures finished { (result ≡ Ok Taken.Finished) ↔ HasEnded self.old.holds.ending }
        ensures evidence { (result ≡ Ok Taken.Evidence) ↔ (IsOpen self.old.holds.ending × HasBlamed self.new.holds.ending) }
        ensures secrets { HoldsNeeded self.new.holds }
        ensures runs { IfOk result (λ _. IsRunning self.new.holds.ending) }
        ensures stopped { IsErr result → IsOutOfMemory self.new.holds.ending }
        ensures stays { IsOutOfMemory self.old.holds.ending → IsErr result }
    {
        match &self.machine.ending {
            Ending::Open => {}
            Ending::Done(_) | Ending::Blamed(_) => return Ok(Taken::Finished),
            Ending::Stopped => return Err(AllocError),
        }
        match self.machine.take(alloc, &mut self.conduct, bytes) {
            Ok(taken) => Ok(taken),
            Err(error) => {
                self.machine.stop();
                Err(error)
            }
        }
    }
}
