//! The calls of a member.

use crate::machine::Machine;
use bulk_descriptor::SlotState;
use lms_tree::LeafRun;
use member_parts::{Config, Ending};
use member_spec::{Conduct, State};
use signed_post::write;
use std::alloc::{AllocError, Global};
use std::marker::Model;
use wire_core::Mem;

/// A member of a group in a round, with its conduct. It can be neither copied nor dropped: it is closed.
pub struct Member<C: Conduct> {
    pub(crate) machine: Machine,
    pub(crate) conduct: C,
}

impl<C: Conduct> Model for Member<C> {
    ghost use Rattle.member_core.specs.Membership.{Membership, holdings_of};
    ghost use Rattle.member_core.specs.Sound.{IsSound};

    ghost Value = { Membership C };

    ghost view = { λ m. record { holds = holdings_of m.machine; conduct = m.conduct } };

    ghost invariant = { λ m. IsSound m.machine };
}

impl<C: Conduct> Member<C> {
    ghost use Rattle.std.specs.Prelude.{◌≡◌, ◌≤◌, ◌↔◌, ℕ, List, [], IfOk, IfSome, IsErr, None, Some, length, option_map, slice_get};
    ghost use Rattle.bulk_descriptor.specs.declared.making.TheConstants.{MESSAGE_LIMIT};
    ghost use Rattle.phase_message.specs.Post.{post_spelling};
    ghost use Rattle.round_spec.specs.Result.{posts_of, result_of};
    ghost use Rattle.round_spec.specs.Runs.{Run, posts_said, run_after};
    ghost use Rattle.round_spec.specs.Say.{Configuration};
    ghost use Rattle.member_spec.specs.Actor.{actor_after};
    ghost use Rattle.member_spec.specs.Outcomes.{evidence_shown, outcome_of, slots_shown, state_of};
    ghost use Rattle.member_spec.specs.Replies.{IsPlain, Replies};
    ghost use Rattle.member_parts.specs.Endings.{IsOutOfMemory, IsRunning, evidence_held, slots_held};
    ghost use Rattle.member_core.specs.Membership.{handed_next, posts_made, state_by};
    ghost use Rattle.member_core.specs.Needs.{HoldsNeeded};
    ghost use Rattle.member_core.specs.Promises.{HasRosterKey, HoldsMessages, IsAllHonest, IsEvidence, IsOneList, IsPlainMember, KeepsPromise, KeepsRun, WaitsIfOpen};
    ghost use Rattle.member_core.specs.Stands.{Stands, configuration_of};

    /// Enters a round, with twelve leaves or more, and says what can be said before anything was delivered. Out of memory
    /// the leaves are retired.
    pub fn start(alloc: Global, config: Config, leaves: LeafRun, conduct: C) -> Mem<Member<C>>
        requires first { 1 ≤ config.number }
        requires last { config.number ≤ length config.roster.keys }
        requires short { length config.message ≤ MESSAGE_LIMIT }
        requires leaves { 12 ≤ leaves.left }
        ensures stands { IfOk result (Stands C.replies (C.replies conduct) (configuration_of config leaves) []) }
        ensures plain_member { IsPlain (C.replies conduct) → IfOk result (IsPlainMember C.replies (configuration_of config leaves) []) }
        ensures run { IsPlain (C.replies conduct) → IfOk result (λ member. KeepsRun (configuration_of config leaves) [] member.holds) }
        ensures handed { IfOk result (λ member. member.holds.handed ≡ 0) }
        ensures secrets { IfOk result (λ member. HoldsNeeded member.holds) }
        ensures runs { IfOk result (λ member. IsRunning member.holds.ending) }
    {
        let mut conduct = conduct;
        let mut machine = Machine::enter(alloc, config, leaves)?;
        match machine.advance(alloc, &mut conduct) {
            Ok(()) => Ok(Member { machine, conduct }),
            Err(error) => {
                machine.close();
                Err(error)
            }
        }
    }

    /// The next of the member's posts, by stage, that was not handed out yet; `None` exactly where all were. After it ran
    /// out of memory the member is stopped.
    pub fn next_post(&mut self, alloc: Global) -> Mem<Option<Vec<u8>>>
        ensures post { IfOk result (λ post. option_map (λ bytes. bytes.items) post
            ≡ option_map post_spelling (slice_get (posts_made self.old.holds) self.old.holds.handed)) }
        ensures plain { IfOk result (λ post. (start : Replies) (c : Configuration) (delivered : List (List ℕ)) →
            Stands C.replies start c delivered self.old → IsPlain start →
            option_map (λ bytes. bytes.items) post ≡ option_map post_spelling (slice_get (posts_of c delivered) self.old.holds.handed)) }
        ensures stands { IfOk result (λ post. (start : Replies) (c : Configuration) (delivered : List (List ℕ)) →
            Stands C.replies start c delivered self.old → Stands C.replies start c delivered self.new) }
        ensures plain_member { IfOk result (λ post. (c : Configuration) (delivered : List (List ℕ)) →
            IsPlainMember C.replies c delivered self.old → IsPlainMember C.replies c delivered self.new) }
        ensures said { IfOk result (λ post. (c : Configuration) (delivered : List (List ℕ)) → IsPlainMember C.replies c delivered self.old →
            option_map (λ bytes. bytes.items) post
            ≡ option_map post_spelling (slice_get (posts_said (run_after c delivered)) self.old.holds.handed)) }
        ensures handed { IfOk result (λ post. self.new ≡ handed_next self.old post) }
        ensures room { self.old.holds.handed ≤ length (posts_made self.old.holds) }
        ensures none { slice_get (posts_made self.old.holds) self.old.holds.handed ≡ None → IsErr result → IsOutOfMemory self.old.holds.ending }
        ensures secrets { HoldsNeeded self.new.holds }
        ensures runs { IfOk result (λ _. IsRunning self.new.holds.ending) }
        ensures stopped { IsErr result → IsOutOfMemory self.new.holds.ending }
        ensures stays { IsOutOfMemory self.old.holds.ending → IsErr result }
    {
        if let Ending::Stopped = &self.machine.ending {
            return Err(AllocError);
        }
        let Some(post) = self.machine.post_made(self.machine.handed) else {
            return Ok(None);
        };
        match write(alloc, post) {
            Ok(bytes) => {
                self.machine.handed += 1;
                Ok(Some(bytes))
            }
            Err(error) => {
                self.machine.stop();
                Err(error)
            }
        }
    }

    /// How the round stands. A plain conduct shows the result of the deliveries: it waits for exactly the members that are
    /// missed; or, where its key is the roster's, the slots hold the message of each honest member, or the evidence
    /// convicts a member without an honest run. The last two unless a signature was forged or two strings have one hash.
    pub fn state(&self) -> State
        ensures exact { result ≡ state_by self.now.holds self.now.holds.ending }
        ensures stands { (start : Replies) (c : Configuration) (delivered : List (List ℕ)) → Stands C.replies start c delivered self.now →
            result ≡ state_of (outcome_of c (actor_after start c delivered)) }
        ensures plain { (start : Replies) (c : Configuration) (delivered : List (List ℕ)) → Stands C.replies start c delivered self.now →
            IsPlain start → result ≡ state_of (result_of c delivered) }
        ensures promise { (c : Configuration) (delivered : List (List ℕ)) → IsPlainMember C.replies c delivered self.now →
            HasRosterKey c → KeepsPromise c delivered result }
        ensures waits { (c : Configuration) (delivered : List (List ℕ)) → IsPlainMember C.replies c delivered self.now →
            WaitsIfOpen c delivered result }
        ensures all_honest { (c : Configuration) (delivered : List (List ℕ)) (runs : List Run) →
            IsPlainMember C.replies c delivered self.now → IsAllHonest c delivered runs → result ≡ State.Done }
        ensures stopped { (result ≡ State.Stopped) ↔ IsOutOfMemory self.now.holds.ending }
    {
        self.machine.state()
    }

    /// The slots of the list, exactly where the round is done. Of a plain conduct they hold the message of each honest
    /// member of the round, at distinct places, and are those of each other one that is done; unless a signature was forged
    /// or two strings have one hash.
    pub fn slots(&self) -> Option<&Vec<SlotState>>
        ensures exact { option_map (λ slots. slots.now.items) result ≡ slots_held self.now.holds.ending }
        ensures stands { (start : Replies) (c : Configuration) (delivered : List (List ℕ)) → Stands C.replies start c delivered self.now →
            option_map (λ slots. slots.now.items) result ≡ slots_shown (outcome_of c (actor_after start c delivered)) }
        ensures plain { (start : Replies) (c : Configuration) (delivered : List (List ℕ)) → Stands C.replies start c delivered self.now →
            IsPlain start → option_map (λ slots. slots.now.items) result ≡ slots_shown (result_of c delivered) }
        ensures messages { (c : Configuration) (delivered : List (List ℕ)) → IsPlainMember C.replies c delivered self.now →
            IfSome result (λ slots. HoldsMessages c delivered slots.now.items) }
        ensures one_list { (c : Configuration) (delivered : List (List ℕ)) → IsPlainMember C.replies c delivered self.now →
            IfSome result (λ slots. IsOneList c delivered slots.now.items) }
    {
        self.machine.ending.slots()
    }

    /// The transcript, as it is written, exactly where the member blames somebody; it has fewer than 134,217,728 bytes. Of
    /// a plain conduct whose key is the roster's it convicts the member that the state names, which has no honest run in
    /// the round unless a signature was forged or two strings have one hash.
    pub fn evidence(&self) -> Option<&Vec<u8>>
        ensures exact { option_map (λ bytes. bytes.now.items) result ≡ evidence_held self.now.holds.ending }
        ensures stands { (start : Replies) (c : Configuration) (delivered : List (List ℕ)) → Stands C.replies start c delivered self.now →
            option_map (λ bytes. bytes.now.items) result ≡ evidence_shown (outcome_of c (actor_after start c delivered)) }
        ensures plain { (start : Replies) (c : Configuration) (delivered : List (List ℕ)) → Stands C.replies start c delivered self.now →
            IsPlain start → option_map (λ bytes. bytes.now.items) result ≡ evidence_shown (result_of c delivered) }
        ensures convicts { (c : Configuration) (delivered : List (List ℕ)) → IsPlainMember C.replies c delivered self.now → HasRosterKey c →
            IfSome result (λ bytes. IsEvidence c delivered (state_by self.now.holds self.now.holds.ending) bytes.now.items) }
    {
        self.machine.ending.evidence()
    }

    /// Leaves the round: what is left of the secrets and the leaves is spent. It takes no memory.
    pub fn close(self) {
        let Member {
            machine,
            conduct: _,
        } = self;
        machine.close();
    }
}
