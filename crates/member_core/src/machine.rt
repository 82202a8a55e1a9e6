//! What a member holds, beside its conduct.

use group_roster::Roster;
use honest_say::{GroupKeys, Seat, Slots};
use lms_tree::LeafRun;
use member_parts::{Ending, Own, Secrets};
use member_spec::{Mood, State};
use phase_message::Slot;
use stage_log::{Post, Seen, StageLog};
use wire_core::List;

// What a member holds, beside its conduct.
pub(crate) struct Machine {
    pub(crate) roster: Roster,
    pub(crate) seat: Seat,
    pub(crate) message: List<u8>,
    pub(crate) leaves: LeafRun,
    pub(crate) log: StageLog,
    // What was seen of the stages before the one that is being filled.
    pub(crate) seen: Seen,
    // The stage that is being filled.
    pub(crate) stage: u8,
    pub(crate) mood: Mood,
    // The post that it made and does not keep.
    pub(crate) stray: Option<Post>,
    // How many of its posts were handed out.
    pub(crate) handed: usize,
    pub(crate) secrets: Secrets,
    pub(crate) own: Own,
    // Carried forward, so that nothing is read twice: the keys that all members said, what the last list of shuffle A
    // opened to, and what its slots come to.
    pub(crate) keys: Option<GroupKeys>,
    pub(crate) opened: Option<Vec<Option<List<u8>>>>,
    pub(crate) slots: Option<Slots>,
    pub(crate) ending: Ending,
}

impl Machine {
    ghost use Rattle.std.specs.Prelude.{◌≡◌, ◌<◌, ◌^◌, IfSome, length, slice_get};
    ghost use Rattle.std.specs.Option.{option_copied};
    ghost use Rattle.phase_message.specs.Slots.{stage_count};
    ghost use Rattle.phase_message.specs.Stages.{shape_of};
    ghost use Rattle.member_core.specs.Concluding.{machine_ended};
    ghost use Rattle.member_core.specs.Membership.{holdings_of, posts_made, state_by};
    ghost use Rattle.member_core.specs.Sound.{IsFormed, slot_here};

    // The slot in which it speaks at the stage that is being filled, if it does.
    pub(crate) fn own_slot(&self) -> Slot
        ensures { result ≡ slot_here self.now }
    {
        Slot {
            stage: self.stage,
            sender: self.seat.number,
        }
    }

    // How many stages the round has.
    pub(crate) fn stage_count(&self) -> u8
        ensures { result ≡ stage_count (shape_of self.now.seat.shape) }
    {
        2 * self.seat.shape.members + 10
    }

    // Ends the round, for which no secret is needed any more.
    pub(crate) fn end(&mut self, ending: Ending)
        ensures { self.new ≡ machine_ended self.old ending }
    {
        self.secrets.end();
        self.ending = ending;
    }

    // A call ran out of memory.
    pub(crate) fn stop(&mut self)
        ensures { self.new ≡ machine_ended self.old Ending.Stopped }
    {
        self.end(Ending::Stopped);
    }

    // One of the posts that it made, by its place among them, from 0.
    pub(crate) fn post_made(&self, place: usize) -> Option<&Post>
        requires { IsFormed self.now }
        ensures post { option_copied result ≡ slice_get (posts_made (holdings_of self.now)) place }
        ensures short { IfSome result (λ post. length post.now.content < 2 ^ 32) }
    {
        let mut left = place;
        for stage in 0..self.stage_count() {
            let slot = Slot {
                stage,
                sender: self.seat.number,
            };
            if let Some(post) = self.log.kept(slot) {
                if left == 0 {
                    return Some(post);
                }
                left -= 1;
            }
        }
        if left == 0 { self.stray.as_ref() } else { None }
    }

    // How the round stands.
    pub(crate) fn state(&self) -> State
        ensures { result ≡ state_by (holdings_of self.now) self.now.ending }
    {
        match &self.ending {
            Ending::Open => State::Waiting {
                stage: self.stage,
                missing: self.log.missing(self.stage),
            },
            Ending::Done(_) => State::Done,
            Ending::Blamed(conviction) => State::Blamed {
                accused: conviction.accused,
                claim: conviction.claim,
            },
            Ending::Stopped => State::Stopped,
        }
    }

    // Gives up what is left of the secrets and the leaves.
    pub(crate) fn close(self) {
        let Machine {
            roster: _,
            seat: _,
            message: _,
            leaves,
            log: _,
            seen: _,
            stage: _,
            mood: _,
            stray: _,
            handed: _,
            secrets,
            own: _,
            keys: _,
            opened: _,
            slots: _,
            ending: _,
        } = self;
        leaves.retire();
        secrets.destroy();
    }
}
