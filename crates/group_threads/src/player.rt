//! A member at its place in a group.

ghost use Rattle.std.specs.Prelude.{◌≡◌, ◌≤◌, ◌+◌, ◌++◌, ◌∷◌, [], ℕ, length, map, option_map, replicate, IfOk};
ghost use Rattle.bulk_descriptor.specs.declared.making.TheConstants.{MESSAGE_LIMIT};
ghost use Rattle.phase_message.specs.declared.post.Post.{Post as Spoken};
ghost use Rattle.phase_message.specs.Post.{post_spelling};
ghost use Rattle.member_spec.specs.Outcomes.{evidence_shown, outcome_of, slots_shown};
ghost use Rattle.group_spec.specs.Driver.{is_faulty, shown_of};
ghost use Rattle.group_spec.specs.World.{Carriage, Entry as OnItsWay, Leaf, Seat, actor_of, entries_behind, entries_beyond, seat_behind};
ghost use Rattle.group_threads.specs.Given.{end_shown, seat_of};
ghost use Rattle.group_threads.specs.Playing.{IsSpare, Plays, held_entries, posts_of, second_written, written_entry};

use crate::copying::copied_slots;
use crate::queue::Entry;
use crate::second::second_post;
use bulk_descriptor::SlotState;
use faulty_member::{Fault, Faulty};
use group_spec::MemberEnd;
use lms_tree::LeafRun;
use member_core::{Config, Member};
use phase_message::Shape;
use std::alloc::Global;
use wire_core::{List, Mem};

/// A member in a round, its fault, the leaf that signs a second post, and what was delivered to it.
pub(crate) struct Player {
    pub member: Member<Faulty>,
    pub number: u8,
    pub shape: Shape,
    pub fault: Fault,
    pub spare: LeafRun,
    pub delivered: Vec<List<u8>>,
}

impl Drop for Player {
    fn drop(self) {
        let Player {
            member,
            number: _,
            shape: _,
            fault: _,
            spare,
            delivered: _,
        } = self;
        member.close();
        spare.retire();
    }
}

impl Player {
    /// Enters a member. Out of memory both runs are retired.
    pub fn start(
        alloc: Global,
        config: Config,
        fault: Fault,
        leaves: LeafRun,
        spare: LeafRun,
    ) -> Mem<Player>
        requires first { 1 ≤ config.number }
        requires last { config.number ≤ length config.roster.keys }
        requires short { length config.message ≤ MESSAGE_LIMIT }
        requires leaves { 12 ≤ leaves.left }
        requires spare { spare.left ≡ 1 }
        ensures { IfOk result (λ player. Plays player (seat_of config leaves spare fault) 0) }
    {
        let number = config.number;
        let shape = config.roster.shape();
        match Member::start(alloc, config, leaves, Faulty::new(fault, number)) {
            Ok(member) => Ok(Player {
                member,
                number,
                shape,
                fault,
                spare,
                delivered: Vec::new(alloc),
            }),
            Err(error) => {
                spare.retire();
                Err(error)
            }
        }
    }

    /// Gives the member a post so many times.
    pub fn receive(&mut self, alloc: Global, bytes: &List<u8>, times: u8) -> Mem<()>
        ensures { IfOk result (λ _. (seat : Seat) (count : ℕ) → Plays self.old seat count →
            Plays self.new (record seat { delivered = seat.delivered ++ replicate times bytes.now }) count) }
    {
        for _ in 0..times {
            self.receive_once(alloc, bytes)?;
        }
        Ok(())
    }

    fn receive_once(&mut self, alloc: Global, bytes: &List<u8>) -> Mem<()>
        ensures { IfOk result (λ _. (seat : Seat) (count : ℕ) → Plays self.old seat count →
            Plays self.new (record seat { delivered = seat.delivered ++ bytes.now ∷ [] }) count) }
    {
        let _taken = self.member.deliver(alloc, bytes.items())?;
        let copy = Vec::from_slice(alloc, bytes.items())?;
        self.delivered.push(List::of(copy))?;
        Ok(())
    }

    /// Puts the entries of all posts that the member has made and that were not handed out yet behind these.
    pub fn posts(&mut self, alloc: Global, entries: &mut Vec<Entry>) -> Mem<()>
        ensures entries { IfOk result (λ _. (seat : Seat) (count : ℕ) → Plays self.old seat count →
            entries.new.items ≡ entries.old.items ++ map written_entry (entries_beyond count seat)) }
        ensures plays { IfOk result (λ _. (seat : Seat) (count : ℕ) → Plays self.old seat count → Plays self.new seat (posts_of seat)) }
    {
        'posts: while let Some(bytes) = self.member.next_post(alloc)? {
            let second = self.second_of(alloc, &bytes)?;
            put_entries(entries, self.number, self.shape.members, bytes, second)?;
        }
        Ok(())
    }

    // The second post that the member makes of a written one.
    fn second_of(&mut self, alloc: Global, bytes: &Vec<u8>) -> Mem<Option<Vec<u8>>>
        ensures post { IfOk result (λ second. (seat : Seat) (count : ℕ) (post : Spoken) → Plays self.old seat count →
            bytes.now.items ≡ post_spelling post → option_map (λ bytes. bytes.items) second ≡ second_written seat post) }
        ensures same { self.new ≡ record self.old { spare = self.new.spare } }
        ensures spare { IfOk result (λ _. (leaf : Leaf) → IsSpare leaf self.old.spare → IsSpare leaf self.new.spare) }
    {
        match self.fault {
            Fault::TwoVotes => second_post(alloc, self.shape, &mut self.spare, bytes),
            _ => Ok(None),
        }
    }

    /// Gives the member an entry so many times, if it is for it, and puts the entries of what it posts then behind these.
    pub fn serve(
        &mut self,
        alloc: Global,
        entry: &Entry,
        times: u8,
        entries: &mut Vec<Entry>,
    ) -> Mem<()>
        ensures entries { IfOk result (λ _. (carriage : Carriage) (onway : OnItsWay) (seat : Seat) → carriage.repeat ≡ times →
            entry.now ≡ written_entry onway → Plays self.old seat (posts_of seat) →
            entries.new.items ≡ entries.old.items ++ map written_entry (entries_behind carriage onway seat)) }
        ensures plays { IfOk result (λ _. (carriage : Carriage) (onway : OnItsWay) (seat : Seat) → carriage.repeat ≡ times →
            entry.now ≡ written_entry onway → Plays self.old seat (posts_of seat) →
            Plays self.new (seat_behind carriage onway seat) (posts_of (seat_behind carriage onway seat))) }
    {
        self.take(alloc, entry, times)?;
        self.posts(alloc, entries)
    }

    // Gives the member an entry so many times, if it is for it.
    fn take(&mut self, alloc: Global, entry: &Entry, times: u8) -> Mem<()>
        ensures { IfOk result (λ _. (carriage : Carriage) (onway : OnItsWay) (seat : Seat) (count : ℕ) → carriage.repeat ≡ times →
            entry.now ≡ written_entry onway → Plays self.old seat count → Plays self.new (seat_behind carriage onway seat) count) }
    {
        if entry.is_for(self.number) {
            return self.receive(alloc, &entry.bytes, times);
        }
        Ok(())
    }

    // The slots of the list, if the member is done.
    fn slots_shown(&self, alloc: Global) -> Mem<Option<List<SlotState>>>
        ensures { IfOk result (λ slots. (seat : Seat) (count : ℕ) → Plays self.now seat count →
            slots ≡ slots_shown (outcome_of seat.config (actor_of seat))) }
    {
        match self.member.slots() {
            None => Ok(None),
            Some(slots) => {
                let copy = copied_slots(alloc, slots)?;
                Ok(Some(List::of(copy)))
            }
        }
    }

    // The transcript, if the member blames somebody.
    fn evidence_shown(&self, alloc: Global) -> Mem<Option<List<u8>>>
        ensures { IfOk result (λ evidence. (seat : Seat) (count : ℕ) → Plays self.now seat count →
            evidence ≡ evidence_shown (outcome_of seat.config (actor_of seat))) }
    {
        match self.member.evidence() {
            None => Ok(None),
            Some(bytes) => {
                let copy = Vec::from_slice(alloc, bytes)?;
                Ok(Some(List::of(copy)))
            }
        }
    }

    // What is seen of the member.
    fn shown(&self, alloc: Global) -> Mem<MemberEnd>
        ensures { IfOk result (λ end. (seat : Seat) (count : ℕ) → Plays self.now seat count → end ≡ end_shown (shown_of seat)) }
    {
        let slots = self.slots_shown(alloc)?;
        let evidence = self.evidence_shown(alloc)?;
        Ok(MemberEnd {
            number: self.number,
            faulty: is_faulty(self.fault),
            state: self.member.state(),
            slots,
            evidence,
        })
    }

    /// What is seen of the member, and what was delivered to it. Its leaves are retired.
    pub fn end(self, alloc: Global) -> Mem<(MemberEnd, List<List<u8>>)>
        ensures { IfOk result (λ end. (seat : Seat) (count : ℕ) → Plays self seat count →
            (end.0 ≡ end_shown (shown_of seat)) × (end.1 ≡ seat.delivered)) }
    {
        let end = self.shown(alloc)?;
        let Player {
            member,
            number: _,
            shape: _,
            fault: _,
            spare,
            delivered,
        } = self;
        member.close();
        spare.retire();
        Ok((end, List::of(delivered)))
    }
}

// Puts the entries of a post behind these: where there is a second one, members with lower numbers get the first, and those
// with greater numbers the second.
fn put_entries(
    entries: &mut Vec<Entry>,
    sender: u8,
    members: u8,
    bytes: Vec<u8>,
    second: Option<Vec<u8>>,
) -> Mem<()>
    ensures { IfOk result (λ _. entries.new.items ≡ entries.old.items
        ++ held_entries sender members bytes.items (option_map (λ bytes. bytes.items) second)) }
{
    let Some(second) = second else {
        entries.push(Entry {
            sender,
            bytes: List::of(bytes),
            first: 1,
            last: members,
        })?;
        return Ok(());
    };
    entries.push(Entry {
        sender,
        bytes: List::of(bytes),
        first: 1,
        last: sender.saturating_sub(1),
    })?;
    entries.push(Entry {
        sender,
        bytes: List::of(second),
        first: sender.saturating_add(1),
        last: members,
    })?;
    Ok(())
}

// Whether a fault is one.
fn is_faulty(fault: Fault) -> bool
    ensures { result ≡ is_faulty fault }
{
    !matches!(fault, Fault::None)
}
