//! The queue of a group.

ghost use Rattle.std.specs.Prelude.{◌≡◌, ◌≤◌, ◌<◌, ◌+◌, ◌++◌, List as Items, All, IfOk, length, map};
ghost use Rattle.std.specs.List.{flat_map};
ghost use Rattle.bulk_descriptor.specs.declared.making.TheConstants.{MESSAGE_LIMIT};
ghost use Rattle.group_roster.specs.Given.{roster_of};
ghost use Rattle.group_spec.specs.Driver.{group_end, shown_of};
ghost use Rattle.group_spec.specs.World.{Carriage, Entry as OnItsWay, Seat, World, entries_behind, entries_beyond, seat_behind, world_behind_step};
ghost use Rattle.group_threads.specs.Given.{IsGroup, ShowsGroup, seat_of, seats_of};
ghost use Rattle.group_threads.specs.Playing.{ArePlayed, IsWorld, Plays, posts_of, written_entry};

use crate::copying::{copied_config, copied_roster};
use crate::ending::GroupEnd;
use crate::leaves::Leaves;
use crate::player::Player;
use crate::queue::Entry;
use faulty_member::Fault;
use group_roster::Roster;
use member_core::Config;
use phase_message::Slot;
use std::alloc::Global;
use wire_core::{List, Mem};

/// How many entries a member's posts take at most: two at each stage of a round of eight.
const ENTRIES_AT_MOST: usize = 52;

/// A round of a group: all members are asked for their posts, and each post is delivered to its recipients `repeat` times,
/// who are then asked in turn, until nothing is on its way. Posts of the slots in `drops` do not arrive. Out of memory all
/// leaves are retired, and so are the spare ones that nobody used.
pub fn drive(
    alloc: Global,
    configs: &Vec<Config>,
    leaves: Vec<Leaves>,
    spare: Vec<Leaves>,
    faults: &Vec<Fault>,
    drops: &Vec<Slot>,
    repeat: u8,
) -> Mem<GroupEnd>
    requires group { IsGroup configs.now.items leaves.items spare.items faults.now.items }
    requires least { 1 ≤ repeat }
    requires most { repeat ≤ 9 }
    ensures exact { IfOk result (ShowsGroup (group_end (record { drops = drops.now.items; repeat = repeat })
        (seats_of configs.now.items leaves.items spare.items faults.now.items))) }
    ensures roster { IfOk result (λ end. All (λ config. roster_of end.roster ≡ roster_of config.roster) configs.now.items) }
{
    let mut players = players_of(alloc, configs, leaves, spare, faults)?;
    let mut queue = first_posts(alloc, &mut players)?;
    for place in 0..ENTRIES_AT_MOST * configs.len() {
        step(alloc, &mut players, &mut queue, place, drops, repeat)?;
    }
    end_of(alloc, &configs[0].roster, players)
}

// The members, each with its fault and its leaves.
fn players_of(
    alloc: Global,
    configs: &Vec<Config>,
    leaves: Vec<Leaves>,
    spare: Vec<Leaves>,
    faults: &Vec<Fault>,
) -> Mem<Vec<Player>>
    requires { IsGroup configs.now.items leaves.items spare.items faults.now.items }
    ensures { IfOk result (λ players. ArePlayed players.items
        (seats_of configs.now.items leaves.items spare.items faults.now.items) (λ _. 0)) }
{
    let mut players = Vec::new(alloc);
    let mut runs = leaves.into_iter();
    let mut spares = spare.into_iter();
    for place in 0..configs.len() {
        let Some(own) = runs.next() else {
            unreachable!()
        };
        let Some(second) = spares.next() else {
            unreachable!()
        };
        let player = player_of(alloc, &configs[place], faults[place], own, second)?;
        players.push(player)?;
    }
    Ok(players)
}

// A member with its fault and its leaves.
fn player_of(
    alloc: Global,
    config: &Config,
    fault: Fault,
    leaves: Leaves,
    spare: Leaves,
) -> Mem<Player>
    requires first { 1 ≤ config.now.number }
    requires last { config.now.number ≤ length config.now.roster.keys }
    requires short { length config.now.message ≤ MESSAGE_LIMIT }
    requires leaves { 12 ≤ leaves.left }
    requires spare { spare.left ≡ 1 }
    ensures { IfOk result (λ player. Plays player (seat_of config.now leaves spare fault) 0) }
{
    let copy = copied_config(alloc, config)?;
    Player::start(alloc, copy, fault, leaves.into_run(), spare.into_run())
}

// All members are asked for their posts.
fn first_posts(alloc: Global, players: &mut Vec<Player>) -> Mem<Vec<Entry>>
    ensures { IfOk result (λ posted. (seats : Items Seat) → ArePlayed players.old.items seats (λ _. 0) →
        (posted.items ≡ map written_entry (flat_map (entries_beyond 0) seats)) × ArePlayed players.new.items seats posts_of) }
{
    let mut posted = Vec::new(alloc);
    for place in 0..players.len() {
        players[place].posts(alloc, &mut posted)?;
    }
    Ok(posted)
}

// Takes the entry at a place of the queue, if one is there.
fn step(
    alloc: Global,
    players: &mut Vec<Player>,
    queue: &mut Vec<Entry>,
    place: usize,
    drops: &Vec<Slot>,
    repeat: u8,
) -> Mem<()>
    ensures { IfOk result (λ _. (world : World) → IsWorld players.old.items queue.old.items place world →
        IsWorld players.new.items queue.new.items (place + 1)
        (world_behind_step (record { drops = drops.now.items; repeat = repeat }) world)) }
{
    if place < queue.len() {
        return carry(alloc, players, queue, place, drops, repeat);
    }
    Ok(())
}

// Takes the entry at a place of the queue: it is delivered to its recipients, unless its slot is dropped, and all members
// are asked for their posts.
fn carry(
    alloc: Global,
    players: &mut Vec<Player>,
    queue: &mut Vec<Entry>,
    place: usize,
    drops: &Vec<Slot>,
    repeat: u8,
) -> Mem<()>
    requires { place < length queue.old.items }
    ensures { IfOk result (λ _. (world : World) → IsWorld players.old.items queue.old.items place world →
        IsWorld players.new.items queue.new.items (place + 1)
        (world_behind_step (record { drops = drops.now.items; repeat = repeat }) world)) }
{
    let entry = &queue[place];
    let dropped = entry.is_dropped(drops)?;
    if dropped {
        return Ok(());
    }
    let posted = serve_all(alloc, players, entry, repeat)?;
    append(queue, posted)
}

// Puts entries behind those of the queue.
fn append(queue: &mut Vec<Entry>, posted: Vec<Entry>) -> Mem<()>
    ensures { IfOk result (λ _. queue.new.items ≡ queue.old.items ++ posted.items) }
{
    for entry in posted {
        queue.push(entry)?;
    }
    Ok(())
}

// An entry is delivered to its recipients, and all members are asked for their posts.
fn serve_all(alloc: Global, players: &mut Vec<Player>, entry: &Entry, repeat: u8) -> Mem<Vec<Entry>>
    ensures { IfOk result (λ posted. (carriage : Carriage) (onway : OnItsWay) (seats : Items Seat) → carriage.repeat ≡ repeat →
        entry.now ≡ written_entry onway → ArePlayed players.old.items seats posts_of →
        (posted.items ≡ map written_entry (flat_map (entries_behind carriage onway) seats))
        × ArePlayed players.new.items (map (seat_behind carriage onway) seats) posts_of) }
{
    let mut posted = Vec::new(alloc);
    let count = players.len();
    for place in 0..count {
        players[place].serve(alloc, entry, repeat, &mut posted)?;
    }
    Ok(posted)
}

// What is seen of all members.
fn end_of(alloc: Global, roster: &Roster, players: Vec<Player>) -> Mem<GroupEnd>
    ensures shows { IfOk result (λ end. (seats : Items Seat) → ArePlayed players.items seats posts_of → ShowsGroup (map shown_of seats) end) }
    ensures roster { IfOk result (λ end. roster_of end.roster ≡ roster_of roster.now) }
{
    let mut members = Vec::with_capacity(alloc, players.len())?;
    let mut deliveries = Vec::with_capacity(alloc, players.len())?;
    for player in players {
        let (end, delivered) = player.end(alloc)?;
        members.push(end)?;
        deliveries.push(delivered)?;
    }
    let roster = copied_roster(alloc, roster)?;
    Ok(GroupEnd {
        members: List::of(members),
        deliveries: List::of(deliveries),
        roster,
    })
}
