//! The chains of a key on their way to their ends: four side by side, and a lane that is free takes the next.

ghost use Rattle.std.specs.Prelude.{◌≡◌, ℕ, ◌+◌, ◌-◌, ◌<◌, ◌≤◌, All, [], drop, slice_index, slice_index_or};
ghost use Rattle.lm_ots.specs.Walks.{SameEnds, end_of, next_step_of, steps_left, walk_at};

use crate::chains::chain;
use crate::step_strings::{step_four, step_string};

/// A chain on its way: its value at a place, and the place where it is to end.
#[derive(Clone, Copy)]
pub(crate) struct Walk {
    pub(crate) place: u8,
    pub(crate) end: u8,
    pub(crate) value: [u8; 32],
}

/// The chains of a key, at most 265, and room to make whole groups of four.
pub(crate) type Walks = [Walk; 268];

/// No values yet, to be walked from the first place to `end`.
pub(crate) fn walks_to(end: u8) -> Walks
    ensures { (i : ℕ) → i < 268 → (walk_at result i).end ≡ end }
{
    [Walk {
        place: 0,
        end,
        value: [0; 32],
    }; 268]
}

impl Walk {
    // The steps that are left.
    fn left(&self) -> u8
        ensures { result ≡ steps_left self.now }
    {
        self.end.saturating_sub(self.place)
    }

    // A walk at the place and with the value of a step's string.
    fn at_string(string: &[u8; 55], end: u8) -> Walk
        ensures walk { result ≡ record { place = slice_index string.now 22; end = end; value = drop 23 string.now } }
        ensures byte { end < 256 }
    {
        let mut value = [0; 32];
        value.copy_from_slice(&string[23..]);
        Walk {
            place: string[22],
            end,
            value,
        }
    }
}

// The string of the next step of chain `i`.
fn next_step(identifier: &[u8; 16], q: u32, walks: &Walks, i: u16) -> [u8; 55]
    requires { i < 268 }
    ensures { result ≡ next_step_of identifier.now q walks.now i }
{
    let walk = walks[usize::from(i)];
    step_string(identifier, q, i, walk.place, &walk.value)
}

// The steps that the chain of each lane has left.
fn steps_left(walks: &Walks, lanes: &[u16; 4]) -> [u8; 4]
    requires { All (λ i. i < 268) lanes.now }
    ensures { (k : ℕ) → k < 4 → slice_index result k ≡ steps_left (walk_at walks.now (slice_index lanes.now k)) }
{
    let mut left = [0; 4];
    for k in 0..4 {
        left[k] = walks[usize::from(lanes[k])].left();
    }
    left
}

// The lane with the fewest steps left.
fn first_free(left: &[u8; 4]) -> usize
    ensures lane { result < 4 }
    ensures fewest { (k : ℕ) → k < 4 → slice_index left.now result ≤ slice_index left.now k }
{
    let mut free = 0;
    for k in 1..4 {
        if left[k] < left[free] {
            free = k;
        }
    }
    free
}

// The string of the next step of each lane.
fn next_steps(identifier: &[u8; 16], q: u32, walks: &Walks, lanes: &[u16; 4]) -> [[u8; 55]; 4]
    requires { All (λ i. i < 268) lanes.now }
    ensures { (k : ℕ) → k < 4 → slice_index_or result k [] ≡ next_step_of identifier.now q walks.now (slice_index lanes.now k) }
{
    [
        next_step(identifier, q, walks, lanes[0]),
        next_step(identifier, q, walks, lanes[1]),
        next_step(identifier, q, walks, lanes[2]),
        next_step(identifier, q, walks, lanes[3]),
    ]
}

// Takes the chain of each lane as many steps further.
fn walk_lanes(identifier: &[u8; 16], q: u32, walks: &mut Walks, lanes: &[u16; 4], steps: u8)
    requires in_table { All (λ i. i < 268) lanes.now }
    requires left { (k : ℕ) → k < 4 → steps ≤ steps_left (walk_at walks.old (slice_index lanes.now k)) }
    ensures { SameEnds identifier.now q walks.old walks.new }
{
    let mut strings = next_steps(identifier, q, walks, lanes);
    step_four(&mut strings, steps);
    for k in 0..4 {
        let i = usize::from(lanes[k]);
        let end = walks[i].end;
        walks[i] = Walk::at_string(&strings[k], end);
    }
}

// Takes the first `count` chains along in four lanes, until there is none to take the place of one that has ended.
fn walk_in_lanes(identifier: &[u8; 16], q: u32, count: u16, walks: &mut Walks)
    requires { count ≤ 268 }
    ensures { SameEnds identifier.now q walks.old walks.new }
{
    let mut lanes = [0, 1, 2, 3];
    for next in 4..count {
        let left = steps_left(walks, &lanes);
        let free = first_free(&left);
        walk_lanes(identifier, q, walks, &lanes, left[free]);
        lanes[free] = next;
    }
}

// Takes each of the first `count` chains from where it is to its end.
fn finish(identifier: &[u8; 16], q: u32, count: u16, walks: &mut Walks)
    requires { count ≤ 268 }
    ensures { (i : ℕ) → i < count → (walk_at walks.new i).value ≡ end_of identifier.now q i (walk_at walks.old i) }
{
    for i in 0..count {
        let at = usize::from(i);
        let walk = walks[at];
        let value = chain(identifier, q, i, walk.place, walk.end, walk.value);
        walks[at] = Walk { value, ..walk };
    }
}

/// Takes each of the first `count` chains to its end, and leaves the value there in it.
pub(crate) fn walk_to_ends(identifier: &[u8; 16], q: u32, count: u16, walks: &mut Walks)
    requires { count ≤ 268 }
    ensures { (i : ℕ) → i < count → (walk_at walks.new i).value ≡ end_of identifier.now q i (walk_at walks.old i) }
{
    walk_in_lanes(identifier, q, count, walks);
    finish(identifier, q, count, walks);
}
