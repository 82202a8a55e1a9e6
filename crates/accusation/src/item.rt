//! What a member puts into the second shuffle.

ghost use Rattle.std.specs.Prelude.{◌≡◌, ◌≤◌, All, vec_len};
ghost use Rattle.accusation.specs.Item.{first_in, item_row, NamesWithin};

use bulk_descriptor::{List, SlotState};
use transcript_form::Accusation;

/// The 34 bytes that a member puts into the second shuffle: its accusation by the least slot that opened to its own
/// descriptor's bytes and is bad, of the first member whose pad fails there, with the seed of that pad; or zeros.
/// There are as many states as opened entries, at most 255, and as many seeds as the states name members.
pub fn own_item(
    own: &[u8],
    opened: &Vec<Option<List<u8>>>,
    states: &Vec<SlotState>,
    seeds: &Vec<[u8; 32]>,
) -> [u8; 34]
    requires as_many { vec_len opened.now ≡ vec_len states.now }
    requires few { vec_len states.now ≤ 255 }
    requires members { All (NamesWithin (vec_len seeds.now)) states.now.items }
    ensures { result ≡ item_row own.now opened.now.items states.now.items seeds.now.items }
{
    for (place, state) in states.iter().enumerate() {
        if let Some(first) = first_in(own, &opened[place], state) {
            let accusation = Accusation {
                slot: place as u8 + 1,
                member: first,
                seed: seeds[first as usize - 1],
            };
            return accusation.encode();
        }
    }
    [0; 34]
}

// The first member whose pad fails in a slot that opened to the member's own descriptor's bytes.
fn first_in(own: &[u8], opened: &Option<List<u8>>, state: &SlotState) -> Option<u8>
    ensures { result ≡ first_in own.now opened.now state.now }
{
    let Some(bytes) = opened else {
        return None;
    };
    let SlotState::Bad { first } = state else {
        return None;
    };
    if bytes.items().as_slice() == own {
        Some(*first)
    } else {
        None
    }
}
