//! Lists in another order.

ghost use Rattle.std.specs.Prelude.{◌≡◌, ◌<◌, length, IfSome, position};
ghost use Rattle.std.specs.Str.{bytes_eq};
ghost use Rattle.shuffle_blame.specs.Replay.{is_permutation};

use wire_core::List;

// Whether a list is these bodies in some order. No entry is copied: a body that was found is dropped.
#[tactic(auto, unfolding(crate::specs::Replay::is_permutation))]
pub(crate) fn is_permutation(list: &[List<u8>], mut bodies: Vec<List<u8>>) -> bool
    ensures { result ≡ is_permutation list.now bodies.items }
{
    let mut rest = list;
    while let Some((entry, others)) = rest.split_first() {
        let Some(place) = place_of(&bodies, entry.items()) else {
            return false;
        };
        bodies.remove(place);
        rest = others;
    }
    bodies.is_empty()
}

// The first place of an entry.
fn place_of(bodies: &[List<u8>], entry: &[u8]) -> Option<usize>
    ensures value { result ≡ position (bytes_eq entry.now) bodies.now }
    ensures within { IfSome result (λ place. place < length bodies.now) }
{
    bodies
        .iter()
        .position(|body| entry == body.items().as_slice())
}
