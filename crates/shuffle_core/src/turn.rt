//! A member's turn in a shuffle.

ghost use Rattle.std.specs.Prelude.{◌≡◌, ◌<◌, ◌^◌, All, map, length, true, Ok, IfOk, IfSome, List};
ghost use Rattle.std.specs.List.{list_any};
ghost use Rattle.std.specs.Option.{option_map};
ghost use Rattle.std.specs.Str.{bytes_eq};
ghost use Rattle.layer_cipher.specs.Stripping.{stripped};
ghost use Rattle.shuffle_core.specs.Shuffle.{has_equal, in_drawn_order, turn_of};

use layer_cipher::{Peeled, peel_with};
use phase_message::Body;
use rand::seq::SliceRandom;
use rand_chacha::ChaCha20Rng;
use rand_core::SeedableRng;
use ring_encrypt::KeySeed;
use std::alloc::Global;
use wire_core::{List, Mem};

/// What a member says in its turn, by its outer key's seed, of a list of entries of fewer than 2^32
/// bytes: the entries with a layer off, in the order that is drawn from the order seed; or Abort,
/// where two entries are equal or an entry is no layer under the key. Equal entries are found
/// without memory.
#[tactic(auto, unfolding(crate::specs::Shuffle::turn_of))]
pub fn anonymize(
    alloc: Global,
    seed: &KeySeed,
    order_seed: &[u8; 32],
    list: &Vec<List<u8>>,
) -> Mem<Body>
    requires { All (λ entry. length entry < 2 ^ 32) list.now.items }
    ensures value { IfOk result (λ body. body ≡ turn_of seed.now order_seed.now list.now.items) }
    ensures equal { has_equal list.now.items ≡ true → result ≡ Ok Body.Abort }
{
    if has_equal(list) {
        return Ok(Body::Abort);
    }
    match strip(alloc, seed, list)? {
        None => Ok(Body::Abort),
        Some(bodies) => Ok(Body::Shuffled {
            list: List::of(shuffle(order_seed, bodies)),
        }),
    }
}

// Whether an entry stands in the list twice.
#[tactic(auto, unfolding(crate::specs::Shuffle::has_equal))]
fn has_equal(list: &[List<u8>]) -> bool
    ensures { result ≡ has_equal list.now }
{
    let mut rest = list;
    while let Some((entry, others)) = rest.split_first() {
        if is_among(others, entry.items()) {
            return true;
        }
        rest = others;
    }
    false
}

// Whether an entry stands in the list.
fn is_among(list: &[List<u8>], entry: &[u8]) -> bool
    ensures { result ≡ list_any (bytes_eq entry.now) list.now }
{
    list.iter().any(|other| entry == other.items().as_slice())
}

/// The bodies of all entries in their order, or `None` where one is no layer under the seed's key.
/// Each entry has fewer than 2^32 bytes.
pub fn strip(alloc: Global, seed: &KeySeed, list: &[List<u8>]) -> Mem<Option<Vec<List<u8>>>>
    requires { All (λ entry. length entry < 2 ^ 32) list.now }
    ensures { IfOk result (λ bodies. option_map (λ v. v.items) bodies ≡ stripped seed.now list.now) }
{
    let mut bodies = Vec::with_capacity(alloc, list.len())?;
    for entry in list {
        match peel_with(alloc, seed, entry.items())? {
            Peeled::Layer { m: _, body } => bodies.push(body)?,
            Peeled::NoLayer => return Ok(None),
        }
    }
    Ok(Some(bodies))
}

// The bodies in the order that is drawn from a seed.
fn shuffle(order_seed: &[u8; 32], mut bodies: Vec<List<u8>>) -> Vec<List<u8>>
    ensures { result.items ≡ in_drawn_order order_seed.now bodies.items }
{
    bodies.shuffle(&mut ChaCha20Rng::from_seed(*order_seed));
    bodies
}
