//! Putting an item in its layers.

ghost use Rattle.std.specs.Prelude.{◌≡◌, ◌<◌, ◌≤◌, length, vec_len, IfOk};
ghost use Rattle.shuffle_core.specs.Shuffle.{submission_of};

use crate::entry::Submission;
use layer_cipher::wrap;
use phase_message::POST_LIMIT;
use ring_encrypt::PublicKey;
use std::alloc::Global;
use wire_core::{List, Mem};

/// The greatest number of keys of a side: that of the members of the greatest group.
pub const MOST_KEYS: usize = 16;

/// An item of fewer than `POST_LIMIT` bytes, 16,777,216, in its layers: under the inner keys with
/// the inner seeds, and then under the outer keys with the outer ones. The first key of each list is
/// outermost. The four lists have one length, at most 16.
pub fn submission(
    alloc: Global,
    inner: &Vec<PublicKey>,
    outer: &Vec<PublicKey>,
    inner_seeds: &Vec<[u8; 32]>,
    outer_seeds: &Vec<[u8; 32]>,
    item: &[u8],
) -> Mem<Submission>
    requires inner_seeds { vec_len inner_seeds.now ≡ vec_len inner.now }
    requires outer_keys { vec_len outer.now ≡ vec_len inner.now }
    requires outer_seeds { vec_len outer_seeds.now ≡ vec_len inner.now }
    requires few { vec_len inner.now ≤ MOST_KEYS }
    requires short { length item.now < POST_LIMIT }
    ensures { IfOk result (λ submission. submission
        ≡ submission_of inner.now.items outer.now.items inner_seeds.now.items outer_seeds.now.items item.now) }
{
    let inner_ciphertext = wrap(alloc, inner, inner_seeds, item)?;
    let ciphertext = wrap(alloc, outer, outer_seeds, &inner_ciphertext)?;
    Ok(Submission {
        inner_ciphertext: List::of(inner_ciphertext),
        ciphertext: List::of(ciphertext),
    })
}
