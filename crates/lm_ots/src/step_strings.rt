//! The strings that are hashed in a step of a chain, one at a time and four side by side (RFC 8554, sections 4.3 and 4.6).

ghost use Rattle.std.specs.Prelude.{◌≡◌, ℕ, ◌+◌, ◌<◌, ◌++◌, ◌∷◌, [], take, slice_index_or};
ghost use Rattle.std.specs.Fn.{iterate};
ghost use Rattle.lm_ots.specs.OneTime.{step_string};
ghost use Rattle.lm_ots.specs.Walks.{next_string, with_digest};

use crate::strings::{u16str, u32str};
use sha_lanes::four_digests;

/// Writes the first 22 bytes of the string that a step of a chain hashes.
pub(crate) fn set_head(block: &mut [u8; 55], identifier: &[u8; 16], q: [u8; 4], i: [u8; 2])
    ensures { take 22 block.new ≡ identifier.now ++ q ++ i }
{
    block[..16].copy_from_slice(identifier);
    block[16..20].copy_from_slice(&q);
    block[20..22].copy_from_slice(&i);
}

/// Writes the other 33 bytes: the place and the value that the step takes.
pub(crate) fn set_step(block: &mut [u8; 55], j: u8, tmp: &[u8; 32])
    ensures { block.new ≡ take 22 block.old ++ (j ∷ tmp.now) }
{
    block[22] = j;
    block[23..].copy_from_slice(tmp);
}

/// The string of a step of chain `i` from place `j`, where its value is `tmp`.
pub(crate) fn step_string(identifier: &[u8; 16], q: u32, i: u16, j: u8, tmp: &[u8; 32]) -> [u8; 55]
    ensures { result ≡ step_string identifier.now q i j tmp.now }
{
    let mut block = [0; 55];
    set_head(&mut block, identifier, u32str(q), u16str(i));
    set_step(&mut block, j, tmp);
    block
}

// Puts into each string the next place and its digest.
fn set_steps(strings: &mut [[u8; 55]; 4], digests: &[[u8; 32]; 4])
    ensures { (k : ℕ) → k < 4
        → slice_index_or strings.new k [] ≡ with_digest (slice_index_or strings.old k []) (slice_index_or digests.now k []) }
{
    for k in 0..4 {
        let mut string = strings[k];
        let place = string[22];
        set_step(&mut string, place.wrapping_add(1), &digests[k]);
        strings[k] = string;
    }
}

/// Takes each of four strings as many steps further.
pub(crate) fn step_four(strings: &mut [[u8; 55]; 4], steps: u8)
    ensures { (k : ℕ) → k < 4
        → slice_index_or strings.new k [] ≡ iterate next_string steps (slice_index_or strings.old k []) }
{
    for step in 0..steps {
        let digests = four_digests(strings);
        set_steps(strings, &digests);
    }
}
