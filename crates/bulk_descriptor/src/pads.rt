//! Pads that are sent.

ghost use Rattle.std.specs.Prelude.{◌≡◌, ◌<◌, ◌≤◌, ◌^◌, ◌∷◌, [], length, IfOk};
ghost use Rattle.std.specs.Str.{bytes_eq};
ghost use Rattle.bulk_descriptor.specs.Descriptor.{hash_of_pad, pad_row};

use crate::reading::decode;
use ring_encrypt::KeySeed;
use std::alloc::Global;
use wire_core::{List, Mem, Register, Tag};

/// What a member sends for an entry of the opened list, in a group of `n` from 2 to 16: its own pad where the
/// entry is `own`, the bytes of its own descriptor; else the pad that the entry's descriptor has for it; and the
/// empty pad where the entry is no descriptor, or has none for it.
pub fn sent_pad(
    alloc: Global,
    n: u8,
    own: &[u8],
    own_pad: &[u8],
    member: u8,
    seed: &KeySeed,
    entry: &[u8],
) -> Mem<List<u8>>
    requires first { 1 ≤ member }
    requires last { member ≤ n }
    ensures { IfOk result (λ pad. pad ≡ pad_row n own.now own_pad.now member seed.now entry.now) }
{
    if is_own(own, entry) {
        return Ok(List::of(Vec::from_slice(alloc, own_pad)?));
    }
    let Some(descriptor) = decode(alloc, n, entry)? else {
        return Ok(List::of(Vec::new(alloc)));
    };
    match descriptor.my_pad(alloc, member, seed)? {
        Some(pad) => Ok(pad),
        None => Ok(List::of(Vec::new(alloc))),
    }
}

// Whether an entry is the member's own.
fn is_own(own: &[u8], entry: &[u8]) -> bool
    ensures { result ≡ bytes_eq entry.now own.now }
{
    entry == own
}

// The hash of a pad.
pub(crate) fn hash_of_pad(pad: &[u8]) -> [u8; 32]
    requires { length pad.now < 2 ^ 32 }
    ensures { result ≡ hash_of_pad pad.now }
{
    let mut register = Register::new(Tag::PadHash);
    register.piece(pad);
    register.end()
}

// Whether a pad has a hash.
pub(crate) fn is_hashed_to(pad: &[u8], hash: &[u8; 32]) -> bool
    requires { length pad.now < 2 ^ 32 }
    ensures { result ≡ bytes_eq (hash_of_pad pad.now) hash.now }
{
    hash_of_pad(pad) == *hash
}
