//! Making a descriptor and the maker's own pad.

ghost use Rattle.std.specs.Prelude.{◌≡◌, ◌≤◌, ◌<◌, ◌^◌, ◌++◌, ◌+◌, ◌∷◌, [], length, map, remove, vec_len, IfOk, OnOk};
ghost use Rattle.wire_core.specs.declared.tag.Tag.TheVariants.{Message};
ghost use Rattle.wire_core.specs.Hash.{hash_of};
ghost use Rattle.bulk_descriptor.specs.declared.making.TheConstants.{MESSAGE_LIMIT};
ghost use Rattle.bulk_descriptor.specs.Descriptor.{hash_of_pad, pads_of, hidden_under, own_pad, sealed_seeds, made_pads, made_descriptor};
ghost use Rattle.bulk_descriptor.specs.Fields.{description_of};

use crate::descriptor::Descriptor;
use crate::pads::hash_of_pad;
use pad_stream::{pad, xor_into};
use ring_encrypt::{Capsule, PublicKey, seal_seed};
use std::alloc::Global;
use wire_core::{List, Mem, Register, Tag};

/// How many bytes a message may have.
pub const MESSAGE_LIMIT: u32 = 65_536;

/// What the maker of a descriptor holds.
#[derive(Drop)]
pub struct Made {
    /// What it tells of its message.
    pub descriptor: Descriptor,
    /// The pad that it sends itself: as long as the message.
    pub own_pad: List<u8>,
}

/// The descriptor of a message of at most 65,536 bytes that `member` of a group of 2 to 16 makes by the keys of
/// all members and a pad seed for each of them, and its own pad. The maker's own seed is sealed like the others,
/// and used for nothing else.
pub fn make(
    alloc: Global,
    keys: &Vec<PublicKey>,
    seeds: &Vec<[u8; 32]>,
    member: u8,
    message: &[u8],
) -> Mem<Made>
    requires least { 2 ≤ vec_len seeds.now }
    requires most { vec_len seeds.now ≤ 16 }
    requires as_many { vec_len keys.now ≡ vec_len seeds.now }
    requires first { 1 ≤ member }
    requires last { member ≤ vec_len seeds.now }
    requires short { length message.now ≤ MESSAGE_LIMIT }
    ensures descriptor { IfOk result (λ made. description_of made.descriptor ≡ made_descriptor keys.now.items seeds.now.items member message.now) }
    ensures pad { IfOk result (λ made. made.own_pad ≡ own_pad seeds.now.items member message.now) }
{
    let (own_pad, pad_hashes) = spread(alloc, seeds, member as usize - 1, message)?;
    let capsules = seal_seeds(alloc, keys, seeds)?;
    let descriptor = Descriptor {
        length: message.len() as u32,
        message_hash: message_hash(message),
        pad_hashes: List::of(pad_hashes),
        capsules: List::of(capsules),
    };
    Ok(Made {
        descriptor,
        own_pad: List::of(own_pad),
    })
}

// The own pad of the member at a place, counted from 0, and the hashes of the pads of all members.
fn spread(
    alloc: Global,
    seeds: &[[u8; 32]],
    place: usize,
    message: &[u8],
) -> Mem<(Vec<u8>, Vec<[u8; 32]>)>
    requires place { place < length seeds.now }
    requires short { length message.now < 2 ^ 32 }
    ensures pad { IfOk result (λ x. x.0.items ≡ own_pad seeds.now (place + 1) message.now) }
    ensures hashes { IfOk result (λ x. x.1.items ≡ map hash_of_pad (made_pads seeds.now (place + 1) message.now)) }
{
    let mut own_pad = Vec::from_slice(alloc, message)?;
    let mut hashes = Vec::with_capacity(alloc, seeds.len())?;
    hide_but(alloc, seeds, place, &mut own_pad, &mut hashes)?;
    hashes.insert(place, hash_of_pad(&own_pad))?;
    Ok((own_pad, hashes))
}

// Hides bytes under the pads of all seeds but the one at a place, and appends the hashes of these pads.
fn hide_but(
    alloc: Global,
    seeds: &[[u8; 32]],
    place: usize,
    bytes: &mut [u8],
    hashes: &mut Vec<[u8; 32]>,
) -> Mem<()>
    requires place { place < length seeds.now }
    requires short { length bytes.old < 2 ^ 32 }
    ensures bytes { OnOk result (bytes.new ≡ hidden_under bytes.old (pads_of (remove seeds.now place) (length bytes.old))) }
    ensures hashes { OnOk result (hashes.new.items ≡ hashes.old.items ++ map hash_of_pad (pads_of (remove seeds.now place) (length bytes.old))) }
{
    let (before, rest) = seeds.split_at(place);
    let (_, after) = rest.split_at(1);
    hide(alloc, before, bytes, hashes)?;
    hide(alloc, after, bytes, hashes)?;
    Ok(())
}

// Hides bytes under the pads of seeds, and appends the hashes of these pads.
fn hide(alloc: Global, seeds: &[[u8; 32]], bytes: &mut [u8], hashes: &mut Vec<[u8; 32]>) -> Mem<()>
    requires { length bytes.old < 2 ^ 32 }
    ensures bytes { OnOk result (bytes.new ≡ hidden_under bytes.old (pads_of seeds.now (length bytes.old))) }
    ensures hashes { OnOk result (hashes.new.items ≡ hashes.old.items ++ map hash_of_pad (pads_of seeds.now (length bytes.old))) }
{
    let length = bytes.len() as u32;
    for seed in seeds {
        let pad = pad(alloc, seed, length)?;
        xor_into(bytes, &pad);
        hashes.push(hash_of_pad(&pad))?;
    }
    Ok(())
}

// Each seed sealed under the key of its member.
fn seal_seeds(alloc: Global, keys: &Vec<PublicKey>, seeds: &Vec<[u8; 32]>) -> Mem<Vec<Capsule>>
    requires { vec_len keys.now ≡ vec_len seeds.now }
    ensures { IfOk result (λ capsules. capsules.items ≡ sealed_seeds keys.now.items seeds.now.items) }
{
    let mut capsules = Vec::with_capacity(alloc, keys.len())?;
    for k in 0..keys.len() {
        capsules.push(seal_seed(&keys[k], &seeds[k]))?;
    }
    Ok(capsules)
}

// The hash of a message.
pub(crate) fn message_hash(message: &[u8]) -> [u8; 32]
    requires { length message.now < 2 ^ 32 }
    ensures { result ≡ hash_of Message (message.now ∷ []) }
{
    let mut register = Register::new(Tag::Message);
    register.piece(message);
    register.end()
}
