//! What a member tells of its message.

ghost use Rattle.bulk_descriptor.specs.Descriptor.{IsDescriptor};

use crate::encoding::{put_capsules, put_hashes};
use crate::making::message_hash;
use crate::pads::is_hashed_to;
use pad_stream::{pad, pad_hash};
use ring_encrypt::{Capsule, KeySeed};
use std::alloc::Global;
use wire_core::{List, Mem, put_bytes, put_u32};

/// How many bytes of a descriptor stand before its pad hashes: the length and the hash of its message.
pub const HEAD_BYTES: usize = 36;

/// How many bytes a descriptor has for each member: a pad hash and a capsule.
pub const MEMBER_BYTES: usize = 2272;

/// A descriptor of a message for a group of 2 to 16 members. Members count from 1.
#[derive(Drop)]
pub struct Descriptor {
    /// How many bytes the message has, at most 65,536.
    pub length: u32,
    /// The hash of the message.
    pub message_hash: [u8; 32],
    /// The hash of the pad that each member is to send.
    pub pad_hashes: List<[u8; 32]>,
    /// The seed of each member's pad, sealed under the member's key. No capsule spells a coefficient of 12289
    /// or more.
    pub capsules: List<Capsule>,
    pub ghost form: { IsDescriptor length message_hash pad_hashes capsules },
}

impl Descriptor {
    ghost use Rattle.std.specs.Prelude.{◌≡◌, ◌≤◌, ◌<◌, ◌^◌, ◌∷◌, [], length, IfOk, OnErr, IsSome};
    ghost use Rattle.std.specs.Str.{bytes_eq};
    ghost use Rattle.wire_core.specs.declared.tag.Tag.TheVariants.{Message};
    ghost use Rattle.wire_core.specs.Hash.{hash_of};
    ghost use Rattle.bulk_descriptor.specs.Descriptor.{OfGrammar, descriptor_text, fits, pad_found};
    ghost use Rattle.bulk_descriptor.specs.Fields.{description_of};

    /// The bytes of the descriptor, 36 and 2,272 for each member: the length in four bytes, high byte first, the
    /// message's hash, all pad hashes, all capsules. Each descriptor is of the grammar for as many members as
    /// it has pad hashes.
    pub fn encode(&self, alloc: Global) -> Mem<Vec<u8>>
        ensures value { IfOk result (λ bytes. bytes.items ≡ descriptor_text (description_of self.now)) }
        ensures grammar { OfGrammar (length self.now.pad_hashes) (description_of self.now) }
    {
        let members = self.pad_hashes.items().len();
        let mut bytes = Vec::with_capacity(alloc, HEAD_BYTES + MEMBER_BYTES * members)?;
        put_u32(&mut bytes, self.length)?;
        put_bytes(&mut bytes, &self.message_hash)?;
        put_hashes(&mut bytes, self.pad_hashes.items())?;
        put_capsules(&mut bytes, self.capsules.items())?;
        Ok(bytes)
    }

    /// Whether a pad of a member has the length of the message and the hash that the descriptor gives.
    pub fn fits(&self, member: u8, pad: &[u8]) -> bool
        requires first { 1 ≤ member }
        requires last { member ≤ length self.now.pad_hashes }
        ensures { result ≡ fits (description_of self.now) member pad.now }
    {
        pad.len() == self.length as usize
            && is_hashed_to(pad, &self.pad_hashes.items()[member as usize - 1])
    }

    /// Whether a message of fewer than 2^32 bytes has the hash that the descriptor tells.
    pub fn has_hash_of(&self, message: &[u8]) -> bool
        requires { length message.now < 2 ^ 32 }
        ensures { result ≡ bytes_eq (hash_of Message (message.now ∷ [])) self.now.message_hash }
    {
        message_hash(message) == self.message_hash
    }

    /// The pad of a member by the seed of its key. `None` exactly where the member's capsule does not open, or
    /// the pad of the seed in it lacks its hash; that takes no memory.
    pub fn my_pad(&self, alloc: Global, member: u8, seed: &KeySeed) -> Mem<Option<List<u8>>>
        requires first { 1 ≤ member }
        requires last { member ≤ length self.now.pad_hashes }
        ensures value { IfOk result (λ found. found ≡ pad_found (description_of self.now) member seed.now) }
        ensures memory { OnErr result (IsSome (pad_found (description_of self.now) member seed.now)) }
    {
        let place = member as usize - 1;
        let Some(pad_seed) = seed.open_with(&self.capsules.items()[place]) else {
            return Ok(None);
        };
        if pad_hash(&pad_seed, self.length) != self.pad_hashes.items()[place] {
            return Ok(None);
        }
        let pad = pad(alloc, &pad_seed, self.length)?;
        Ok(Some(List::of(pad)))
    }
}
