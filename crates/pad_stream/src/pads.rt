//! Pads: bytes that are drawn from a seed, and their hashes.

ghost use Rattle.std.specs.Prelude.{◌≡◌, ◌^◌, ◌<◌, ◌≤◌, ◌*◌, ◌↔◌, ◌++◌, ◌∷◌, [], ℕ, List, length, IfOk, IsTrue};
ghost use Rattle.sha2.specs.Hashers.{Holds256};
ghost use Rattle.wire_core.specs.declared.tag.Tag.TheVariants.{PadStream, PadHash};
ghost use Rattle.wire_core.specs.Hash.{hash_of};
ghost use Rattle.pad_stream.specs.Stream.{stream_of, pad_of, bytes_from};

use crate::draws::{draw, stream};
use sha2::{Digest, Sha256};
use std::alloc::{AllocError, Global};
use wire_core::{Register, Tag};

// How many words are drawn at once, and how many bytes that is.
const PART_WORDS: u32 = 64;

const PART: u32 = 256;

/// The pad of a seed: `length` bytes that are drawn from the hash of the seed.
pub fn pad(alloc: Global, seed: &[u8; 32], length: u32) -> Result<Vec<u8>, AllocError>
    ensures { IfOk result (λ bytes. bytes.items ≡ pad_of seed.now length) }
{
    stream(alloc, &pad_key(seed), length)
}

/// The hash of the pad of a seed of `length` bytes. It takes no memory.
pub fn pad_hash(seed: &[u8; 32], length: u32) -> [u8; 32]
    ensures { result ≡ hash_of PadHash (pad_of seed.now length ∷ []) }
{
    let mut hasher = Sha256::new();
    hasher.update(b"DSNT1");
    hasher.update([Tag::PadHash.number()]);
    hasher.update(length.to_be_bytes());
    hash_stream(&mut hasher, &pad_key(seed), length);
    hasher.finalize()
}

/// Whether the bytes that were sent are the pad of a seed of `length` bytes. It takes no memory.
pub fn is_pad(seed: &[u8; 32], sent: &[u8], length: u32) -> bool
    ensures { IsTrue result ↔ (sent.now ≡ pad_of seed.now length) }
{
    sent.len() == length as usize && is_stream(&pad_key(seed), sent)
}

// The key from which the pad of a seed is drawn.
fn pad_key(seed: &[u8; 32]) -> [u8; 32]
    ensures { result ≡ hash_of PadStream (seed.now ∷ []) }
{
    let mut register = Register::new(Tag::PadStream);
    register.piece(seed);
    register.end()
}

// Adds the first `length` bytes that are drawn from a key to what the hasher holds.
fn hash_stream(hasher: &mut Sha256, key: &[u8; 32], length: u32)
    ensures { (m : List ℕ) → Holds256 hasher.old m → Holds256 hasher.new (m ++ stream_of key.now length) }
{
    let mut buffer = [0; PART as usize];
    for i in 0..length.div_ceil(PART) {
        let size = (length - PART * i).min(PART) as usize;
        let part = &mut buffer[..size];
        draw(key, PART_WORDS * i, part);
        hasher.update(&*part);
    }
}

// Whether the bytes are those that are drawn from a key.
fn is_stream(key: &[u8; 32], sent: &[u8]) -> bool
    requires { length sent.now < 2 ^ 32 }
    ensures { IsTrue result ↔ (sent.now ≡ stream_of key.now (length sent.now)) }
{
    let length = sent.len() as u32;
    for i in 0..length.div_ceil(PART) {
        let from = (PART * i) as usize;
        let size = (sent.len() - from).min(PART as usize);
        if !is_drawn(key, PART_WORDS * i, &sent[from..from + size]) {
            return false;
        }
    }
    true
}

// Whether the bytes of one part are those that are drawn from a key, from word `place` on.
fn is_drawn(key: &[u8; 32], place: u32, part: &[u8]) -> bool
    requires { length part.now ≤ PART }
    ensures { IsTrue result ↔ (part.now ≡ bytes_from key.now (4 * place) (length part.now)) }
{
    let mut buffer = [0; PART as usize];
    let drawn = &mut buffer[..part.len()];
    draw(key, place, drawn);
    part == &*drawn
}
