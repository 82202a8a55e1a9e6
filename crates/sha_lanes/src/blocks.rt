//! From strings to the words of their blocks (FIPS 180-4, 5.1.1 and 5.2.1), and from words to digests.

ghost use Rattle.std.specs.Prelude.{◌≡◌, ℕ, ◌+◌, ◌*◌, ◌<◌, ◌≤◌, [], ◌∷◌, ◌++◌, map, slice_index, slice_index_or};
ghost use Rattle.sha2.specs.Sha256.{IsWindow, compress, digest_bytes, initial_hash_256, padded_message, schedule, sha256, word_at};
ghost use Rattle.sha_lanes.specs.Lanes.{lane};

use std::simd::u32x4;

const STRING_BYTES: usize = 55;

// A bit 1, zeros, and the length of the string in bits, 440, as 8 bytes.
const PADDING: [u8; 9] = [0x80, 0, 0, 0, 0, 0, 0, 0x01, 0xb8];

/// The block of a string, which is the string and its padding; the digest is made of this block alone.
pub(crate) fn padded_block(string: &[u8; 55]) -> [u8; 64]
    ensures block { result ≡ padded_message string.now }
    ensures digest { sha256 string.now ≡ digest_bytes (compress initial_hash_256 result) 8 }
{
    let mut block = [0; 64];
    block[..STRING_BYTES].copy_from_slice(string);
    block[STRING_BYTES..].copy_from_slice(&PADDING);
    block
}

#[inline(always)]
fn word_of(block: &[u8; 64], i: usize) -> u32
    requires { i + 4 ≤ 64 }
    ensures { result ≡ word_at block.now i }
{
    u32::from_be_bytes([block[i], block[i + 1], block[i + 2], block[i + 3]])
}

// Word k of each block.
#[inline(always)]
fn words_at(blocks: &[[u8; 64]; 4], k: usize) -> u32x4
    requires { k < 16 }
    ensures { (j : ℕ) → j < 4 → slice_index result j ≡ word_at (slice_index_or blocks.now j []) (4 * k) }
{
    u32x4::from_array([
        word_of(&blocks[0], 4 * k),
        word_of(&blocks[1], 4 * k),
        word_of(&blocks[2], 4 * k),
        word_of(&blocks[3], 4 * k),
    ])
}

/// The sixteen words of each of four blocks.
#[inline(always)]
pub(crate) fn words_of(blocks: &[[u8; 64]; 4]) -> [u32x4; 16]
    ensures { (j : ℕ) → j < 4 → IsWindow (lane j result) (schedule (slice_index_or blocks.now j []) 48) 16 }
{
    let mut words = [u32x4::splat(0); 16];
    'words: for k in 0..16 {
        words[k] = words_at(blocks, k);
    }
    words
}

// Four words of each lane: lane j of `a`, `b`, `c` and `d` is vector j of the result.
#[inline(always)]
fn transposed(a: u32x4, b: u32x4, c: u32x4, d: u32x4) -> [u32x4; 4]
    ensures { result ≡ map (λ j. lane j (a ∷ b ∷ c ∷ d ∷ [])) (0 ∷ 1 ∷ 2 ∷ 3 ∷ []) }
{
    let (ac_low, ac_high) = a.interleave(c);
    let (bd_low, bd_high) = b.interleave(d);
    let (first, second) = ac_low.interleave(bd_low);
    let (third, fourth) = ac_high.interleave(bd_high);
    [first, second, third, fourth]
}

// The digest of eight words, the high byte of each first.
#[inline(always)]
fn digest_of(front: u32x4, back: u32x4) -> [u8; 32]
    ensures { result ≡ digest_bytes (front ++ back) 8 }
{
    let [a, b, c, d] = front.to_array();
    let [e, f, g, h] = back.to_array();
    let words = [a, b, c, d, e, f, g, h];
    let mut digest = [0; 32];
    'words: for i in 0..8 {
        digest[4 * i..4 * i + 4].copy_from_slice(&words[i].to_be_bytes());
    }
    digest
}

/// The digest in each lane of a hash value.
#[inline(always)]
pub(crate) fn digests_of(hash: &[u32x4; 8]) -> [[u8; 32]; 4]
    ensures { result ≡ map (λ j. digest_bytes (lane j hash.now) 8) (0 ∷ 1 ∷ 2 ∷ 3 ∷ []) }
{
    let [a, b, c, d, e, f, g, h] = *hash;
    let front = transposed(a, b, c, d);
    let back = transposed(e, f, g, h);
    [
        digest_of(front[0], back[0]),
        digest_of(front[1], back[1]),
        digest_of(front[2], back[2]),
        digest_of(front[3], back[3]),
    ]
}
