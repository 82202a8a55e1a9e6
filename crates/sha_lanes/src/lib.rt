//! Four SHA-256 digests side by side.
#![tactic(auto)]

ghost use Rattle.std.specs.Prelude.{◌≡◌, map};
ghost use Rattle.sha2.specs.Sha256.{sha256};

use blocks::{digests_of, padded_block, words_of};
use rounds::compress;

mod blocks;
mod rounds;
mod words;

/// The SHA-256 digests of four strings of 55 bytes, which is as much as one block holds beside its padding
/// (FIPS 180-4, 5.1.1). Takes no memory.
pub fn four_digests(strings: &[[u8; 55]; 4]) -> [[u8; 32]; 4]
    ensures { result ≡ map sha256 strings.now }
{
    let blocks = [
        padded_block(&strings[0]),
        padded_block(&strings[1]),
        padded_block(&strings[2]),
        padded_block(&strings[3]),
    ];
    let hash = compress(words_of(&blocks));
    digests_of(&hash)
}
