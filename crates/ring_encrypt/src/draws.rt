//! Polynomials that are drawn from a key.

ghost use Rattle.std.specs.Prelude.{◌≡◌, ◌<◌, ◌+◌, ◌≤◌, EachIndex, length, slice_index};
ghost use Rattle.ring_encrypt.specs.Draws.{word_of, uniform, ternary, trit_of};
ghost use Rattle.ring_poly.specs.Product.{IsTrit};

use rand_chacha::ChaCha20Rng;
use rand_core::SeedableRng;
use rand_core::utils::NextWord;
use ring_poly::{DEGREE, MODULUS, Poly, Ternary};

/// The polynomial that is drawn from a key: each coefficient is a word modulo 12289.
pub(crate) fn draw_uniform(key: &[u8; 32]) -> Poly
    ensures { result ≡ uniform key.now }
{
    let words: [u32; DEGREE] = draw_words(key, 0);
    let mut coefficients = [0; DEGREE];
    for place in 0..DEGREE {
        coefficients[place] = (words[place] % MODULUS as u32) as u16;
    }
    Poly::of(coefficients)
}

/// The ternary polynomial that is drawn from a key, from word `place` on.
pub(crate) fn draw_ternary(key: &[u8; 32], place: u32) -> Ternary
    ensures { result ≡ ternary key.now place }
{
    let words: [u32; 64] = draw_words(key, place);
    let mut coefficients = [0; DEGREE];
    for c in 0..DEGREE {
        coefficients[c] = trit(words[c / 16], c % 16);
    }
    Ternary::of(coefficients)
}

// The words that are drawn from a key, from a place on.
fn draw_words<const COUNT: usize>(key: &[u8; 32], place: u32) -> [u32; COUNT]
    requires { COUNT ≤ DEGREE }
    ensures words { EachIndex result (λ i. slice_index result i ≡ word_of key.now (place + i)) }
    ensures length { length result ≡ COUNT }
{
    let mut generator = ChaCha20Rng::from_seed(*key);
    generator.set_word_pos(u128::from(place));
    let mut words = [0; COUNT];
    for i in 0..COUNT {
        words[i] = generator.next_word();
    }
    words
}

// The difference of bits 2i and 2i + 1 of a word.
fn trit(word: u32, i: usize) -> i8
    requires { i < 16 }
    ensures value { result ≡ trit_of word i }
    ensures trit { IsTrit result }
{
    let plus = (word >> (2 * i)) & 1;
    let minus = (word >> (2 * i + 1)) & 1;
    plus as i8 - minus as i8
}
