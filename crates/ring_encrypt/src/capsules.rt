//! Capsules: 32 bytes that are sealed under a public key.

ghost use Rattle.std.specs.Prelude.{◌≡◌, ◌<◌, ◌≤◌, ◌*◌, ◌∷◌, [], length, All, map, slice_index, pos, ◌+ℤ◌};
ghost use Rattle.wire_core.specs.declared.tag.Tag.TheVariants.{RingCoins};
ghost use Rattle.wire_core.specs.Hash.{hash_of};
ghost use Rattle.ring_poly.specs.Residue.{residue};
ghost use Rattle.ring_poly.specs.Product.{IsTrit};
ghost use Rattle.ring_encrypt.specs.Capsule.{capsule_of, sealed_with, carried, message_bit};
ghost use Rattle.ring_encrypt.specs.Reduced.{is_reduced};

use crate::CAPSULE_BYTES;
use crate::bytes::join;
use crate::draws::{draw_ternary, draw_uniform};
use crate::public_keys::PublicKey;
use ring_poly::{
    MODULUS, PACKED_BYTES, Poly, Ternary, add, mul, pack, pack_short, residue_of, unpack,
    unpack_short,
};
use std::marker::Model;
use wire_core::{Register, Tag};

/// 2,240 bytes in which 32 bytes may be sealed: two polynomials u and v, of 1,792 and 448 bytes.
/// Any 2,240 bytes are a capsule; whether they open is for the seed of a key to say.
#[derive(Clone, Copy)]
pub struct Capsule {
    bytes: [u8; CAPSULE_BYTES],
}

impl Model for Capsule {
    ghost use Rattle.std.specs.Prelude.{List, ℕ, ◌≡◌, length};
    ghost use Rattle.ring_encrypt.specs.declared.TheConstants.{CAPSULE_BYTES};

    ghost Value = { List ℕ };

    ghost view = { λ capsule. capsule.bytes };

    ghost invariant = { λ capsule. length capsule.bytes ≡ CAPSULE_BYTES };

    ghost inverse = { λ bytes. record { bytes = bytes } };
}

impl Capsule {
    /// The 2,240 bytes of the capsule.
    pub fn bytes(&self) -> &[u8; CAPSULE_BYTES]
        ensures value { result.now ≡ self.now }
        ensures length { length self.now ≡ CAPSULE_BYTES }
    {
        &self.bytes
    }

    /// Whether each of the 1,280 coefficients that the capsule spells is below 12289, as each is in
    /// what was sealed.
    pub fn is_reduced(&self) -> bool
        ensures { result ≡ is_reduced self.now }
    {
        unpack(&self.bytes[..PACKED_BYTES]).is_ok()
            && unpack_short(&self.bytes[PACKED_BYTES..]).is_ok()
    }
}

/// The capsule of these 2,240 bytes.
pub fn read_capsule(b: &[u8]) -> Capsule
    requires { length b.now ≡ CAPSULE_BYTES }
    ensures { result ≡ b.now }
{
    let mut bytes = [0; CAPSULE_BYTES];
    bytes.copy_from_slice(b);
    Capsule { bytes }
}

/// Seals 32 bytes under a key, honest or not. All that is drawn comes from the key and the bytes,
/// so equal bytes under equal keys have equal capsules.
pub fn seal_seed(key: &PublicKey, m: &[u8; 32]) -> Capsule
    ensures { result ≡ capsule_of key.now m.now }
{
    let coins = coins_of(key, m);
    seal_with(&coins, &draw_uniform(&key.rho()), &key.polynomial(), m)
}

// What all of a capsule's randomness is drawn from.
fn coins_of(key: &PublicKey, m: &[u8; 32]) -> [u8; 32]
    ensures { result ≡ hash_of RingCoins (key.now ∷ m.now ∷ []) }
{
    let mut register = Register::new(Tag::RingCoins);
    register.piece(key.bytes());
    register.piece(m);
    register.end()
}

// Seals 32 bytes with given coins.
fn seal_with(coins: &[u8; 32], a: &Poly, b: &Poly, m: &[u8; 32]) -> Capsule
    ensures { result ≡ sealed_with coins.now a.now b.now m.now }
{
    let r = draw_ternary(coins, 0);
    let u = add(&mul(a, &r), &draw_ternary(coins, 64).to_poly());
    let v = carry(&mul(b, &r), &draw_ternary(coins, 128), m);
    let mut bytes = [0; CAPSULE_BYTES];
    join(&pack(&u), &pack_short(&v), &mut bytes);
    Capsule { bytes }
}

// The coefficients that carry the bits of m.
fn carry(product: &Poly, error: &Ternary, m: &[u8; 32]) -> [u16; 256]
    ensures value { result ≡ carried product.now error.now m.now }
    ensures reduced { All (λ c. c < MODULUS) result }
{
    let mut v = [0; 256];
    for c in 0..256 {
        let bit = (m[c / 8] >> (c % 8)) & 1;
        v[c] = carrying(product.get(c), error.get(c), bit);
    }
    v
}

// One coefficient that carries a bit.
fn carrying(product: u16, error: i8, bit: u8) -> u16
    requires product { product < MODULUS }
    requires error { IsTrit error }
    requires bit { bit ≤ 1 }
    ensures value { result ≡ residue (pos product +ℤ error +ℤ pos (6144 * bit)) }
    ensures reduced { result < MODULUS }
{
    let sum = i32::from(product) + i32::from(error) + 6144 * i32::from(bit);
    residue_of(sum)
}
