//! Seeds of keys, and opening by them.

ghost use Rattle.std.specs.Prelude.{◌≡◌, ◌↔◌, ◌∷◌, [], ◌≢◌, IsTrue, IfSome, IfNone, bytes_eq, ℕ, List};
ghost use Rattle.wire_core.specs.Hash.{hash_of};
ghost use Rattle.ring_encrypt.specs.Capsule.{key_of_seed, capsule_of};
ghost use Rattle.ring_encrypt.specs.Opening.{opened, decoded, IsMessage};

use crate::capsules::{Capsule, seal_seed};
use crate::draws::{draw_ternary, draw_uniform};
use crate::opening::read_message;
use crate::public_keys::PublicKey;
use ring_poly::{PACKED_BYTES, Ternary, add, mul, unpack, unpack_short};
use std::marker::Model;
use wire_core::{Register, Tag};

/// A seed that is used for its key, and in the end revealed or destroyed: a value of this type can
/// be neither dropped nor copied.
pub struct KeySeed {
    seed: [u8; 32],
    public: PublicKey,
    secret: Ternary,
}

impl Model for KeySeed {
    ghost use Rattle.std.specs.Prelude.{List, ℕ, ◌≡◌};
    ghost use Rattle.ring_encrypt.specs.Capsule.{key_of_seed, secret_of};

    ghost Value = { List ℕ };

    ghost view = { λ key. key.seed };

    ghost invariant = { λ key. (key.public ≡ key_of_seed key.seed) × (key.secret ≡ secret_of key.seed) };
}

impl KeySeed {
    /// Takes a seed into use.
    pub fn new(seed: [u8; 32]) -> KeySeed
        ensures { result ≡ seed }
    {
        let stretched = hash_of(Tag::RingSecret, &seed);
        let secret = draw_ternary(&stretched, 0);
        let rho = hash_of(Tag::RingPublic, &seed);
        let product = mul(&draw_uniform(&rho), &secret);
        let b = add(&product, &draw_ternary(&stretched, 64).to_poly());
        let public = PublicKey::of(&rho, &b);
        KeySeed {
            seed,
            public,
            secret,
        }
    }

    /// The public key of the seed.
    pub fn public(&self) -> PublicKey
        ensures { result ≡ key_of_seed self.now }
    {
        self.public
    }

    /// Opens a capsule: the 32 bytes of which this is the capsule under the key of the seed, and
    /// `None` exactly where it is that of no 32 bytes.
    pub fn open_with(&self, c: &Capsule) -> Option<[u8; 32]>
        ensures value { result ≡ opened self.now c.now }
        ensures opens { IfSome result (λ m. IsMessage m × (c.now ≡ capsule_of (key_of_seed self.now) m)) }
        ensures refuses { IfNone result ((m : List ℕ) → IsMessage m → c.now ≢ capsule_of (key_of_seed self.now) m) }
    {
        let m = self.read(c)?;
        let again = seal_seed(&self.public, &m);
        if is_same(c, &again) { Some(m) } else { None }
    }

    // What the seed reads in a capsule. `None` where the capsule has a coefficient that is too large,
    // so that it is the capsule of nothing.
    fn read(&self, c: &Capsule) -> Option<[u8; 32]>
        ensures value { IfSome result (λ m. m ≡ decoded self.now c.now) }
        ensures refused { IfNone result ((key m : List ℕ) → c.now ≢ capsule_of key m) }
    {
        let bytes = c.bytes();
        let Ok(u) = unpack(&bytes[..PACKED_BYTES]) else {
            return None;
        };
        let Ok(v) = unpack_short(&bytes[PACKED_BYTES..]) else {
            return None;
        };
        Some(read_message(&v, &mul(&u, &self.secret)))
    }

    /// Gives the seed away. After this it is no secret.
    pub fn reveal(self) -> [u8; 32]
        ensures { result ≡ self }
    {
        let KeySeed {
            seed,
            public: _,
            secret: _,
        } = self;
        seed
    }

    /// Gives the seed up. Its memory is not wiped.
    pub fn destroy(self) {
        let KeySeed {
            seed: _,
            public: _,
            secret: _,
        } = self;
    }
}

/// The public key of a seed.
pub fn public_of(seed: &[u8; 32]) -> PublicKey
    ensures { result ≡ key_of_seed seed.now }
{
    let key = KeySeed::new(*seed);
    let public = key.public();
    key.destroy();
    public
}

/// Whether a key is that of a seed.
pub fn is_key_of(seed: &[u8; 32], key: &PublicKey) -> bool
    ensures { IsTrue result ↔ (key.now ≡ key_of_seed seed.now) }
{
    public_of(seed).bytes() == key.bytes()
}

/// Opens a capsule by a seed: the 32 bytes of which this is the capsule under the key of the seed,
/// and `None` exactly where it is that of no 32 bytes.
pub fn open_seed(seed: &[u8; 32], c: &Capsule) -> Option<[u8; 32]>
    ensures value { result ≡ opened seed.now c.now }
    ensures opens { IfSome result (λ m. IsMessage m × (c.now ≡ capsule_of (key_of_seed seed.now) m)) }
    ensures refuses { IfNone result ((m : List ℕ) → IsMessage m → c.now ≢ capsule_of (key_of_seed seed.now) m) }
{
    let key = KeySeed::new(*seed);
    let m = key.open_with(c);
    key.destroy();
    m
}

// Whether two capsules are one.
fn is_same(c: &Capsule, other: &Capsule) -> bool
    ensures { result ≡ bytes_eq c.now other.now }
{
    c.bytes() == other.bytes()
}

// The hash of a seed under a tag.
fn hash_of(tag: Tag, seed: &[u8; 32]) -> [u8; 32]
    ensures { result ≡ hash_of tag (seed.now ∷ []) }
{
    let mut register = Register::new(tag);
    register.piece(seed);
    register.end()
}
