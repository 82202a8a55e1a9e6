//! Sealing 32 bytes under a public key, after Lyubashevsky, Peikert and Regev, with the test by
//! sealing again of Fujisaki and Okamoto: what is sealed opens, and nothing else does.
//!
//! Polynomials have 1,024 coefficients modulo 12289, and x^1024 = -1. No call takes memory.
#![tactic(auto)]

mod bytes;
mod capsules;
mod draws;
mod key_seeds;
mod laws;
mod opening;
mod public_keys;

pub use capsules::{Capsule, read_capsule, seal_seed};
pub use key_seeds::{KeySeed, is_key_of, open_seed, public_of};
pub use laws::opening_laws;
pub use public_keys::{PublicKey, read_key};
pub use ring_poly::{CoefficientTooLarge, KEY_BYTES};

/// How many bytes a capsule has: two packed lists of coefficients, of 1,024 and of 256.
pub const CAPSULE_BYTES: usize = 2240;
