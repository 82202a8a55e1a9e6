//! Layers of encryption: a body hidden under a public key, and one layer upon another.
//!
//! A layer is the 2,240 bytes of a capsule, 32 bytes of check value, and the body under a mask that
//! is drawn from what the capsule carries. So it is 2,272 bytes longer than its body.
#![tactic(auto)]

mod laws;
mod mask;
mod peeling;
mod sealing;

pub use laws::{layer_laws, stripping_laws, stripping_through_laws};
pub use peeling::{Peeled, peel, peel_with};
pub use ring_encrypt::{KeySeed, PublicKey};
pub use sealing::{LAYER_BYTES, seal, wrap};
pub use wire_core::List;
