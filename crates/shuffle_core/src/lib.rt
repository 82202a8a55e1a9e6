//! A shuffle: what a member submits to it, what each turn says of its input, and how the last list
//! is opened.
//!
//! Each member wraps its item in layers under the inner keys of all members, and these in layers
//! under the outer keys. In its turn a member takes one outer layer off every entry and puts the
//! bodies in an order that it draws. No call asks how large a group is.
#![tactic(auto)]

mod entry;
mod last_list;
mod laws;
mod seeds;
mod submitting;
mod turn;

pub use entry::Submission;
pub use last_list::{open_final, own_place};
pub use laws::{opening_laws, order_laws, place_laws, seed_laws, turn_laws};
pub use phase_message::{Body, POST_LIMIT};
pub use ring_encrypt::{KeySeed, PublicKey};
pub use seeds::layer_seeds;
pub use submitting::{MOST_KEYS, submission};
pub use turn::{anonymize, strip};
pub use wire_core::List;
