//! Bytes that are drawn from a key, pads with their hashes, and the exclusive or of byte strings.
#![tactic(auto)]

mod draws;
mod exclusive_or;
mod pads;

pub use draws::{stream, stream_laws};
pub use exclusive_or::{exclusive_or_laws, xor_into};
pub use pads::{is_pad, pad, pad_hash};
