//! LM-OTS, the one-time signatures of RFC 8554, section 4, with SHA-256: keys that sign once, and what a verifier computes.
#![tactic(auto)]

mod chains;
mod digits;
mod one_time_keys;
mod step_strings;
mod strings;
mod types;
mod walks;

pub use chains::{OtsRefusal, candidate, chain, message_hash};
pub use digits::{checksum, coef, signed_string};
pub use one_time_keys::{OtsKey, make, own_signatures_lead_to_their_key};
pub use strings::{head_word, u16str, u32str};
pub use types::OtsType;
