//! LMS, the tree signatures of RFC 8554, section 5, with SHA-256: secrets, public keys, signing and verification.
#![tactic(auto)]

mod keys;
mod laws;
mod leaf_runs;
mod nodes;
mod own_trees;
mod secrets;
mod verifier;

pub use keys::{KeyRefusal, LmsPublic, LmsType};
pub use laws::own_signatures_are_valid;
pub use leaf_runs::LeafRun;
pub use lm_ots::{OtsRefusal, OtsType};
pub use secrets::{LmsSecret, MadeHeight, ReserveRefusal, parts_of_master};
pub use verifier::{LmsRefusal, check_decides_validity, verify};
