//! Transcripts: the posts that are to convict a member, and the bytes that list them. What is asked of
//! the listed posts is the judge's.
#![tactic(auto)]

mod accusation;
mod claim;
mod laws;
mod listed;
mod refusal;
mod transcript;

pub use accusation::Accusation;
pub use claim::Claim;
pub use laws::{accusations_are_spelled, claims_have_numbers, transcripts_are_listed};
pub use listed::{Listed, ListedPosts, read_claim, read_listed};
pub use phase_message::Shape;
pub use refusal::{FailedForm, Refused};
pub use transcript::{Transcript, read_transcript, write_transcript};
pub use wire_core::{List, Mem};
