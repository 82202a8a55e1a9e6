//! The judge of transcripts: what convicts a member, and the first check that a transcript fails.
#![tactic(auto)]

mod bad_log;
mod failed_check;
mod hearing;
mod judging;
mod laws;
mod listed_log;
mod pad;
mod reading;
mod replaying;
mod wrong_seed;

pub use failed_check::FailedCheck;
pub use group_roster::Roster;
pub use judging::{Accepted, judge};
pub use laws::checks_are_exact;
pub use transcript_form::{Claim, Refused};
