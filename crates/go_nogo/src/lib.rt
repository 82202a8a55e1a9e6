//! The votes of a round: when they are unanimous, what a member says where they are closed, when that is justified,
//! and where two logs differ.
#![tactic(auto)]

mod closing;
mod differences;
mod laws;
mod votes;

pub use closing::justified;
pub use differences::compare_logs;
pub use laws::{embedded_slots, one_kind, own_closing_justified, standing_is_kept};
pub use phase_message::{Content, Slot};
pub use stage_log::StageLog;
pub use votes::{Vote, unanimous, votes_of};
