//! Blame by replay: whom the earlier posts of a round, and what the members show of their outer layers, prove at fault.
//!
//! A replay looks for the first fault in a fixed order: a view, a shown outer seed, a submission, a turn of the
//! shuffle, and last a vote.
#![tactic(auto)]

mod culprit;
mod ended;
mod fault;
mod laws;
mod order;
mod parts;
mod said;
mod seeds;
mod submissions;
mod turn;
mod votes;

pub use culprit::replay;
pub use fault::{Cause, Fault, Shown};
pub use laws::{
    last_list_has, lists_are_stripped, no_seed_fault, no_submission_fault, no_view_fault,
    stripped_distinct, unlike_votes_blame,
};
pub use stage_log::StageLog;
