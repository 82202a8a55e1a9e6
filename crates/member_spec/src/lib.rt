//! What a member of a group does in a round: a machine that takes deliveries in any order, the conduct that stands between
//! the rules and what it posts, and the laws of both.
#![tactic(auto)]

mod conduct;
mod laws;
mod mood;
mod state;
mod taken;

pub use conduct::{Conduct, Honest, Speech};
pub use laws::{
    eight_keep_at_most, honest_is_plain, idle_deliveries, open_members_wait, order_changes_nothing,
    plain_members, posts_only_grow,
};
pub use mood::Mood;
pub use state::State;
pub use taken::Taken;

#[cfg(test)]
mod tests;
