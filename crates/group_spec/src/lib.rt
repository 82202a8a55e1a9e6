//! What a group of members comes to on one queue, with faults and with posts that do not arrive: definitions and their laws.
#![tactic(auto)]

mod ending;
mod laws;

pub use ending::MemberEnd;
pub use laws::{deliveries_posted, honest_conducts, queue_empties};
