//! What is printed of a round of a whole group.
#![tactic(auto)]

mod counts;
mod lines;
mod report;

pub use group_spec::MemberEnd;
pub use lines::open_text;
pub use report::{evidence, group_text, make_text, slots_text};
