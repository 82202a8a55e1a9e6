//! A link, on which a member of a group sends its posts to the others and takes theirs, as a caller sees it and as
//! contracts do. With it comes a link in memory that fails by a plan.
#![tactic(auto)]

mod link;
mod link_call;
mod memory_link;

pub use link::{Arrival, Link, LinkAnswer};
pub use link_call::LinkCall;
pub use memory_link::MemoryLink;
