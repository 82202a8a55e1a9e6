//! A member that runs its round over a link: it posts what it has to say, takes what comes, and ends.
#![tactic(auto)]

mod posting;
mod run;
mod run_end;

pub use member_core::{Honest, Member};
pub use round_link::{Arrival, Link, LinkAnswer, LinkCall, MemoryLink};
pub use run::run_member;
pub use run_end::{FRAME_LIMIT, RunEnd};
