//! The parts that a member of a round is made of, each by itself: what it enters with, the secrets that it still needs, what
//! it made of its own, what has ended its round, and what it finds of a post that it hears.
#![tactic(auto)]

mod config;
mod ending;
mod finding;
mod own;
mod secrets;

pub use config::Config;
pub use ending::Ending;
pub use finding::{Found, find, shown, slot_of};
pub use own::Own;
pub use secrets::Secrets;
