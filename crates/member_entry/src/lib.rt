//! What a member enters a round with: what the words of the command `member` name is read, and the key file is raised.
#![tactic(auto)]

mod entering;
mod member_command;

pub use entering::{Entrant, begin_round, enter};
pub use member_command::MemberCommand;
