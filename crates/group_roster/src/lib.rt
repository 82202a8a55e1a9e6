//! Rosters: the keys of a group's members, the files that hold them, and the group's id.
#![tactic(auto)]

mod binary;
mod laws;
mod refusal;
mod roster;
mod rule;
mod spelling;
mod toml_form;

pub use binary::decode;
pub use laws::{ids_determine_rosters, rosters_are_spelled};
pub use refusal::RosterRefusal;
pub use roster::Roster;
pub use toml_form::from_toml;
pub use wire_core::List;
