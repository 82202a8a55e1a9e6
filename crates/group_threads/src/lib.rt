//! A round of a whole group on one queue: members, faulty ones among them, are asked for their posts, and each post is
//! delivered to its recipients, until nothing is on its way.
#![tactic(auto)]

mod copying;
mod driving;
mod ending;
mod leaves;
mod player;
mod queue;
mod scripted;
mod second;

pub use bulk_descriptor::SlotState;
pub use driving::drive;
pub use ending::GroupEnd;
pub use faulty_member::{Fault, Faulty};
pub use group_roster::Roster;
pub use group_spec::MemberEnd;
pub use leaves::Leaves;
pub use member_core::{Config, State};
pub use phase_message::Slot;
pub use round_script::{FaultLine, Script, ScriptRefusal, make_script, parse_script};
pub use scripted::run_scripted;
pub use wire_core::{List, Mem};
