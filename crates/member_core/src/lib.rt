//! A member of a group in a round: it takes deliveries in any order, says what its conduct makes of what the rules give it
//! to say, and comes to the result of the round.
#![tactic(auto)]

mod entering;
mod machine;
mod member;
mod rows;
mod speaking;
mod submissions;
mod taking;
mod turning;

pub use bulk_descriptor::{Descriptor, SlotState};
pub use group_roster::Roster;
pub use lms_tree::LeafRun;
pub use member::Member;
pub use member_parts::Config;
pub use member_spec::{Conduct, Honest, Speech, State, Taken};
pub use signed_post::PostRefusal;
pub use stage_log::StageLog;
pub use transcript_form::Claim;
