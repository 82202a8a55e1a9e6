//! What a closing stage of a round comes to, for a member that keeps all its posts.
//!
//! Once a closing stage is complete, `Closing::judge` finds the first of: a closing content that is not justified, a second
//! content of a slot, a revealed seed of another key, an accusation of a pad that holds, and what a replay blames. Each of
//! these convicts a member by a transcript. Else the round goes on, or it is done.
#![tactic(auto)]

mod accusing;
mod convicting;
mod dissent;
mod judging;
mod reading;
mod seeds;

pub use convicting::{Conviction, contradicted, malformed};
pub use group_roster::Roster;
pub use honest_say::{GroupKeys, Slots};
pub use judging::{Closing, Judged};
pub use phase_message::Post;
pub use stage_log::StageLog;
pub use transcript_form::Claim;
