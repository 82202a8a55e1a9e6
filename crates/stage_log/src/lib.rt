//! What a member keeps of a round: one post for each slot, and the view of what was said before a stage.
#![tactic(auto)]

mod laws;
mod log;
mod running;
mod seen;

pub use laws::{equal_contents, equal_views, pasts_are_fronts, views_look_back};
pub use log::{Put, StageLog};
pub use phase_message::{Post, Shape, Slot};
pub use running::RunningView;
pub use seen::Seen;
