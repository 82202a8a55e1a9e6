//! What an honest member says at each stage of a round, and the secrets that it says it with.
//!
//! Each call makes the body of one row. It is handed what the member carries forward: the log, which is complete before
//! the stage, the view of what was said, the keys and the opened list. So nothing is read or hashed twice.
#![tactic(auto)]

mod closing;
mod group_keys;
mod keys;
mod laws;
mod opening;
mod pads;
mod said;
mod seat;
mod secrets;
mod speaking;
mod submitting;
mod turning;
mod voting;

pub use closing::{confirm_body, final_body};
pub use group_keys::{GroupKeys, ShuffleKeys};
pub use keys::keys_body;
pub use laws::what_was_said_stays;
pub use opening::{Slots, opened_items, slots_said};
pub use pads::pads_body;
pub use seat::Seat;
pub use secrets::{BulkSecrets, ShuffleSecrets};
pub use speaking::content;
pub use submitting::{accusation_item, make_descriptor, submit};
pub use turning::turn_body;
pub use voting::{check_body, go_body};
