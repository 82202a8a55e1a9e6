//! Messages from the pads of a group: for each slot of the opened list, what its descriptor and the pads that
//! were sent for it come to.
#![tactic(auto)]

mod joining;
mod recovery;

pub use bulk_descriptor::{Descriptor, PadTable, SlotState};
pub use recovery::recover;
