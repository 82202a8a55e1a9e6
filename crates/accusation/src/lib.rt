//! Accusations: by the seed of a pad the maker of a message shows who failed to send that pad.
#![tactic(auto)]

mod holding;
mod item;
mod laws;

pub use bulk_descriptor::{Descriptor, List, PadTable, PublicKey, SlotState};
pub use holding::{AccusationRefusal, holds};
pub use item::own_item;
pub use laws::accusation_laws;
pub use transcript_form::Accusation;
