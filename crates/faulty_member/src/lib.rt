//! A member of a script with a fault: it alters what the rules give it to say, and says all else as an honest member.
#![tactic(auto)]

mod altering;
mod bits;
mod faulty;
mod flipping;
mod kept;

pub use bulk_descriptor::Descriptor;
pub use faulty::Faulty;
pub use member_spec::{Conduct, Speech};
pub use round_script::Fault;
pub use stage_log::StageLog;
pub use wire_core::{List, Mem};
