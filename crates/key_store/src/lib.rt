//! The key file of an LMS key: it keeps which leaves were handed out and in which round, over a disk that may fail.
#![tactic(auto)]

mod front;
mod laws;
mod layout;
mod refusals;
mod steps;
mod store;

pub use crash_disk::{Disk, DiskAnswer, DiskRead, MemoryDisk, Pick};
pub use laws::leaves_are_used_once;
pub use refusals::StoreRefusal;
pub use store::{KeyFile, create};
