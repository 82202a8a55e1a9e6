//! A disk with one file, as a caller sees it and as contracts do: what a call does to the bytes, and what a crash may
//! leave of them. With it comes a disk in memory that fails by a plan and may crash.
#![tactic(auto)]

mod disk;
mod images;
mod laws;
mod memory_disk;
mod naming;
mod room;
mod steps_taken;

pub use disk::{Disk, DiskAnswer, DiskRead};
pub use laws::nothing_is_torn;
pub use memory_disk::MemoryDisk;
pub use room::overwrite;
pub use steps_taken::Pick;
