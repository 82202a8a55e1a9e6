//! A file of the system as the disk of a key file, over files with a place. A contract tells what a read, a write and a
//! sync do to a file that tells what it holds; one in memory does, and a file of the system tells nothing.
#![tactic(auto)]

mod disk;
mod memory_file;
mod placed_file;
mod system_file;
mod transfer;

pub use disk::{HostDisk, Lock};
pub use memory_file::MemoryFile;
pub use placed_file::PlacedFile;
pub use system_file::SystemFile;
pub use transfer::{read_from, sync_all, write_from};

#[cfg(test)]
mod tests;
