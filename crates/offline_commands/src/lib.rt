//! The commands of the program that wait for nobody, over files, a key file's disk and a sink: what each reads, prints
//! and ends with, and the adapters over real files and the standard output.
#![tactic(auto)]

mod commands;
mod delivery;
mod host;
mod interfaces;
mod memory;
mod offline;
mod rounds;
mod show;
mod status;
mod stored;

pub use commands::{
    POST_FILE_LIMIT, ROSTER_LIMIT, SCRIPT_LIMIT, TOML_LIMIT, TRANSCRIPT_LIMIT, read_within,
    write_whole,
};
pub use delivery::print;
pub use host::{HostFiles, WriterSink};
pub use interfaces::{FileRead, FileWrite, Files, Sink, SinkAnswer};
pub use memory::{MemoryFiles, MemorySink};
pub use offline::run_offline;
pub use status::Status;
