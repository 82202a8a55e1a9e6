//! What a disk in memory remembers of each call that changed it, and which image a crash of it leaves.

/// What a call did to the file.
#[derive(Clone, Copy, Debug)]
pub enum Step {
    /// The first `size` of these bytes were written from `at` on.
    Wrote {
        at: u32,
        size: u32,
        bytes: [u8; 128],
    },
    Synced,
    Emptied,
}

/// What a crash leaves of the ranges that were written since the last sync.
#[derive(Clone, Copy, Debug, PartialEq, Eq)]
pub enum Pick {
    /// The bytes before.
    Old,
    /// The bytes that were written.
    New,
    /// Bytes of ones.
    Ones,
}
