//! How the run of a member ends.

/// The most frames that a run takes.
pub const FRAME_LIMIT: u32 = 1_000_000;

/// How the run of a member ends.
#[derive(Clone, Copy, Debug, PartialEq, Eq)]
pub enum RunEnd {
    /// The round is done, or the member blames somebody.
    Ended,
    /// The link has ended, and the member still waits.
    Waiting,
    /// The link failed.
    LinkFault,
    /// As many frames were taken as a run takes at most, and the member still waits.
    Flooded,
    OutOfMemory,
}
