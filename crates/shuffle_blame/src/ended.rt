//! The end of a shuffle.

/// A shuffle whose end is replayed.
#[derive(Clone, Copy)]
pub(crate) struct Ended {
    pub(crate) shuffle: u8,
    // Its closing stage.
    pub(crate) stage: u8,
    pub(crate) round: u64,
}
