//! What members show at the end of a shuffle that failed, and who is to blame.

/// What a member shows of its outer layers.
#[derive(Clone, Copy, Debug, PartialEq, Eq)]
pub struct Shown {
    /// The seed of its outer key in the shuffle.
    pub outer_seed: [u8; 32],
    /// What the seeds of its outer layers are hashes of.
    pub outer_opening: [u8; 32],
}

/// Why a member is to blame.
#[derive(Clone, Copy, Debug, PartialEq, Eq)]
pub enum Cause {
    /// A post of it does not carry the view of its stage.
    View,
    /// The outer seed that it shows is not that of its outer key.
    OuterSeed,
    /// A layer of its submission, counted from 1, does not open by the shown outer seed, or does not carry the seed that
    /// its shown opening gives.
    Submission { layer: u8 },
    /// In its turn it said Abort, or a list that is not the list before in another order with a layer off.
    Shuffle,
    /// It voted no.
    FalseNoGo,
}

/// A member that is to blame, and why.
#[derive(Clone, Copy, Debug, PartialEq, Eq)]
pub struct Fault {
    /// The member's number, from 1.
    pub member: u8,
    pub cause: Cause,
}
