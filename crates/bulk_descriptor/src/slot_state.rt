//! Slots of the opened list.

use wire_core::List;

/// The pads that the members of a group of N sent: N rows of N pads, row by row those of one member, one pad for
/// each slot of the opened list.
#[derive(Debug, Drop)]
pub struct PadTable {
    /// The rows, by member.
    pub members: List<List<List<u8>>>,
}

/// What a slot of the opened list comes to by its descriptor and the pads that were sent for it.
#[derive(Debug, Drop)]
pub enum SlotState {
    /// The slot holds no descriptor.
    Empty,
    /// Some pad lacks the length or the hash that the descriptor gives.
    Bad {
        /// The least member with such a pad, from 1.
        first: u8,
    },
    /// All pads fit, and their exclusive or lacks the hash of the message.
    Mismatched,
    /// All pads fit, and this is their exclusive or, which has the hash of the message.
    Message(List<u8>),
}
