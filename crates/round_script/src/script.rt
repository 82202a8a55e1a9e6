//! What a script says.

use crate::fault::Fault;
use phase_message::Slot;
use wire_core::List;

/// How many bytes a message of a script has at most.
pub const MESSAGE_LIMIT: u32 = 65_536;

/// A member that a script names with a fault.
#[derive(Clone, Copy, Debug, PartialEq, Eq)]
pub struct FaultLine {
    /// The member's number, from 1.
    pub member: u8,
    /// What it alters. `Fault::None` leaves it honest.
    pub fault: Fault,
}

/// A round of a whole group, from a seed: nothing in it is random.
#[derive(Debug, Drop)]
pub struct Script {
    /// 1 so far.
    pub version: u8,
    /// The round's number, from 1.
    pub round: u64,
    /// All keys and secrets of the members are drawn from it.
    pub seed: [u8; 32],
    /// The members' messages, by number: 2 to 8 of at most `MESSAGE_LIMIT` bytes.
    pub messages: List<List<u8>>,
    /// The faulty members, rising in their number.
    pub faults: List<FaultLine>,
    /// The slots whose posts do not arrive, rising in their order.
    pub drops: List<Slot>,
    /// How often each post arrives, 1 to 9 times: once where it is `None`.
    pub repeat: Option<u8>,
}
