//! What is seen of a member of a group.

use bulk_descriptor::SlotState;
use member_spec::State;
use wire_core::List;

/// What is seen of a member at the end.
#[derive(Debug, Drop)]
pub struct MemberEnd {
    pub number: u8,
    /// Whether it has a fault that alters something.
    pub faulty: bool,
    pub state: State,
    /// The slots of the list, exactly where it is done.
    pub slots: Option<List<SlotState>>,
    /// The transcript, exactly where it blames somebody.
    pub evidence: Option<List<u8>>,
}
