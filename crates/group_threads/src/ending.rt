//! What a round of a group ends with.

use group_roster::Roster;
use group_spec::MemberEnd;
use wire_core::List;

/// What is seen of a group at the end.
#[derive(Debug, Drop)]
pub struct GroupEnd {
    /// By number.
    pub members: List<MemberEnd>,
    /// What was delivered to each member, in order.
    pub deliveries: List<List<List<u8>>>,
    pub roster: Roster,
}
