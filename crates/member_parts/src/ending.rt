//! What has ended a member's round.

use bulk_descriptor::SlotState;
use closing_verdict::Conviction;
use wire_core::List;

/// What has ended a member's round.
#[derive(Drop)]
pub enum Ending {
    /// Nothing: the round is open.
    Open,
    /// It is done, and these are the slots of the list.
    Done(List<SlotState>),
    /// The member blames somebody.
    Blamed(Conviction),
    /// A call ran out of memory.
    Stopped,
}

impl Ending {
    ghost use Rattle.std.specs.Prelude.{◌≡◌};
    ghost use Rattle.std.specs.Option.{option_map};
    ghost use Rattle.member_parts.specs.Endings.{evidence_held, is_going, slots_held};

    /// Whether the round goes on.
    pub fn is_open(&self) -> bool
        ensures { result ≡ is_going self.now }
    {
        matches!(self, Ending::Open)
    }

    /// The slots of the list, where the round is done.
    pub fn slots(&self) -> Option<&Vec<SlotState>>
        ensures { option_map (λ slots. slots.now.items) result ≡ slots_held self.now }
    {
        match self {
            Ending::Done(slots) => Some(slots.items()),
            _ => None,
        }
    }

    /// The transcript, where the member blames somebody.
    pub fn evidence(&self) -> Option<&Vec<u8>>
        ensures { option_map (λ bytes. bytes.now.items) result ≡ evidence_held self.now }
    {
        match self {
            Ending::Blamed(conviction) => Some(conviction.transcript.items()),
            _ => None,
        }
    }
}
