//! Accusations: the seed of a pad that was not sent as it was made.

ghost use Rattle.std.specs.Prelude.{◌≡◌, ◌≢◌, ◌↔◌, length, IsNone};
ghost use Rattle.transcript_form.specs.Accusation.{accusation_of, accusation_spelling};

/// What the maker of a message opens of it: the seed of the pad that a member failed to send.
#[derive(Clone, Copy, Debug, PartialEq, Eq)]
pub struct Accusation {
    /// The place of the message in the list, from 1.
    pub slot: u8,
    /// The number of the member whose pad differs, from 1.
    pub member: u8,
    /// The seed of that member's pad.
    pub seed: [u8; 32],
}

impl Accusation {
    /// The slot, the member and the seed in 34 bytes.
    pub fn encode(&self) -> [u8; 34]
        ensures { result ≡ accusation_spelling self.now }
    {
        let mut bytes = [0; 34];
        bytes[0] = self.slot;
        bytes[1] = self.member;
        bytes[2..].copy_from_slice(&self.seed);
        bytes
    }

    /// The accusation that bytes spell: `None` exactly where they are not 34. Nothing is asked of the numbers.
    pub fn decode(b: &[u8]) -> Option<Accusation>
        ensures read { result ≡ accusation_of b.now }
        ensures none { IsNone result ↔ (length b.now ≢ 34) }
    {
        if b.len() != 34 {
            return None;
        }
        let (front, back) = b.split_at(2);
        let mut seed = [0; 32];
        seed.copy_from_slice(back);
        Some(Accusation {
            slot: front[0],
            member: front[1],
            seed,
        })
    }
}
