//! What a member is accused of.

ghost use Rattle.std.specs.Prelude.{◌≡◌, Some};
ghost use Rattle.phase_message.specs.Stages.{shape_of};
ghost use Rattle.transcript_form.specs.Claim.{claim_name, claim_number, claim_of, claim_posts};

use phase_message::Shape;
use std::fmt;

/// What the posts of a transcript are to show of the accused.
#[derive(Clone, Copy, Debug, PartialEq, Eq)]
pub enum Claim {
    /// Two of its posts say different contents in one slot of a round.
    Equivocation = 1,
    /// The content of one of its posts is outside the grammar.
    Malformed,
    /// The inner seed that it reveals is not that of the key that it said.
    WrongSeed,
    /// Its closing content is not borne out by the posts in it.
    BadLog,
    /// What all members show of the stages before is not what its posts should have said.
    Replay,
    /// The pad that it sent is not the pad of the seed that was sealed for it.
    Pad,
}

impl Claim {
    /// The byte that stands for the claim in a transcript, from 1 to 6.
    pub fn number(self) -> u8
        ensures { result ≡ claim_number self }
    {
        self as u8
    }

    /// The claim of a number: `None` exactly where the number is none of 1 to 6.
    pub fn of_number(number: u8) -> Option<Claim>
        ensures { result ≡ claim_of number }
    {
        match number {
            1 => Some(Claim::Equivocation),
            2 => Some(Claim::Malformed),
            3 => Some(Claim::WrongSeed),
            4 => Some(Claim::BadLog),
            5 => Some(Claim::Replay),
            6 => Some(Claim::Pad),
            _ => None,
        }
    }

    /// How many posts a transcript of the claim lists.
    pub fn posts(self, shape: Shape) -> u32
        ensures { result ≡ claim_posts (shape_of shape) self }
    {
        let members = u32::from(shape.members);
        match self {
            Claim::Equivocation | Claim::WrongSeed => 2,
            Claim::Malformed | Claim::BadLog => 1,
            Claim::Replay => members,
            Claim::Pad => 5 * members + 1,
        }
    }
}

impl fmt::Display for Claim {
    ghost output = { λ claim. Some (claim_name claim) };

    fn fmt<W: fmt::Write>(&self, f: &mut fmt::Formatter<W>) -> fmt::Result {
        match self {
            Claim::Equivocation => write!(f, "Equivocation"),
            Claim::Malformed => write!(f, "Malformed"),
            Claim::WrongSeed => write!(f, "WrongSeed"),
            Claim::BadLog => write!(f, "BadLog"),
            Claim::Replay => write!(f, "Replay"),
            Claim::Pad => write!(f, "Pad"),
        }
    }
}
