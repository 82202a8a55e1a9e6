//! A member's place in a round.

ghost use Rattle.std.specs.Prelude.{◌≤◌};

use group_roster::Roster;
use phase_message::{Header, Shape};

/// What stands in the header of all that a member says in a round, and what the round's stages depend on.
#[derive(Clone, Copy, Debug)]
pub struct Seat {
    pub shape: Shape,
    /// The group's id.
    pub group: [u8; 32],
    /// The number of the round.
    pub round: u64,
    /// The member's number, from 1.
    pub number: u8,
    pub ghost least: { 1 ≤ number },
    pub ghost most: { number ≤ shape.members },
}

impl Seat {
    ghost use Rattle.std.specs.Prelude.{◌≡◌, ◌≤◌, List, length};
    ghost use Rattle.phase_message.specs.declared.post.Post.{Post};
    ghost use Rattle.group_roster.specs.Given.{roster_of};
    ghost use Rattle.stage_log.specs.Log.{contents_of, view_of};
    ghost use Rattle.round_spec.specs.Say.{Configuration, own_header, shape_in};
    ghost use Rattle.honest_say.specs.Seats.{IsSeatOf, header_at};

    /// The place of a member of a group. It takes no memory.
    pub fn new(roster: &Roster, round: u64, number: u8) -> Seat
        requires least { 1 ≤ number }
        requires most { number ≤ length roster.now.keys }
        ensures { (c : Configuration) → c.roster ≡ roster_of roster.now → c.round ≡ round → c.number ≡ number → IsSeatOf c result }
    {
        Seat {
            shape: roster.shape(),
            group: roster.id(),
            round,
            number,
        }
    }

    /// The header of what the member says at a stage, where this is the view of all that was said before.
    pub fn header(&self, stage: u8, view: &[u8; 32]) -> Header
        ensures value { result ≡ header_at self.now stage view.now }
        ensures own { (c : Configuration) (posts : List Post) → IsSeatOf c self.now →
            view.now ≡ view_of (shape_in c) (contents_of posts) stage → result ≡ own_header c posts stage }
    {
        Header {
            version: self.shape.version,
            group: self.group,
            round: self.round,
            stage,
            sender: self.number,
            view: *view,
        }
    }
}
