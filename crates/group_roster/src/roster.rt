//! Rosters: the keys of a group's members.

ghost use Rattle.group_roster.specs.Roster.{IsRosterForm};

use crate::spelling::{all_read, spelled};
use lms_tree::LmsPublic;
use phase_message::Shape;
use std::alloc::Global;
use wire_core::{List, Mem, Register, Tag};

/// The members' public keys, as an LMS key of RFC 8554, section 5.3, has them. Member i has key
/// i - 1. Each key reads; some may be equal, but in what `decode` and `from_toml` give.
#[derive(Debug, Drop)]
pub struct Roster {
    /// Of the round's rules; 1 so far.
    pub version: u8,
    /// By number of member, 2 to 8.
    pub keys: List<[u8; 56]>,
    pub ghost form: { IsRosterForm (record { version = version; keys = keys }) },
}

impl Roster {
    ghost use Rattle.std.specs.Prelude.{◌≡◌, ◌≤◌, ◌↔◌, length, Some, IsSome, IfSome, IfOk};
    ghost use Rattle.phase_message.specs.Stages.{shape_of};
    ghost use Rattle.group_roster.specs.Roster.{roster_spelling, shape_of_roster, roster_id, key_of};
    ghost use Rattle.group_roster.specs.Given.{roster_of};

    /// The roster of a version and of keys by number: `None` exactly where no group can have it. Equal keys
    /// are taken.
    pub fn new(version: u8, keys: List<[u8; 56]>) -> Option<Roster>
        ensures some { IsSome result ↔ IsRosterForm (record { version = version; keys = keys }) }
        ensures parts { IfSome result (λ r. roster_of r ≡ record { version = version; keys = keys }) }
    {
        let count = keys.items().len();
        if version != 1 || count < 2 || 8 < count || !all_read(keys.items()) {
            return None;
        }
        Some(Roster { version, keys })
    }

    /// How many members the group has, 2 to 8.
    pub fn members(&self) -> u8
        ensures { result ≡ length self.now.keys }
    {
        self.keys.items().len() as u8
    }

    /// What the stages of the group's rounds depend on.
    pub fn shape(&self) -> Shape
        ensures { shape_of result ≡ shape_of_roster (roster_of self.now) }
    {
        Shape {
            version: self.version,
            members: self.members(),
        }
    }

    /// The key of a member's number.
    pub fn key(&self, sender: u8) -> LmsPublic
        requires least { 1 ≤ sender }
        requires most { sender ≤ length self.now.keys }
        ensures { key_of (roster_of self.now) sender ≡ Some result }
    {
        let keys = self.keys.items();
        match LmsPublic::read(&keys[sender as usize - 1]) {
            Ok(key) => key,
            Err(_) => unreachable!(),
        }
    }

    /// The group's id: the hash of the roster's bytes under the tag Roster. It takes no memory.
    pub fn id(&self) -> [u8; 32]
        ensures { result ≡ roster_id (roster_of self.now) }
    {
        let (bytes, size) = spelled(self.version, self.keys.items());
        let mut register = Register::new(Tag::Roster);
        register.piece(&bytes[..size]);
        register.end()
    }

    /// The roster's bytes, 6 and 56 for each member: "DSRO", the version, the number of keys, and the keys.
    pub fn encode(&self, alloc: Global) -> Mem<Vec<u8>>
        ensures { IfOk result (λ bytes. bytes.items ≡ roster_spelling (roster_of self.now)) }
    {
        let (bytes, size) = spelled(self.version, self.keys.items());
        Vec::from_slice(alloc, &bytes[..size])
    }
}
