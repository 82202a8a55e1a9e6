//! What the words of `member` give.

use std::marker::Model;

/// What the words of `member` give: names of files, the round, for how many seconds it waits for the others, and the
/// addresses of all members, by number.
#[derive(Debug, Drop)]
pub struct MemberCommand {
    pub roster: String,
    pub key: String,
    pub round: u64,
    pub message: String,
    pub transcript: String,
    pub wait: u16,
    pub addresses: Vec<String>,
}

impl Model for MemberCommand {
    ghost use Rattle.std.specs.Prelude.{map, string_bytes};
    ghost use Rattle.member_entry.specs.Entering.{MemberWords};

    ghost Value = { MemberWords };

    ghost view = { λ c. record {
      roster = string_bytes c.roster;
      key = string_bytes c.key;
      round = c.round;
      message = string_bytes c.message;
      transcript = string_bytes c.transcript;
      wait = c.wait;
      addresses = map (λ word. string_bytes word) c.addresses.items;
    } };
}
