//! Why bytes are no roster.

use crate::rule::{Offence, Rule};
use std::alloc::{AllocError, AllocFailed};
use thiserror::Error;

/// Why bytes are no roster.
#[derive(Debug, Drop, Error)]
pub enum RosterRefusal {
    /// The first offence, from left to right: where it is, and the rule that it breaks. 1 the first
    /// four bytes are not "DSRO"; 2 byte 4 is not the version 1; 3 byte 5 is no size from 2 to 8;
    /// 4 a key is cut; 6 its first word is no LMS type from 5 to 9; 7 its second word is no LM-OTS
    /// type from 1 to 4; 8 it equals an earlier one; 5 bytes follow the last key.
    ///
    /// Of a text, rules 9 to 12 are broken at 0: 9 it is not TOML in UTF-8; 10 a key stands at the top that
    /// is neither `version` nor `member`; 11 `version` is not the integer 1; 12 `member` is no array of
    /// 2 to 8 entries. 13 an entry, at its number from 1, is no table of the one key `key`, a string of
    /// 112 hexadecimal digits. Then rules 6, 7 and 8 are broken where they are in the bytes that the
    /// text stands for.
    #[error("rule {rule} is broken at {at}")]
    Bad { at: u32, rule: u32 },
    #[error("out of memory")]
    Memory,
}

impl RosterRefusal {
    ghost use Rattle.std.specs.Prelude.{◌≡◌};
    ghost use Rattle.group_roster.specs.Rules.{rule_number};

    /// A rule that is broken there.
    pub(crate) fn of(at: u32, rule: Rule) -> RosterRefusal
        ensures { result ≡ RosterRefusal.Bad at (rule_number rule) }
    {
        RosterRefusal::Bad {
            at,
            rule: rule.number(),
        }
    }
}

impl From<Offence> for RosterRefusal {
    ghost use Rattle.std.specs.Prelude.{◌≡◌};
    ghost use Rattle.group_roster.specs.declared.refusal.RosterRefusal.TheVariants.{Bad};
    ghost use Rattle.group_roster.specs.Rules.{rule_number};

    ghost from_gives = { λ broken e. e ≡ Bad broken.at (rule_number broken.rule) };

    fn from(broken: Offence) -> RosterRefusal {
        RosterRefusal::of(broken.at, broken.rule)
    }
}

impl From<AllocError> for RosterRefusal {
    ghost use Rattle.std.specs.Prelude.{◌≡◌};
    ghost use Rattle.group_roster.specs.declared.refusal.RosterRefusal.TheVariants.{Memory};

    ghost from_gives = { λ _ e. e ≡ Memory };

    fn from(_e: AllocError) -> RosterRefusal {
        RosterRefusal::Memory
    }
}

impl<T: Drop> From<AllocFailed<T>> for RosterRefusal {
    ghost use Rattle.std.specs.Prelude.{◌≡◌};
    ghost use Rattle.group_roster.specs.declared.refusal.RosterRefusal.TheVariants.{Memory};

    ghost from_gives = { λ _ e. e ≡ Memory };

    fn from(_e: AllocFailed<T>) -> RosterRefusal {
        RosterRefusal::Memory
    }
}
