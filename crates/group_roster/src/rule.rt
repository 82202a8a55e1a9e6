//! The rules that a file of a roster may break.

/// What is wrong with a file of a roster.
#[derive(Clone, Copy, Debug, PartialEq, Eq)]
pub(crate) enum Rule {
    /// The first four bytes are not "DSRO".
    Magic,
    /// Byte 4 is not the version 1.
    Version,
    /// Byte 5 is no number of keys from 2 to 8.
    Size,
    /// A key is cut.
    Short,
    /// Bytes follow the last key.
    Trailing,
    /// The first word of a key is no LMS type.
    LmsKind,
    /// The second word of a key is no LM-OTS type.
    OtsKind,
    /// A key equals an earlier one.
    Duplicate,
    /// The text is not TOML.
    NotToml,
    /// A key stands at the top that is neither `version` nor `member`.
    FurtherKey,
    /// `version` is not the integer 1.
    TomlVersion,
    /// `member` is no array of 2 to 8 entries.
    TomlMembers,
    /// An entry is no table of the one key `key` with 112 hexadecimal digits.
    Entry,
}

impl Rule {
    ghost use Rattle.std.specs.Prelude.{◌≡◌};
    ghost use Rattle.group_roster.specs.Rules.{rule_number};

    /// The number of the rule in refusals, from 1 to 13.
    pub(crate) fn number(self) -> u32
        ensures { result ≡ rule_number self }
    {
        match self {
            Rule::Magic => 1,
            Rule::Version => 2,
            Rule::Size => 3,
            Rule::Short => 4,
            Rule::Trailing => 5,
            Rule::LmsKind => 6,
            Rule::OtsKind => 7,
            Rule::Duplicate => 8,
            Rule::NotToml => 9,
            Rule::FurtherKey => 10,
            Rule::TomlVersion => 11,
            Rule::TomlMembers => 12,
            Rule::Entry => 13,
        }
    }
}

/// A rule that is broken, and where.
#[derive(Clone, Copy, Debug, PartialEq, Eq)]
pub(crate) struct Offence {
    pub(crate) at: u32,
    pub(crate) rule: Rule,
}
