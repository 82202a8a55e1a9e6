//! What a hash is of.

ghost use Rattle.std.specs.Prelude.{◌≡◌};
ghost use Rattle.wire_core.specs.Hash.{tag_number};

/// What a hash is of. The byte of a tag stands at the front of the hashed string, so that strings
/// of two purposes are never one.
#[derive(Clone, Copy, Debug, PartialEq, Eq)]
pub enum Tag {
    /// What a member kept of the earlier stages.
    View = 1,
    /// A roster.
    Roster,
    /// The public part of a ring key, from its seed.
    RingPublic,
    /// The secret part of a ring key, from its seed.
    RingSecret,
    /// The coins of a capsule, from the key and what is sealed.
    RingCoins,
    /// The stream that masks the body of a layer.
    LayerStream,
    /// The check value of a layer.
    LayerTag,
    /// The seed of one layer of a submission.
    LayerSeed,
    /// A message.
    Message,
    /// The stream of a pad, from its seed.
    PadStream,
    /// A pad.
    PadHash,
    /// A secret of one round, from a member's fresh bytes.
    Derive,
    /// The identifier of a signature key, from its master.
    LmsIdentifier,
    /// The seed of a signature key, from its master.
    LmsSeed,
    /// The master of a scripted member's signature key.
    ScriptKey,
    /// The fresh bytes of a scripted member.
    ScriptFresh,
    /// The seed of a generated script.
    MakeSeed,
    /// The message of a member of a generated script.
    MakeMessage,
}

impl Tag {
    /// The byte that stands for the tag in a hashed string, from 1 to 18.
    pub fn number(self) -> u8
        ensures { result ≡ tag_number self }
    {
        self as u8
    }
}
