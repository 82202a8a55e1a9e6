//! Whether a member has said what it has to say at a stage.

use wire_core::List;

/// Whether a member has spoken at the stage that is being filled.
#[derive(Debug, Drop)]
pub enum Mood {
    /// It was not asked yet.
    Unasked,
    /// It was asked and put these bytes off; it is asked about them again.
    PutOff(List<u8>),
    /// It has said what it keeps there.
    Spoken,
    /// It says nothing more in this round.
    Mute,
}
