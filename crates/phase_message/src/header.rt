//! The head of a content.

ghost use Rattle.std.specs.Prelude.{◌≡◌, ◌<◌, ◌≤◌, ◌^◌, ◌↔◌, length, IsOk};
ghost use Rattle.wire_core.specs.Reading.{Reads, bytes_at};
ghost use Rattle.phase_message.specs.Header.{header_at, header_of};

use wire_core::{Cursor, Short};

/// What stands at the head of every content: its first 75 bytes.
#[derive(Clone, Copy, Debug, PartialEq, Eq)]
pub struct Header {
    /// Of the round's rules; 1 so far.
    pub version: u8,
    /// The hash of the roster.
    pub group: [u8; 32],
    /// The number of the round.
    pub round: u64,
    /// The stage, from 0.
    pub stage: u8,
    /// The member that speaks, from 1.
    pub sender: u8,
    /// The hash of all that the sender kept of earlier stages.
    pub view: [u8; 32],
}

/// The header of a content. It takes no memory and looks at the first 75 bytes alone. `Short` names
/// the first field that is cut, exactly where there are fewer.
pub fn read_header(content: &[u8]) -> Result<Header, Short>
    requires { length content.now < 2 ^ 32 }
    ensures header { result ≡ header_of content.now }
    ensures ok { IsOk result ↔ (75 ≤ length content.now) }
{
    let mut cursor = Cursor::new(content);
    fields(&mut cursor)
}

#[tactic(auto, unfolding(crate::specs::Header::header_at))]
pub(crate) fn fields(cursor: &mut Cursor) -> Result<Header, Short>
    ensures { Reads (λ x. x) result cursor.new (header_at cursor.old) }
{
    let version = cursor.u8()?;
    let group = hash(cursor)?;
    let round = cursor.u64()?;
    let stage = cursor.u8()?;
    let sender = cursor.u8()?;
    let view = hash(cursor)?;
    Ok(Header {
        version,
        group,
        round,
        stage,
        sender,
        view,
    })
}

// The next 32 bytes.
pub(crate) fn hash(cursor: &mut Cursor) -> Result<[u8; 32], Short>
    ensures { Reads (λ x. x) result cursor.new (bytes_at 32 cursor.old) }
{
    let bytes = cursor.bytes(32)?;
    let mut hash = [0; 32];
    hash.copy_from_slice(bytes);
    Ok(hash)
}
