//! The content of a listed post that was taken.

ghost use Rattle.group_roster.specs.Given.{roster_of};
ghost use Rattle.std.specs.Prelude.{◌≡◌, ◌<◌, ◌^◌, length, IfOk, IsOk, Ok};
ghost use Rattle.phase_message.specs.Grammar.{OfGrammar};
ghost use Rattle.phase_message.specs.Offence.{content_read};
ghost use Rattle.phase_message.specs.Stages.{shape_of};

use phase_message::{Content, DecodeRefusal, Shape, decode};
use std::alloc::{AllocError, Global};
use wire_core::Mem;

// The content that bytes spell, which are of the grammar.
pub(crate) fn read_content(alloc: Global, shape: Shape, bytes: &[u8]) -> Mem<Content>
    requires short { length bytes.now < 2 ^ 32 }
    requires grammar { IsOk (content_read (shape_of shape) bytes.now) }
    ensures value { IfOk result (λ content. content_read (shape_of shape) bytes.now ≡ Ok content) }
    ensures grammar { IfOk result (OfGrammar (shape_of shape)) }
{
    match decode(alloc, shape, bytes) {
        Ok(content) => Ok(content),
        Err(DecodeRefusal::Malformed { .. }) => unreachable!(),
        Err(DecodeRefusal::Memory) => Err(AllocError),
    }
}
