//! Posts on their way.

ghost use Rattle.std.specs.Prelude.{◌≡◌, ◌<◌, ◌^◌, ◌==◌, ◌&&◌, not, nat_le, length, IfOk};
ghost use Rattle.std.specs.List.{list_any};
ghost use Rattle.phase_message.specs.declared.post.Post.{Post as Spoken};
ghost use Rattle.phase_message.specs.Header.{header_of};
ghost use Rattle.phase_message.specs.Post.{post_spelling};
ghost use Rattle.group_spec.specs.World.{is_of_slots};

use phase_message::{Slot, read_header};
use std::alloc::AllocError;
use wire_core::{List, Mem};

/// A post on its way to members whose numbers lie in a range, but not to its sender.
#[derive(Debug, Drop)]
pub(crate) struct Entry {
    pub sender: u8,
    /// The post as it is written.
    pub bytes: List<u8>,
    /// The least and the greatest number of its recipients.
    pub first: u8,
    pub last: u8,
}

impl Entry {
    /// Whether the entry goes to a member.
    pub fn is_for(&self, number: u8) -> bool
        ensures { result ≡ (not (number == self.now.sender) && (nat_le self.now.first number && nat_le number self.now.last)) }
    {
        number != self.sender && self.first <= number && number <= self.last
    }

    /// Whether the post is of one of these slots.
    pub fn is_dropped(&self, drops: &Vec<Slot>) -> Mem<bool>
        ensures { IfOk result (λ dropped. (post : Spoken) → self.now.bytes ≡ post_spelling post →
            dropped ≡ is_of_slots drops.now.items (header_of post.content)) }
    {
        let content = content_in(self.bytes.items())?;
        match read_header(content) {
            Ok(header) => Ok(names_one(drops, header.stage, header.sender)),
            Err(_) => Ok(false),
        }
    }
}

// Whether one of the slots is this one.
fn names_one(slots: &Vec<Slot>, stage: u8, sender: u8) -> bool
    ensures { result ≡ list_any (λ (slot : Slot). (stage == slot.stage) && (sender == slot.sender)) slots.now.items }
{
    slots
        .iter()
        .any(|slot| stage == slot.stage && sender == slot.sender)
}

/// The content of a written post. No post that a member makes is so long that memory is wanting here.
pub(crate) fn content_in(bytes: &[u8]) -> Mem<&[u8]>
    ensures content { IfOk result (λ content. (post : Spoken) → bytes.now ≡ post_spelling post → content.now ≡ post.content) }
    ensures short { IfOk result (λ content. length content.now < 2 ^ 32) }
{
    if bytes.len() < 4 || bytes.len() > u32::MAX as usize {
        return Err(AllocError);
    }
    let length = u32::from_be_bytes([bytes[0], bytes[1], bytes[2], bytes[3]]) as usize;
    if bytes.len() - 4 < length {
        return Err(AllocError);
    }
    Ok(&bytes[4..4 + length])
}
