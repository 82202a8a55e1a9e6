//! What stands between the rules and what a member posts.

ghost use Rattle.std.specs.Prelude.{◌≡◌, ◌≤◌, ℕ, IfErr, IfOk, Ok, length};
ghost use Rattle.phase_message.specs.declared.post.TheConstants.{POST_LIMIT};
ghost use Rattle.phase_message.specs.declared.stage.Slot.{Slot};
ghost use Rattle.bulk_descriptor.specs.Fields.{description_of};
ghost use Rattle.member_spec.specs.Replies.{HasAtMost, HasSlot, IsForSlot, Replies, plain_replies};

use bulk_descriptor::Descriptor;
use stage_log::StageLog;
use std::alloc::Global;
use wire_core::{List, Mem};

/// What a conduct answers about a content.
#[derive(Debug, Drop)]
pub enum Speech {
    /// These bytes are posted.
    Say(List<u8>),
    /// Nothing is said yet; the question is put again with these bytes after each later delivery that is stored.
    Wait(List<u8>),
    /// Nothing is said now and nothing later.
    Silent,
}

/// The conduct of a member: what it makes of what the rules give it to say. Its answers are told by three functions, which
/// stand in `replies`; each answer other than out of memory is the one so told.
pub trait Conduct: Drop {
    /// What it answers as it stands: to a descriptor, about a content, and about a content once it has answered to a
    /// descriptor.
    ghost replies: { Self → Replies };

    /// What the member posts of its descriptor, which goes to as many members. From now on it answers about contents as it
    /// tells for this descriptor. Out of memory it is as before.
    fn descriptor(&mut self, alloc: Global, own: Descriptor) -> Mem<Descriptor>
        ensures told { IfOk result (λ made. description_of made ≡ (replies self.old).descriptor (description_of own)) }
        ensures then { IfOk result (λ made. (replies self.new).speech ≡ (replies self.old).speech_after (description_of own)) }
        ensures members { IfOk result (λ made. length made.pad_hashes ≡ length own.pad_hashes) }
        ensures kept { IfErr result (λ _. replies self.new ≡ replies self.old) };

    /// What becomes of the bytes of a content at a stage, where the member keeps this log. It goes on answering as
    /// before. A content of the grammar that it says is of the slot that the bytes name, bytes that it puts off name it
    /// too, and an answer has at most 16,777,216 bytes, or at most as many as it was given.
    fn content(&mut self, alloc: Global, stage: u8, bytes: Vec<u8>, log: &StageLog) -> Mem<Speech>
        ensures told { IfOk result (λ speech. speech ≡ (replies self.old).speech stage bytes.items log.now) }
        ensures same { replies self.new ≡ replies self.old }
        ensures slot { IfOk result (λ speech. (slot : Slot) → HasSlot slot bytes.items → IsForSlot log.now.shape slot speech) }
        ensures short { IfOk result (λ speech. (most : ℕ) → POST_LIMIT ≤ most → length bytes.items ≤ most → HasAtMost most speech) };
}

/// The plain conduct: the member says what the rules give it to say.
#[derive(Clone, Copy, Debug, Default, PartialEq, Eq)]
pub struct Honest;

impl Conduct for Honest {
    ghost replies = { λ _. plain_replies };

    fn descriptor(&mut self, _alloc: Global, own: Descriptor) -> Mem<Descriptor>
        ensures same { result ≡ Ok own }
    {
        Ok(own)
    }

    fn content(&mut self, _alloc: Global, _stage: u8, bytes: Vec<u8>, log: &StageLog) -> Mem<Speech>
        ensures said { result ≡ Ok (Speech.Say bytes.items) }
        ensures slot { IfOk result (λ speech. (slot : Slot) → HasSlot slot bytes.items → IsForSlot log.now.shape slot speech) }
    {
        Ok(Speech::Say(List::of(bytes)))
    }
}
