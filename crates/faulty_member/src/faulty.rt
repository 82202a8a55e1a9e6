//! The conduct of a member with a fault.

ghost use Rattle.std.specs.Prelude.{◌≡◌, ◌≢◌, ◌≤◌, ◌+◌, ◌*◌, ◌/◌, ℕ, IfOk, length, slice_index_or, true};
ghost use Rattle.std.specs.List.{slice_set};
ghost use Rattle.wire_core.specs.Bytes.{IsBytes};
ghost use Rattle.phase_message.specs.declared.post.TheConstants.{POST_LIMIT};
ghost use Rattle.phase_message.specs.Grammar.{OfGrammar, content_text, kind_number};
ghost use Rattle.phase_message.specs.Offence.{content_read};
ghost use Rattle.phase_message.specs.Stages.{kind_of_stage, shape_of};
ghost use Rattle.member_spec.specs.Replies.{HasAtMost};
ghost use Rattle.round_script.specs.declared.fault.Fault.TheVariants.{Malformed};
ghost use Rattle.group_spec.specs.Alterations.{body_altered, is_altered_at, least_other, submission_kept};
ghost use Rattle.group_spec.specs.Faulty.{faulty_member, faulty_replies, own_bytes, says_copy, says_false_view, speech_if_read, speech_in_place};
ghost use Rattle.faulty_member.specs.Given.{faulty_of};

use crate::altering::{
    altered_descriptor, copied, is_altered_at, least_other, with_bad_votes, with_entry_dropped,
    with_no, with_wrong_seed,
};
use crate::bits::change_last_bit;
use crate::flipping::with_pad_flipped;
use crate::kept::ciphertext_in;
use bulk_descriptor::Descriptor;
use member_spec::{Conduct, Speech};
use phase_message::{Body, Content, DecodeRefusal, Shape, Slot, decode, encode, stage_kind};
use round_script::Fault;
use stage_log::StageLog;
use std::alloc::{AllocError, Global};
use wire_core::{List, Mem, put_bytes};

// How many bytes of a content stand before its body: the header and the kind.
const HEAD_BYTES: usize = 76;

/// A member of this number with a fault. Without a fault it is plain.
#[derive(Drop)]
pub struct Faulty {
    pub fault: Fault,
    pub member: u8,
    /// The descriptor that it last answered.
    pub own: Option<Descriptor>,
}

impl Faulty {
    /// A member before it is asked anything.
    pub fn new(fault: Fault, member: u8) -> Faulty
        ensures { faulty_of result ≡ faulty_member fault member }
    {
        Faulty {
            fault,
            member,
            own: None,
        }
    }

    // What it says about bytes: those of a stage at which its fault alters nothing are said as they are.
    fn speech(&self, alloc: Global, bytes: Vec<u8>, log: &StageLog) -> Mem<Speech>
        ensures bytes { IsBytes bytes.items }
        ensures told { IfOk result (λ speech. speech
            ≡ speech_if_read (faulty_of self.now) bytes.items log.now (content_read log.now.shape bytes.items)) }
        ensures short { IfOk result (λ speech. (most : ℕ) → POST_LIMIT ≤ most → length bytes.items ≤ most
            → HasAtMost most speech) }
    {
        let shape = log.shape();
        if bytes.len() > u32::MAX as usize {
            return Err(AllocError);
        }
        match decode(alloc, shape, &bytes) {
            Ok(content) => {
                if is_altered_at(self.fault, stage_kind(shape, content.header.stage)) {
                    self.speech_in_place(alloc, bytes, log, content)
                } else {
                    Ok(Speech::Say(List::of(bytes)))
                }
            }
            Err(DecodeRefusal::Malformed { .. }) => Ok(Speech::Say(List::of(bytes))),
            Err(DecodeRefusal::Memory) => Err(AllocError),
        }
    }

    // What it says in place of a content that its fault alters.
    fn speech_in_place(
        &self,
        alloc: Global,
        bytes: Vec<u8>,
        log: &StageLog,
        content: Content,
    ) -> Mem<Speech>
        requires spelled { bytes.items ≡ content_text content }
        requires bytes { IsBytes bytes.items }
        requires grammar { OfGrammar log.now.shape content }
        requires altered { is_altered_at self.now.fault (kind_of_stage log.now.shape content.header.stage) ≡ true }
        ensures told { IfOk result (λ speech. speech
            ≡ speech_in_place (faulty_of self.now) self.now.fault bytes.items log.now content) }
        ensures short { IfOk result (λ speech. (most : ℕ) → POST_LIMIT ≤ most → length bytes.items ≤ most
            → HasAtMost most speech) }
    {
        let shape = log.shape();
        match self.fault {
            Fault::Malformed => Ok(Speech::Say(List::of(with_key_out_of_range(bytes)))),
            Fault::CopySubmit => self.copy(alloc, bytes, log, &content),
            Fault::FalseView => false_view(alloc, shape, content),
            Fault::FlipPad => {
                let own = self.own_bytes(alloc)?;
                let Content { header, body } = content;
                let body = with_pad_flipped(alloc, log, &own, body)?;
                said(alloc, shape, Content { header, body })
            }
            fault => {
                let Content { header, body } = content;
                let body = altered_body(alloc, fault, body)?;
                said(alloc, shape, Content { header, body })
            }
        }
    }

    // It says what the least other member submits, once that is there, and puts its own off until then.
    fn copy(&self, alloc: Global, bytes: Vec<u8>, log: &StageLog, content: &Content) -> Mem<Speech>
        requires spelled { bytes.items ≡ content_text content.now }
        requires grammar { OfGrammar log.now.shape content.now }
        requires submits { kind_number content.now.body ≡ 2 }
        ensures told { IfOk result (λ speech. speech ≡ says_copy log.now.shape bytes.items content.now
            (submission_kept log.now (least_other self.now.member))) }
        ensures short { IfOk result (λ speech. (most : ℕ) → POST_LIMIT ≤ most → length bytes.items ≤ most
            → HasAtMost most speech) }
    {
        let slot = Slot {
            stage: 1,
            sender: least_other(self.member),
        };
        let Some(post) = log.kept(slot) else {
            return Ok(Speech::Wait(List::of(bytes)));
        };
        let ciphertext = ciphertext_in(alloc, log.shape(), post)?;
        let mut bytes = bytes;
        bytes.truncate(HEAD_BYTES);
        put_bytes(&mut bytes, ciphertext.items())?;
        Ok(Speech::Say(List::of(bytes)))
    }

    // The bytes of its descriptor.
    fn own_bytes(&self, alloc: Global) -> Mem<Vec<u8>>
        ensures { IfOk result (λ bytes. bytes.items ≡ own_bytes (faulty_of self.now)) }
    {
        match &self.own {
            None => Ok(Vec::new(alloc)),
            Some(own) => own.encode(alloc),
        }
    }
}

// It says a content of the grammar.
fn said(alloc: Global, shape: Shape, content: Content) -> Mem<Speech>
    requires { OfGrammar (shape_of shape) content }
    ensures { IfOk result (λ speech. speech ≡ Speech.Say (content_text content)) }
{
    let bytes = encode(alloc, shape, &content)?;
    Ok(Speech::Say(List::of(bytes)))
}

// It says a content whose view has another last bit.
fn false_view(alloc: Global, shape: Shape, content: Content) -> Mem<Speech>
    requires { OfGrammar (shape_of shape) content }
    ensures { IfOk result (λ speech. speech ≡ says_false_view content) }
{
    let mut content = content;
    change_last_bit(&mut content.header.view);
    said(alloc, shape, content)
}

// A body that a fault alters without a look at anything else.
fn altered_body(alloc: Global, fault: Fault, body: Body) -> Mem<Body>
    requires { fault ≢ Malformed }
    ensures { IfOk result (λ altered. altered ≡ body_altered fault body) }
{
    match fault {
        Fault::DropEntry => with_entry_dropped(alloc, body),
        Fault::FalseAbort => Ok(Body::Abort),
        Fault::FalseNogo => Ok(with_no(body)),
        Fault::WrongSeed => Ok(with_wrong_seed(body)),
        Fault::BadVotes => Ok(with_bad_votes(alloc, body)),
        _ => Ok(body),
    }
}

// A content of keys in which the first coefficient of the first key is 12289, which no coefficient may be: the lowest
// 14 bits of the seven bytes that stand behind the 32 first bytes of the key.
fn with_key_out_of_range(bytes: Vec<u8>) -> Vec<u8>
    requires { 110 ≤ length bytes.items }
    ensures { result.items ≡ slice_set (slice_set bytes.items 108 1) 109 (slice_index_or bytes.items 109 0 / 64 * 64 + 48) }
{
    let mut bytes = bytes;
    let place = HEAD_BYTES + 32;
    bytes[place] = 1;
    bytes[place + 1] = bytes[place + 1] / 64 * 64 + 48;
    bytes
}

impl Conduct for Faulty {
    ghost replies = { λ f. faulty_replies (faulty_of f) };

    fn descriptor(&mut self, alloc: Global, own: Descriptor) -> Mem<Descriptor> {
        let own = altered_descriptor(self.fault, self.member, own);
        let copy = copied(alloc, &own)?;
        self.own = Some(copy);
        Ok(own)
    }

    fn content(&mut self, alloc: Global, stage: u8, bytes: Vec<u8>, log: &StageLog) -> Mem<Speech> {
        match self.fault {
            Fault::Silent => {
                if stage == 0 {
                    Ok(Speech::Say(List::of(bytes)))
                } else {
                    Ok(Speech::Silent)
                }
            }
            _ => self.speech(alloc, bytes, log),
        }
    }
}
