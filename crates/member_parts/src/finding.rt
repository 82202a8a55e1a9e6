//! What a member finds of a post that it hears.

ghost use Rattle.std.specs.Prelude.{◌≡◌, ◌≤◌, ◌<◌, ◌^◌, IfOk, IfSome, IsSome, bytes_eq, length};
ghost use Rattle.phase_message.specs.declared.post.Post.{Post as Kept};
ghost use Rattle.phase_message.specs.declared.post.TheConstants.{POST_LIMIT};
ghost use Rattle.phase_message.specs.Post.{post_spelling};
ghost use Rattle.phase_message.specs.Stages.{shape_of};
ghost use Rattle.stage_log.specs.Table.{kept_in};
ghost use Rattle.round_spec.specs.Embedded.{slot_named};
ghost use Rattle.closing_verdict.specs.Convicting.{TellsConviction};
ghost use Rattle.member_parts.specs.Finding.{found_of, verdict_shown};

use closing_verdict::{Conviction, contradicted, malformed};
use phase_message::{Header, Post, Shape, Slot, first_offence};
use stage_log::StageLog;
use std::alloc::Global;
use wire_core::Mem;

/// What a member finds of a checked post of another member.
#[derive(Clone, Copy)]
pub enum Found {
    /// Its body is outside the grammar.
    Malformed,
    /// Its slot is empty.
    New,
    /// Its slot holds a post with this content.
    Same,
    /// Its slot holds a post with another content.
    Other,
}

/// What a checked content of another member is to what a log keeps.
pub fn find(log: &StageLog, shape: Shape, header: Header, content: &[u8]) -> Found
    requires { length content.now < 2 ^ 32 }
    ensures { result ≡ found_of (shape_of shape) (kept_in log.now (slot_named header)) content.now }
{
    let kept = log.kept(slot_of(header));
    if kept.is_some_and(|post| is_content(post, content)) {
        return Found::Same;
    }
    if first_offence(shape, content).is_some() {
        return Found::Malformed;
    }
    match kept {
        None => Found::New,
        Some(_) => Found::Other,
    }
}

/// The transcript that a string shows, alone or with the kept post of its slot, of which it has another content.
pub fn shown(
    alloc: Global,
    log: &StageLog,
    round: u64,
    header: Header,
    bytes: &[u8],
    found: Found,
) -> Mem<Conviction>
    requires least { 1 ≤ header.sender }
    requires most { header.sender ≤ 8 }
    requires string { length bytes.now ≤ POST_LIMIT }
    requires short { IfSome (kept_in log.now (slot_named header)) (λ (first : Kept). length (post_spelling first) < 2 ^ 32) }
    requires other { found ≡ Found.Other → IsSome (kept_in log.now (slot_named header)) }
    ensures { IfOk result (TellsConviction (verdict_shown round header bytes.now (kept_in log.now (slot_named header)) found)) }
{
    match found {
        Found::Other => {
            let Some(first) = log.kept(slot_of(header)) else {
                unreachable!()
            };
            contradicted(alloc, header.sender, round, first, bytes)
        }
        _ => malformed(alloc, header.sender, round, bytes),
    }
}

/// The slot that a header names.
pub fn slot_of(header: Header) -> Slot
    ensures { result ≡ slot_named header }
{
    Slot {
        stage: header.stage,
        sender: header.sender,
    }
}

// Whether a post has this content.
fn is_content(kept: &Post, content: &[u8]) -> bool
    ensures { result ≡ bytes_eq kept.now.content content.now }
{
    kept.content.items().as_slice() == content
}
