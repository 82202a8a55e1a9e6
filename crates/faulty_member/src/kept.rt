//! What a log keeps, as bodies.

ghost use Rattle.std.specs.Prelude.{◌≡◌, ◌<◌, ◌≤◌, ◌+◌, ◌^◌, IfOk, length};
ghost use Rattle.phase_message.specs.declared.post.TheConstants.{LEAST_CONTENT, POST_LIMIT};
ghost use Rattle.phase_message.specs.Offence.{content_read};
ghost use Rattle.phase_message.specs.Stages.{shape_of};
ghost use Rattle.shuffle_blame.specs.Replay.{body_of, ciphertext_of};
ghost use Rattle.shuffle_blame.specs.Rules.{IsShort, body_kept};
ghost use Rattle.group_spec.specs.Alterations.{ciphertext_in};

use phase_message::{Body, Content, DecodeRefusal, Post, Shape, Slot, decode};
use stage_log::StageLog;
use std::alloc::{AllocError, Global};
use wire_core::{List, Mem};

// The body of bytes that can be kept: Abort where they spell no content.
fn body_of(alloc: Global, shape: Shape, content: &[u8]) -> Mem<Body>
    requires { length content.now < 2 ^ 32 }
    ensures value { IfOk result (λ body. body ≡ body_of (content_read (shape_of shape) content.now)) }
    ensures short { IfOk result IsShort }
    ensures submitted { IfOk result (λ body. LEAST_CONTENT + length (ciphertext_of body) ≤ POST_LIMIT) }
{
    match decode(alloc, shape, content) {
        Ok(content) => {
            let Content { header: _, body } = content;
            Ok(body)
        }
        Err(DecodeRefusal::Malformed { .. }) => Ok(Body::Abort),
        Err(DecodeRefusal::Memory) => Err(AllocError),
    }
}

/// What a log keeps in a slot: Abort where it keeps nothing or no content.
pub(crate) fn body_kept(alloc: Global, log: &StageLog, slot: Slot) -> Mem<Body>
    ensures value { IfOk result (λ body. body ≡ body_kept log.now slot) }
    ensures short { IfOk result IsShort }
{
    match log.kept(slot) {
        None => Ok(Body::Abort),
        Some(post) => body_of(alloc, log.shape(), post.content.items()),
    }
}

/// The ciphertext that a post submits: empty where it submits none.
pub(crate) fn ciphertext_in(alloc: Global, shape: Shape, post: &Post) -> Mem<List<u8>>
    requires { length post.now.content < 2 ^ 32 }
    ensures value { IfOk result (λ bytes. bytes ≡ ciphertext_in (shape_of shape) post.now) }
    ensures short { IfOk result (λ bytes. LEAST_CONTENT + length bytes ≤ POST_LIMIT) }
{
    match body_of(alloc, shape, post.content.items())? {
        Body::Submit { ciphertext } => Ok(ciphertext),
        _ => Ok(List::of(Vec::new(alloc))),
    }
}
