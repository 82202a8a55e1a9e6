//! The second post that a member with two votes makes.

ghost use Rattle.std.specs.Prelude.{◌≡◌, ◌<◌, ◌^◌, length, option_map, IfOk};
ghost use Rattle.phase_message.specs.declared.post.Post.{Post as Spoken};
ghost use Rattle.phase_message.specs.Offence.{content_read};
ghost use Rattle.phase_message.specs.Post.{post_spelling};
ghost use Rattle.phase_message.specs.Stages.{shape_of};
ghost use Rattle.group_spec.specs.World.{Leaf, is_first_vote, other_vote, signed_with};
ghost use Rattle.group_threads.specs.Playing.{IsSpare};

use crate::queue::content_in;
use lms_tree::LeafRun;
use phase_message::{
    Body, Content, DecodeRefusal, Post, Shape, StageKind, decode, encode, stage_kind,
};
use signed_post::write;
use std::alloc::{AllocError, Global};
use wire_core::{List, Mem};

/// The post with the other vote behind a vote of shuffle A, signed with the spare leaf.
pub(crate) fn second_post(
    alloc: Global,
    shape: Shape,
    spare: &mut LeafRun,
    bytes: &Vec<u8>,
) -> Mem<Option<Vec<u8>>>
    ensures post { IfOk result (λ second. (leaf : Leaf) (post : Spoken) → IsSpare leaf spare.old → bytes.now.items ≡ post_spelling post →
        option_map (λ bytes. bytes.items) second
        ≡ option_map (λ content. post_spelling (signed_with leaf content)) (other_vote (shape_of shape) (content_read (shape_of shape) post.content))) }
    ensures spare { IfOk result (λ _. (leaf : Leaf) → IsSpare leaf spare.old → IsSpare leaf spare.new) }
{
    let content = content_in(bytes)?;
    let Some(content) = other_vote(alloc, shape, content)? else {
        return Ok(None);
    };
    // A member votes once in shuffle A, and so it has the leaf.
    if spare.left() == 0 || content.len() > u32::MAX as usize {
        return Err(AllocError);
    }
    let signature = spare.sign(alloc, &content)?;
    let post = Post {
        content: List::of(content),
        signature: List::of(signature),
    };
    let bytes = write(alloc, &post)?;
    Ok(Some(bytes))
}

// The content with the other vote, if it is a vote of shuffle A.
fn other_vote(alloc: Global, shape: Shape, bytes: &[u8]) -> Mem<Option<Vec<u8>>>
    requires { length bytes.now < 2 ^ 32 }
    ensures { IfOk result (λ other. option_map (λ bytes. bytes.items) other
        ≡ other_vote (shape_of shape) (content_read (shape_of shape) bytes.now)) }
{
    match decode(alloc, shape, bytes) {
        Ok(content) => {
            if !is_first_vote(stage_kind(shape, content.header.stage)) {
                return Ok(None);
            }
            let Content { header, body } = content;
            let Body::Go { yes } = body else {
                return Ok(None);
            };
            let body = Body::Go { yes: !yes };
            let bytes = encode(alloc, shape, &Content { header, body })?;
            Ok(Some(bytes))
        }
        Err(DecodeRefusal::Malformed { .. }) => Ok(None),
        Err(DecodeRefusal::Memory) => Err(AllocError),
    }
}

// Whether a stage is one of the votes of shuffle A.
fn is_first_vote(kind: Option<StageKind>) -> bool
    ensures { result ≡ is_first_vote kind }
{
    match kind {
        Some(StageKind::Go { shuffle }) => shuffle == 1,
        _ => false,
    }
}
