//! A body with its header, as bytes.

ghost use Rattle.std.specs.Prelude.{◌≡◌, ℕ, List, IfOk, IsTrue};
ghost use Rattle.phase_message.specs.declared.post.Post.{Post};
ghost use Rattle.phase_message.specs.Grammar.{IsBody, content_text};
ghost use Rattle.phase_message.specs.Stages.{is_slot, kind_of_stage, shape_of};
ghost use Rattle.stage_log.specs.Log.{contents_of, view_of};
ghost use Rattle.round_spec.specs.Say.{Configuration, content_with, own_body_if, shape_in};
ghost use Rattle.honest_say.specs.Seats.{IsSeatOf};

use crate::seat::Seat;
use phase_message::{Body, Content, encode};
use std::alloc::Global;
use wire_core::Mem;

/// The bytes of what a member says at a stage: a body that fits the stage, under the member's header with the view of all
/// that was said before. It gives up only where it runs out of memory.
#[tactic(auto, unfolding(round_spec::specs::Say::content_with))]
pub fn content(alloc: Global, seat: &Seat, stage: u8, view: &[u8; 32], body: Body) -> Mem<Vec<u8>>
    requires slot { IsTrue (is_slot (shape_of seat.now.shape) stage seat.now.number) }
    requires body { IsBody (shape_of seat.now.shape) stage body }
    ensures { IfOk result (λ bytes. (c : Configuration) (own : List ℕ) (posts : List Post) → IsSeatOf c seat.now →
        view.now ≡ view_of (shape_in c) (contents_of posts) stage →
        body ≡ own_body_if c own posts stage (kind_of_stage (shape_in c) stage) →
        bytes.items ≡ content_text (content_with c own posts stage)) }
{
    let header = seat.header(stage, view);
    encode(alloc, seat.shape, &Content { header, body })
}
