//! When a closing content is justified.

ghost use Rattle.std.specs.Prelude.{◌≡◌, ◌-◌, ◌&&◌, not, IfOk, bytes_eq};
ghost use Rattle.stage_log.specs.Log.{contents_in};
ghost use Rattle.go_nogo.specs.Stands.{StandAt};
ghost use Rattle.go_nogo.specs.Closing.{HoldsEmbedded, IsClosing, embedded_of, is_assent, is_justified};

use crate::votes::{unanimous, votes_of};
use phase_message::{Body, Content};
use stage_log::StageLog;
use std::alloc::Global;
use wire_core::Mem;

/// Whether a closing content is justified, of which the log keeps the embedded posts: the votes that it closes are
/// unanimous where it is a Reveal or a Confirm. Else they are not, and its header carries the view of the log at its
/// stage. The votes in the log are of the grammar and stand in their slots.
pub fn justified(alloc: Global, content: &Content, embedded: &StageLog) -> Mem<bool>
    requires closing { IsClosing embedded.now.shape content.now }
    requires holds { HoldsEmbedded content.now embedded.now }
    requires stand { StandAt embedded.now (content.now.header.stage - 1) }
    ensures { IfOk result (λ answer. answer ≡
        is_justified embedded.now.shape content.now (contents_in (embedded_of embedded.now.shape content.now embedded.now.posts))) }
{
    let stage = content.header.stage;
    let votes = votes_of(alloc, embedded, stage - 1)?;
    let agree = unanimous(&votes);
    if is_assent(&content.body) {
        return Ok(agree);
    }
    let view = embedded.view(stage);
    Ok(is_objection(agree, &content.header.view, &view))
}

// Whether a body is a Reveal or a Confirm.
fn is_assent(body: &Body) -> bool
    ensures { result ≡ is_assent body.now }
{
    matches!(body, Body::Reveal { .. } | Body::Confirm { .. })
}

// Whether votes don't agree, and a header carries the view of the log.
fn is_objection(agree: bool, carried: &[u8; 32], view: &[u8; 32]) -> bool
    ensures { result ≡ (not agree && bytes_eq carried.now view.now) }
{
    !agree && carried == view
}
