//! What a body holds, by its stage and its kind.

ghost use Rattle.std.specs.Prelude.{◌≡◌, ◌≤◌};
ghost use Rattle.phase_message.specs.Stages.{shape_of};
ghost use Rattle.phase_message.specs.Body.{body_form, form_in, length_rule, level};

use crate::shape::Shape;
use crate::slots::slots_before;
use crate::stage::{StageKind, stage_kind};

// An item of a list: an entry of this length, or a post or a pad, which say their lengths.
#[derive(Clone, Copy, Debug)]
pub(crate) enum ItemForm {
    Entry { length: u32 },
    Post,
    Pad,
}

// A kind of body, with the counts and the lengths of its fields.
#[derive(Clone, Copy, Debug)]
pub(crate) enum BodyForm {
    Keys,
    Submit { length: u32 },
    Shuffled { count: u32, length: u32 },
    Abort,
    Go,
    Reveal { votes: u32 },
    Dispute { posts: u32 },
    Pads { count: u32 },
    Check,
    Confirm { votes: u32 },
    Differ { posts: u32 },
}

// What a body holds at a stage under a kind's number: `None` where the stage has no such kind.
#[tactic(auto, unfolding(crate::specs::Body::body_form))]
pub(crate) fn form_at(shape: Shape, stage: u8, kind: u8) -> Option<BodyForm>
    ensures { result ≡ body_form (shape_of shape) stage kind }
{
    let stage_kind = stage_kind(shape, stage)?;
    form_of_kind(shape, stage_kind, slots_before(shape, stage), kind)
}

fn form_of_kind(shape: Shape, stage: StageKind, before: u32, kind: u8) -> Option<BodyForm>
    ensures { result ≡ form_in (shape_of shape) before stage kind }
{
    let count = u32::from(shape.members);
    match stage {
        StageKind::Keys if kind == 1 => Some(BodyForm::Keys),
        StageKind::Submit { shuffle } if kind == 2 => Some(BodyForm::Submit {
            length: entry_length(shape, shuffle, 0),
        }),
        StageKind::Shuffle { shuffle, k } if kind == 3 => Some(BodyForm::Shuffled {
            count,
            length: entry_length(shape, shuffle, k),
        }),
        StageKind::Shuffle { .. } if kind == 4 => Some(BodyForm::Abort),
        StageKind::Go { .. } if kind == 5 => Some(BodyForm::Go),
        StageKind::Final { .. } if kind == 6 => Some(BodyForm::Reveal { votes: count }),
        StageKind::Final { .. } if kind == 7 => Some(BodyForm::Dispute { posts: before }),
        StageKind::Pad if kind == 8 => Some(BodyForm::Pads { count }),
        StageKind::Check if kind == 9 => Some(BodyForm::Check),
        StageKind::Confirm if kind == 10 => Some(BodyForm::Confirm { votes: count }),
        StageKind::Confirm if kind == 11 => Some(BodyForm::Differ { posts: before }),
        _ => None,
    }
}

/// How many bytes the body of every content of a stage has: 9,120 for keys, those of a wrapped item
/// for a submission, 1 for a vote. 0 for the other stages, where the length varies.
pub fn length_rule(shape: Shape, kind: StageKind) -> u32
    ensures { result ≡ length_rule (shape_of shape) kind }
{
    match kind {
        StageKind::Keys => 9120,
        StageKind::Submit { shuffle } => entry_length(shape, shuffle, 0),
        StageKind::Go { .. } | StageKind::Check => 1,
        _ => 0,
    }
}

// How many bytes an entry of a shuffle has once k of its layers are off.
fn entry_length(shape: Shape, shuffle: u8, k: u8) -> u32
    ensures { result ≡ level shape.members shuffle k }
{
    let members = u32::from(shape.members);
    let item = if shuffle == 1 {
        36 + 2272 * members
    } else {
        34
    };
    item + 2272 * (2 * members).saturating_sub(u32::from(k))
}
