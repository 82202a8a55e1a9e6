//! Which pad is flipped: that of the least slot of the list with the descriptor of another member.

ghost use Rattle.std.specs.Prelude.{◌≡◌, ◌<◌, ◌^◌, ◌&&◌, All, IfOk, IfSome, None, Some, if◌then◌else◌, length, map, nat_lt, replicate, slice_index_or};
ghost use Rattle.std.specs.List.{list_all};
ghost use Rattle.std.specs.Option.{option_map};
ghost use Rattle.phase_message.specs.Stages.{shape_of};
ghost use Rattle.shuffle_blame.specs.Replay.{list_of};
ghost use Rattle.shuffle_blame.specs.Rules.{IsShort};
ghost use Rattle.round_spec.specs.Slots.{seed_in};
ghost use Rattle.group_spec.specs.Alterations.{ends_in, holds_of_another, is_reveal, items_in, last_list_in, pads_altered, place_of_pad};

use crate::bits::change_first_in;
use crate::kept::body_kept;
use bulk_descriptor::decode;
use phase_message::{Body, Shape, Slot};
use shuffle_core::open_final;
use stage_log::StageLog;
use std::alloc::Global;
use wire_core::{List, Mem};

/// A body of pads, of a member with this log whose descriptor has these bytes: the flipped pad has another first bit.
pub(crate) fn with_pad_flipped(alloc: Global, log: &StageLog, own: &[u8], body: Body) -> Mem<Body>
    ensures { IfOk result (λ altered. altered ≡ pads_altered log.now own.now body) }
{
    match body {
        Body::Pads { pads } => {
            let mut pads = pads.into_items();
            let items = items_in(alloc, log)?;
            if let Some(place) = place_of_pad(alloc, log.shape(), own, &items, &pads)? {
                change_first_in(alloc, &mut pads, place);
            }
            Ok(Body::Pads {
                pads: List::of(pads),
            })
        }
        body => Ok(body),
    }
}

// The least slot of the list with a descriptor of another member and a pad of at least one byte.
fn place_of_pad(
    alloc: Global,
    shape: Shape,
    own: &[u8],
    items: &Vec<Option<List<u8>>>,
    pads: &Vec<List<u8>>,
) -> Mem<Option<usize>>
    ensures { IfOk result (λ place. place ≡ place_of_pad (shape_of shape) own.now items.now.items pads.now.items) }
{
    for place in 0..pads.len() {
        let holds = holds_at(alloc, shape, own, items, place)?;
        if is_flipped(holds, &pads[place]) {
            return Ok(Some(place));
        }
    }
    Ok(None)
}

// Whether a pad of a slot is flipped: it has a byte or more, and the slot holds a descriptor of another member.
fn is_flipped(holds: bool, pad: &List<u8>) -> bool
    ensures { result ≡ (holds && nat_lt 0 (length pad.now)) }
{
    holds && pad.items().len() > 0
}

// Whether a slot holds the descriptor of another member, if there is such a slot.
fn holds_at(
    alloc: Global,
    shape: Shape,
    own: &[u8],
    items: &Vec<Option<List<u8>>>,
    place: usize,
) -> Mem<bool>
    ensures { IfOk result (λ holds. holds ≡ holds_of_another (shape_of shape) own.now (slice_index_or items.now.items place None)) }
{
    if place >= items.len() {
        return Ok(false);
    }
    match &items[place] {
        None => Ok(false),
        Some(item) => holds_of_another(alloc, shape, own, item),
    }
}

// Whether a slot holds the descriptor of another member.
fn holds_of_another(alloc: Global, shape: Shape, own: &[u8], item: &List<u8>) -> Mem<bool>
    ensures { IfOk result (λ holds. holds ≡ holds_of_another (shape_of shape) own.now (Some item.now)) }
{
    if item.items().as_slice() == own {
        return Ok(false);
    }
    let found = decode(alloc, shape.members, item.items())?;
    Ok(found.is_some())
}

/// What stands in the slots of the last list of shuffle A, where all members have revealed their seeds.
#[tactic(auto, unfolding(group_spec::specs::Alterations::items_in))]
fn items_in(alloc: Global, log: &StageLog) -> Mem<Vec<Option<List<u8>>>>
    ensures { IfOk result (λ items. items.items ≡ items_in log.now) }
{
    let ends = ends_in(alloc, log)?;
    let Some(seeds) = seeds_in(alloc, &ends)? else {
        return Ok(Vec::new(alloc));
    };
    match last_list(alloc, log)? {
        None => no_items(alloc, log.shape().members),
        Some(list) => open_final(alloc, &seeds, &list),
    }
}

// So many slots of which nothing opened.
fn no_items(alloc: Global, members: u8) -> Mem<Vec<Option<List<u8>>>>
    ensures { IfOk result (λ items. items.items ≡ replicate members None) }
{
    let mut items = Vec::with_capacity(alloc, usize::from(members))?;
    for _ in 0..members {
        items.push(None)?;
    }
    Ok(items)
}

// What all members said at the end of shuffle A, as far as the log keeps it.
fn ends_in(alloc: Global, log: &StageLog) -> Mem<Vec<Body>>
    ensures { IfOk result (λ ends. ends.items ≡ ends_in log.now) }
{
    let members = log.shape().members;
    let mut ends = Vec::with_capacity(alloc, usize::from(members))?;
    for sender in 1..members + 1 {
        let end = body_kept(
            alloc,
            log,
            Slot {
                stage: 1 + (members + 2),
                sender,
            },
        )?;
        ends.push(end)?;
    }
    Ok(ends)
}

// The seeds that bodies reveal, if all of them do.
fn seeds_in(alloc: Global, ends: &Vec<Body>) -> Mem<Option<Vec<[u8; 32]>>>
    ensures { IfOk result (λ seeds. option_map (λ s. s.items) seeds
        ≡ (if list_all is_reveal ends.now.items then Some (map seed_in ends.now.items) else None)) }
{
    let mut seeds = Vec::with_capacity(alloc, ends.len())?;
    for end in ends {
        let Body::Reveal { seed, .. } = end else {
            return Ok(None);
        };
        seeds.push(*seed)?;
    }
    Ok(Some(seeds))
}

// The last list of shuffle A, if the log keeps one.
fn last_list(alloc: Global, log: &StageLog) -> Mem<Option<Vec<List<u8>>>>
    ensures value { IfOk result (λ list. option_map (λ v. v.items) list ≡ last_list_in log.now) }
    ensures short { IfOk result (λ list. IfSome list (λ v. All (λ entry. length entry < 2 ^ 32) v.items)) }
{
    let members = log.shape().members;
    let slot = Slot {
        stage: 1 + members,
        sender: members,
    };
    let body = body_kept(alloc, log, slot)?;
    Ok(list_in(body))
}

// The list of a body, if it has one.
fn list_in(body: Body) -> Option<Vec<List<u8>>>
    requires { IsShort body }
    ensures value { option_map (λ v. v.items) result ≡ list_of body }
    ensures short { IfSome result (λ v. All (λ entry. length entry < 2 ^ 32) v.items) }
{
    match body {
        Body::Shuffled { list } => Some(list.into_items()),
        _ => None,
    }
}
