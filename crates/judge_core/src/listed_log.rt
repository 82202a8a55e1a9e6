//! The log that is listed before a pad: its view, and what its posts say.

ghost use Rattle.std.specs.Prelude.{◌≡◌, ◌<◌, ◌+◌, ◌∷◌, [], ◌^◌, ℕ, List, All, IfOk, IfSome, IsTrue, length, slice_index_or};
ghost use Rattle.std.specs.List.{slice_range};
ghost use Rattle.wire_core.specs.declared.tag.Tag.TheVariants.{View};
ghost use Rattle.wire_core.specs.Hash.{hash_of};
ghost use Rattle.phase_message.specs.Grammar.{IsBody};
ghost use Rattle.phase_message.specs.Stages.{is_slot, shape_of};
ghost use Rattle.phase_message.specs.Slots.{slot_number, slots_before};
ghost use Rattle.stage_log.specs.Log.{view_of};
ghost use Rattle.stage_log.specs.Running.{Carries};
ghost use Rattle.shuffle_blame.specs.Replay.{list_of};
ghost use Rattle.round_spec.specs.Slots.{bulk_place, keys_in, keys_said, list_said, pad_stage, said_in};
ghost use Rattle.judge_core.specs.PadLog.{AreEntries, AreFiveKeys, IsListedLog, TellsSeed, TellsSeeds, contents_said};

use crate::hearing::Said;
use crate::reading::read_content;
use phase_message::{Body, Shape, Slot, slot_number, slots_before};
use ring_encrypt::{PublicKey, read_key};
use stage_log::RunningView;
use std::alloc::Global;
use wire_core::{List, Mem};

// Which of the five keys of a member is the bulk key.
const BULK_PLACE: usize = 2;

// The view behind all stages of the log.
pub(crate) fn view_behind(shape: Shape, log: &[Said<'_>]) -> [u8; 32]
    requires { IsListedLog (shape_of shape) log.now }
    ensures { result ≡ view_of (shape_of shape) (contents_said log.now) (pad_stage (shape_of shape)) }
{
    let mut running = RunningView::new(shape);
    for stage in 0..shape.members + 4 {
        carry(&mut running, posts_at(shape, log, stage));
    }
    running.view()
}

// The posts of a stage.
fn posts_at<'a, 'b>(shape: Shape, log: &'a [Said<'b>], stage: u8) -> &'a [Said<'b>]
    requires log { IsListedLog (shape_of shape) log.now }
    requires earlier { stage < pad_stage (shape_of shape) }
    ensures { result.now
        ≡ slice_range log.now (slots_before (shape_of shape) stage) (slots_before (shape_of shape) (stage + 1)) }
{
    let first = slots_before(shape, stage) as usize;
    let end = slots_before(shape, stage + 1) as usize;
    &log[first..end]
}

// Carries a view on over the posts of a stage.
fn carry(running: &mut RunningView, posts: &[Said<'_>])
    requires some { 0 < length posts.now }
    requires short { All (λ one. length one.content.now < 2 ^ 32) posts.now }
    ensures { (view : List ℕ) → Carries running.old view [] →
        Carries running.new (hash_of View (view ∷ contents_said posts.now)) [] }
{
    let Some((last, others)) = posts.split_last() else {
        unreachable!()
    };
    for one in others {
        running.content(one.content, false);
    }
    running.content(last.content, true);
}

// What was said in a slot of the log.
fn read_slot(alloc: Global, shape: Shape, log: &[Said<'_>], slot: Slot) -> Mem<Body>
    requires log { IsListedLog (shape_of shape) log.now }
    requires there { IsTrue (is_slot (shape_of shape) slot.stage slot.sender) }
    requires earlier { slot_number (shape_of shape) slot.stage slot.sender < length log.now }
    ensures value { IfOk result (λ body.
        body ≡ said_in (shape_of shape) (contents_said log.now) slot.stage slot.sender) }
    ensures grammar { IfOk result (IsBody (shape_of shape) slot.stage) }
{
    let said = log[slot_number(shape, slot) as usize];
    let content = read_content(alloc, shape, said.content)?;
    Ok(content.body)
}

// The inner seeds of shuffle A, by member, if all members revealed theirs.
pub(crate) fn revealed_seeds(
    alloc: Global,
    shape: Shape,
    log: &[Said<'_>],
) -> Mem<Option<List<[u8; 32]>>>
    requires { IsListedLog (shape_of shape) log.now }
    ensures { IfOk result (TellsSeeds (shape_of shape) (contents_said log.now)) }
{
    let mut seeds = Vec::with_capacity(alloc, usize::from(shape.members))?;
    for sender in 1..shape.members + 1 {
        let stage = shape.members + 3;
        let body = read_slot(alloc, shape, log, Slot { stage, sender })?;
        let Some(seed) = seed_in(&body) else {
            return Ok(None);
        };
        seeds.push(seed)?;
    }
    Ok(Some(List::of(seeds)))
}

// The inner seed that a body reveals, if it is a Reveal.
fn seed_in(body: &Body) -> Option<[u8; 32]>
    ensures { TellsSeed body.now result }
{
    match body {
        Body::Reveal { votes: _, seed } => Some(*seed),
        _ => None,
    }
}

// The last list of shuffle A, unless the last turn said Abort.
pub(crate) fn last_list(
    alloc: Global,
    shape: Shape,
    log: &[Said<'_>],
) -> Mem<Option<List<List<u8>>>>
    requires { IsListedLog (shape_of shape) log.now }
    ensures value { IfOk result (λ list.
        list ≡ list_said (shape_of shape) (contents_said log.now) 1 (shape_of shape).members) }
    ensures entries { IfOk result (λ list. IfSome list (AreEntries (shape_of shape))) }
{
    let slot = Slot {
        stage: shape.members + 1,
        sender: shape.members,
    };
    let body = read_slot(alloc, shape, log, slot)?;
    Ok(list_in(body))
}

// The list of a turn, unless it said Abort.
fn list_in(body: Body) -> Option<List<List<u8>>>
    ensures { result ≡ list_of body }
{
    match body {
        Body::Shuffled { list } => Some(list),
        _ => None,
    }
}

// The keys under which seeds of pads are sealed, by member.
pub(crate) fn bulk_keys(alloc: Global, shape: Shape, log: &[Said<'_>]) -> Mem<Vec<PublicKey>>
    requires { IsListedLog (shape_of shape) log.now }
    ensures { IfOk result (λ keys. keys.items ≡ keys_said (shape_of shape) (contents_said log.now) bulk_place) }
{
    let mut keys = Vec::with_capacity(alloc, usize::from(shape.members))?;
    for sender in 1..shape.members + 1 {
        let body = read_slot(alloc, shape, log, Slot { stage: 0, sender })?;
        keys.push(bulk_key(&body))?;
    }
    Ok(keys)
}

// The bulk key among the keys that a body says.
fn bulk_key(body: &Body) -> PublicKey
    requires { AreFiveKeys body.now }
    ensures { result ≡ slice_index_or (keys_in body.now) bulk_place [] }
{
    let Body::Keys { keys } = body else {
        unreachable!()
    };
    let Ok(key) = read_key(&keys[BULK_PLACE]) else {
        unreachable!()
    };
    key
}
