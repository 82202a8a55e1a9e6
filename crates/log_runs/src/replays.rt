//! The first shuffle of two members, by outer seeds and openings that another program drew, whose replays it tells too.

ghost use Rattle.std.specs.Prelude.{◌≡◌, IsTrue, Some};
ghost use Rattle.phase_message.specs.declared.stage.StageKind.TheVariants.{Final};
ghost use Rattle.phase_message.specs.Stages.{kind_of_stage, shape_of};

use crate::whole::{TWO, content, is_whole, joined};
use layer_cipher::seal;
use phase_message::{Post, Shape, Slot, StageKind, is_slot, stage_kind};
use ring_encrypt::public_of;
use shuffle_blame::{Cause, Fault, Shown, replay};
use stage_log::{RunningView, StageLog};
use std::alloc::Global;
use std::test::Fail;
use wire_core::{List, Mem, put_bytes};

const ROUND: u64 = 98;

// What a member shows.
fn shown_by(member: u8) -> Shown {
    match member {
        1 => Shown {
            outer_seed: *b"\x7b\xea\xef\x27\x50\xe1\x85\x79\x7b\x96\xb0\x95\xd4\x81\x8a\x23\xa5\x96\xb8\x68\x3b\x43\x95\x2a\x0f\x84\x0d\x96\xb5\x58\x13\x82",
            outer_opening: *b"\x9a\x1c\x1c\x19\xd5\x9d\xc5\x4f\xb6\x57\xf9\x8d\x16\xa3\x28\xc3\xe9\x39\xb6\xbc\x9f\x88\x85\x55\x1d\xc9\xb3\xa6\x9e\x55\x86\x44",
        },
        _ => Shown {
            outer_seed: *b"\xb4\x5b\x2b\x1b\x47\x73\x43\x07\x08\x6b\x39\x41\xd4\x83\x3b\x4a\xf6\xf7\x4e\x8b\x0a\x19\x3b\xa1\x4c\xd9\x96\xac\x67\xc2\x2f\x0b",
            outer_opening: *b"\xd2\xbd\xc4\x24\x1e\x0b\x66\x8c\x20\x3f\x1e\x16\x37\xbd\xfb\x3a\xec\x82\xf3\xdc\x46\x85\x4e\x57\xd8\x08\x6e\x16\xce\xf9\xc3\xdc",
        },
    }
}

// The seed of a layer of a member's submission, by the SHA-256 of a third program.
fn seed_of(member: u8, layer: u8) -> [u8; 32] {
    match (member, layer) {
        (1, 1) =>
            *b"\x27\x85\x9d\x55\xd5\xc0\x0e\xaf\xc3\xd2\x2c\xf3\x20\x84\x18\x77\x93\x8e\x28\xc7\xb4\x12\xab\x12\x21\x11\x48\x3c\x59\xbd\x88\x15",
        (1, _) =>
            *b"\xda\xde\xc7\x7f\x41\xaf\xa0\xd2\xf1\x23\xca\x3d\x79\xd2\xe8\xdd\xbd\x61\xa7\xcb\x09\xed\x94\xd8\x5f\x75\xc1\x29\x60\xb7\x61\xb7",
        (_, 1) =>
            *b"\x72\x7a\x9d\x55\x98\x4e\x6a\xa5\xa3\xea\xb7\xc2\x36\xc9\xf3\xe0\x8a\x39\xeb\x2d\x92\xbf\x61\xcd\x7d\xc0\x69\x5c\x89\x9f\x29\x6f",
        _ =>
            *b"\x5e\xe7\x90\x75\xb6\x7f\x52\x7a\x1f\x0e\xba\xbe\x5f\xc8\x77\x74\x1a\xd5\xa8\x1d\x47\x94\x4e\x5f\xaf\x44\x81\xd8\x16\x7f\xf9\x22",
    }
}

// A layer of a member's submission.
fn layer(alloc: Global, member: u8, layer: u8, body: &[u8]) -> Mem<Vec<u8>> {
    if body.len() > 20_000 {
        return Ok(Vec::new(alloc));
    }
    let key = public_of(&shown_by(layer).outer_seed);
    seal(alloc, &key, &seed_of(member, layer), body)
}

// A member's submission with both outer layers off.
fn blob(alloc: Global, member: u8) -> Mem<Vec<u8>> {
    vec![in alloc; member; 9124]
}

// With the first of them off.
fn half(alloc: Global, member: u8) -> Mem<Vec<u8>> {
    let body = blob(alloc, member)?;
    layer(alloc, member, 2, &body)
}

// The keys of a member, of which each is that of its outer seed.
fn keys(alloc: Global, member: u8) -> Mem<Vec<u8>> {
    let key = public_of(&shown_by(member).outer_seed);
    let mut keys = Vec::new(alloc);
    for _ in 0..5 {
        put_bytes(&mut keys, key.bytes())?;
    }
    Ok(keys)
}

// A member's submission.
fn submitted(alloc: Global, member: u8) -> Mem<Vec<u8>> {
    let inner = half(alloc, member)?;
    layer(alloc, member, 1, &inner)
}

// The list of the first turn: the second member's entry first.
fn first_list(alloc: Global) -> Mem<Vec<u8>> {
    let first = half(alloc, 2)?;
    let second = half(alloc, 1)?;
    joined(alloc, &[&first, &second])
}

// The last list, in which this member's entry stands before the second one's.
fn last_list(alloc: Global, member: u8) -> Mem<Vec<u8>> {
    let first = blob(alloc, member)?;
    let second = blob(alloc, 2)?;
    joined(alloc, &[&first, &second])
}

// What is changed in the round: the vote of member 2, and whose submission comes first in the last list.
#[derive(Clone, Copy)]
struct Change {
    vote: u8,
    first: u8,
}

// Nothing is changed.
const NOTHING: Change = Change { vote: 1, first: 1 };

// What a member says behind the number of its kind.
fn rest(alloc: Global, slot: Slot, change: Change) -> Mem<Vec<u8>> {
    match slot.stage {
        0 => keys(alloc, slot.sender),
        1 => submitted(alloc, slot.sender),
        2 => first_list(alloc),
        3 => last_list(alloc, change.first),
        _ => {
            let vote = if slot.sender == 1 { 1 } else { change.vote };
            Ok(vec![in alloc; vote]?)
        }
    }
}

// The number of the kind of what is said in a stage.
fn kind_of(stage: u8) -> u8 {
    match stage {
        0 => 1,
        1 => 2,
        2 | 3 => 3,
        _ => 5,
    }
}

// The content that a member says under a view.
fn said(alloc: Global, slot: Slot, view: &[u8; 32], change: Change) -> Mem<Vec<u8>> {
    let rest = rest(alloc, slot, change)?;
    let body = joined(alloc, &[&[kind_of(slot.stage)], &rest])?;
    content(alloc, ROUND, slot, view, &body)
}

// Puts what is said in a slot, with no signature, if there is such a slot.
fn put(alloc: Global, log: &mut StageLog, running: &mut RunningView, slot: Slot, content: Vec<u8>) {
    if !is_slot(log.shape(), slot) || content.len() < 76 || content.len() > 40_000 {
        return;
    }
    running.content(&content, slot.sender == 2 || slot.stage == 2);
    let signature = List::of(Vec::new(alloc));
    let content = List::of(content);
    log.put(slot, Post { content, signature });
}

// Puts what a member says, with the view that is carried.
fn say(
    alloc: Global,
    log: &mut StageLog,
    running: &mut RunningView,
    slot: Slot,
    change: Change,
) -> Mem<()> {
    let content = said(alloc, slot, &running.view(), change)?;
    put(alloc, log, running, slot, content);
    Ok(())
}

// Puts what both say at a stage.
fn say_both(
    alloc: Global,
    log: &mut StageLog,
    running: &mut RunningView,
    stage: u8,
    change: Change,
) -> Mem<()> {
    say(alloc, log, running, Slot { stage, sender: 1 }, change)?;
    say(alloc, log, running, Slot { stage, sender: 2 }, change)
}

// The log of all that both say before the end of the shuffle.
fn log_of(alloc: Global, change: Change) -> Mem<StageLog> {
    let mut log = StageLog::new(alloc, TWO)?;
    let mut running = RunningView::new(TWO);
    for stage in 0..5 {
        say_both(alloc, &mut log, &mut running, stage, change)?;
    }
    Ok(log)
}

// Whether a stage ends the first shuffle.
fn ends(shape: Shape, stage: u8) -> bool
    ensures { IsTrue result → kind_of_stage (shape_of shape) stage ≡ Some (Final 1) }
{
    matches!(
        stage_kind(shape, stage),
        Some(StageKind::Final { shuffle: 1 })
    )
}

// Whom the replay blames, by what both show, if the log has all posts.
fn blamed(
    alloc: Global,
    log: &StageLog,
    first: Shown,
    second: Shown,
) -> Mem<Option<Option<Fault>>> {
    let shown = vec![in alloc; first, second]?;
    if !is_whole(log, 5) {
        return Ok(None);
    }
    if !ends(log.shape(), 5) || usize::from(log.shape().members) != shown.len() {
        return Ok(None);
    }
    Ok(Some(replay(alloc, log, 5, ROUND, &shown)?))
}

fn of(member: u8, cause: Cause) -> Option<Option<Fault>> {
    Some(Some(Fault { member, cause }))
}

#[test]
fn a_round_as_it_should_be_blames_nobody(rt: HostRuntime) -> Result<(), Fail> {
    let log = log_of(rt.alloc(), NOTHING)?;
    let found = blamed(rt.alloc(), &log, shown_by(1), shown_by(2))?;
    assert!(rt; found == Some(None));
    Ok(())
}

#[test]
fn what_is_shown_decides(rt: HostRuntime) -> Result<(), Fail> {
    let alloc = rt.alloc();
    let log = log_of(alloc, NOTHING)?;
    let mut other = shown_by(1);
    other.outer_seed[0] = 0x7a;
    assert!(rt; blamed(alloc, &log, other, shown_by(2))? == of(1, Cause::OuterSeed));
    let mut other = shown_by(2);
    other.outer_opening[0] = 0xd3;
    assert!(rt; blamed(alloc, &log, shown_by(1), other)? == of(2, Cause::Submission { layer: 1 }));
    Ok(())
}

#[test]
fn a_wrong_list_and_a_no_are_blamed(rt: HostRuntime) -> Result<(), Fail> {
    let alloc = rt.alloc();
    let log = log_of(alloc, Change { vote: 0, first: 1 })?;
    assert!(rt; blamed(alloc, &log, shown_by(1), shown_by(2))? == of(2, Cause::FalseNoGo));
    let log = log_of(alloc, Change { vote: 0, first: 2 })?;
    assert!(rt; blamed(alloc, &log, shown_by(1), shown_by(2))? == of(2, Cause::Shuffle));
    Ok(())
}
