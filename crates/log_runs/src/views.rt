//! What a log of two members keeps of a slot, and its views, of which another program computed the expected ones.

use crate::whole::{TWO, content, is_whole};
use phase_message::is_slot;
use stage_log::{Post, Put, RunningView, Seen, Slot, StageLog};
use std::alloc::Global;
use std::test::Fail;
use wire_core::{List, Mem};

// The view at stage 0: the hash under its tag of no pieces. The views at stages 1 and 2 of the log below.
const VIEW_0: [u8; 32] =
    *b"\xf8\x8f\x75\xd5\x9d\xe5\x05\x0e\x9a\x4f\x32\x77\x06\x65\x33\x17\xb8\x76\x4c\x95\x53\x46\xe9\x2f\xaf\x77\x33\x9f\x51\xd1\xe9\x52";

const VIEW_1: [u8; 32] =
    *b"\xb2\x8f\x16\x19\x7a\x02\x8f\xbc\xc9\x46\x67\x50\x3c\xcd\xc2\x31\xda\x9d\x4a\xbe\xf7\x08\x78\x22\xd7\x45\x51\x42\x90\xdf\x90\xee";

const VIEW_2: [u8; 32] =
    *b"\x76\xc0\xaa\x88\xc5\xbc\xd1\x56\x3f\x30\x8e\x08\xa8\xe2\x59\xfc\x5e\xc2\x79\x28\x6a\x37\x48\xe7\xb1\x96\x7f\x20\xab\x2a\x1c\x0c";

fn view_at(stage: u8) -> [u8; 32] {
    match stage {
        0 => VIEW_0,
        1 => VIEW_1,
        _ => VIEW_2,
    }
}

// What became of a post with this signature.
fn told(answer: &Put, signature: &[u8]) -> &'static str {
    match answer {
        Put::Stored => "stored",
        Put::Same(post) if has_signature(Some(post), signature) => "same",
        Put::Other(post) if has_signature(Some(post), signature) => "other",
        _ => "not handed back",
    }
}

// Puts a post, where the slot and the content may be put, and tells what became of it.
fn put(
    alloc: Global,
    log: &mut StageLog,
    slot: Slot,
    content: &[u8],
    signature: &[u8],
) -> Mem<&'static str> {
    if content.len() < 76 || content.len() > 80 || !is_slot(log.shape(), slot) {
        return Ok("no slot");
    }
    let post = Post {
        content: List::of(Vec::from_slice(alloc, content)?),
        signature: List::of(Vec::from_slice(alloc, signature)?),
    };
    Ok(told(&log.put(slot, post), signature))
}

// Puts what is said in a slot under the view of a stage, and tells what became of it.
fn say(
    alloc: Global,
    log: &mut StageLog,
    slot: Slot,
    viewed: u8,
    body: &[u8],
    signature: &[u8],
) -> Mem<&'static str> {
    let content = content(alloc, 1, slot, &view_at(viewed), body)?;
    put(alloc, log, slot, &content, signature)
}

fn has_signature(post: Option<&Post>, signature: &[u8]) -> bool {
    match post {
        Some(post) => post.signature.items().as_slice() == signature,
        None => false,
    }
}

// The view of a log at a stage and its first wrong slot before, where all stages before are complete.
fn views(log: &StageLog, stage: u8) -> Option<([u8; 32], Option<Slot>)> {
    if !is_whole(log, stage) {
        return None;
    }
    Some((log.view(stage), log.wrong_views(stage)))
}

// What is seen of so many stages of a log, one after the other: the view behind them, and whether all slots carry
// theirs.
fn seen(log: &StageLog, stages: u8) -> Option<([u8; 32], bool)> {
    if !is_whole(log, stages) {
        return None;
    }
    let mut seen = Seen::new(TWO);
    for stage in 0..stages {
        seen.pass(log, stage);
    }
    Some((seen.view(), seen.all_right()))
}

// What the log tells of the places of stage 0.
fn places(log: &StageLog) -> (u32, bool, Option<u8>) {
    (log.missing(0), log.complete(0), log.first_incomplete())
}

// What is said in one slot, the signature, and what becomes of it.
const IN_ONE_SLOT: [(&[u8], &[u8], &str); 3] = [
    (b"said", b"one", "stored"),
    (b"said", b"two", "same"),
    (b"other", b"three", "other"),
];

// One slot of two members: the first post stays, whatever is put behind it.
#[test]
fn a_slot_keeps_its_first_post(rt: HostRuntime) -> Result<(), Fail> {
    let alloc = rt.alloc();
    let mut log = StageLog::new(alloc, TWO)?;
    let slot = Slot {
        stage: 0,
        sender: 1,
    };
    for (body, signature, answer) in IN_ONE_SLOT {
        assert!(rt; say(alloc, &mut log, slot, 0, body, signature)? == answer);
    }
    assert!(rt; has_signature(log.kept(slot), b"one"));
    assert!(rt; places(&log) == (2, false, Some(0)));
    assert!(rt; views(&log, 0) == Some((view_at(0), None)));
    Ok(())
}

// The view that is carried over the contents of the first two stages.
fn carried(log: &StageLog) -> [u8; 32] {
    let mut running = RunningView::new(TWO);
    for stage in 0..2 {
        for sender in 1..3 {
            if let Some(post) = log.kept(Slot { stage, sender }) {
                running.content(post.content.items().as_slice(), sender == 2);
            }
        }
    }
    running.view()
}

// What two members say in the first two stages.
const SAID: [(u8, u8, &[u8]); 4] = [
    (0, 1, b"\x34\xaf\xdd\xc9"),
    (0, 2, b"\xac\xc4\x02"),
    (1, 1, b"\xfe"),
    (1, 2, b"\xd9\xc9\x49\x4e"),
];

// The posts of all keys and submissions of two members, under their views or all under that of stage 0.
fn log_of_two(alloc: Global, right: bool) -> Mem<StageLog> {
    let mut log = StageLog::new(alloc, TWO)?;
    for (stage, sender, body) in SAID {
        let viewed = if right { stage } else { 0 };
        say(alloc, &mut log, Slot { stage, sender }, viewed, body, b"")?;
    }
    Ok(log)
}

// Whether a log has the views of the stages so far and no more, and no wrong one.
fn has_views(log: &StageLog) -> bool {
    (0..3).all(|stage| views(log, stage) == Some((view_at(stage), None)))
        && views(log, 3).is_none()
        && log.first_incomplete() == Some(2)
}

// Whether the passed stages and the running view give the same.
fn is_seen(log: &StageLog) -> bool {
    carried(log) == view_at(2) && seen(log, 2) == Some((view_at(2), true)) && seen(log, 3).is_none()
}

// Whether the slots behind stage 0 are seen to be wrong, of which this is the first.
fn is_seen_wrong(log: &StageLog, first: Slot) -> bool {
    seen(log, 1) == Some((view_at(1), true))
        && seen(log, 2).is_some_and(|(_, right)| !right)
        && views(log, 2).is_some_and(|(_, slot)| slot == Some(first))
}

// Another header of a post of stage 1 is a wrong view.
#[test]
fn views_of_two(rt: HostRuntime) -> Result<(), Fail> {
    let alloc = rt.alloc();
    let log = log_of_two(alloc, true)?;
    assert!(rt; has_views(&log));
    assert!(rt; is_seen(&log));
    let wrong = log_of_two(alloc, false)?;
    let first = Slot {
        stage: 1,
        sender: 1,
    };
    assert!(rt; is_seen_wrong(&wrong, first));
    Ok(())
}
