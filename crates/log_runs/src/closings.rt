//! Closing contents that two logs justify or not, votes, and the first difference of two logs.

ghost use Rattle.std.specs.Prelude.{IsTrue, IfOk};
ghost use Rattle.phase_message.specs.Closing.{ClosesVotes};
ghost use Rattle.phase_message.specs.Stages.{shape_of};
ghost use Rattle.go_nogo.specs.Stands.{IsVoteStage, StandAll};

use crate::whole::{TWO, content, is_whole};
use go_nogo::{Content, Vote, compare_logs, justified, unanimous, votes_of};
use phase_message::{Body, Header, Post, Shape, Slot, StageKind, decode, stage_kind};
use stage_log::StageLog;
use std::alloc::Global;
use std::test::Fail;
use wire_core::{List, Mem};

// Stages 4 and 7 have votes, which stages 5 and 8 close.

// A vote of member 2: its flag, and the byte that fills its view. Member 1 votes yes with views of 3.
type Second = (u8, u8);

const AGREES: Second = (1, 3);

const SAYS_NO: Second = (0, 3);

const OTHER_VIEW: Second = (1, 4);

// Views of the logs of all that the two say before a closing stage, by another program.
fn view_before(stage: u8, second: Second) -> [u8; 32] {
    match (stage, second) {
        (5, (1, 3)) =>
            *b"\xeb\x60\x02\xfe\x7b\x5f\x2e\x4a\x7a\x4d\xdb\x31\xe9\xcb\xca\xaf\x16\xf0\x35\xd1\xe1\xe9\x6a\xfe\xa2\x04\x77\xc7\x5a\x4d\x63\xeb",
        (5, (0, 3)) =>
            *b"\xdf\x23\x54\x43\x34\x8b\x4f\xa2\x66\xf8\x55\x6b\x84\x86\x8b\x32\xb4\x81\x28\x1e\x87\x99\xa8\x1a\x99\x2f\x98\xd4\x7a\xaf\xad\x28",
        (5, (1, 4)) =>
            *b"\xc4\x1c\x99\xc1\x6e\x92\x70\xf6\x15\x2d\xfa\xd7\x53\x37\xf4\x0a\x0a\x93\xbe\x6f\x5d\x71\x5e\xf7\x60\x15\x72\x12\x2c\xe1\x7d\x93",
        (8, (0, 3)) =>
            *b"\x30\x67\x4f\xe4\x7a\x04\xb2\x09\xb2\xf8\x44\xa2\xb0\xee\x3f\x44\x50\xae\xf4\x2f\x1c\xe0\xe5\xf9\x41\xf1\x25\x37\xbf\x2e\x1c\x05",
        _ => [0; 32],
    }
}

// These bytes and so many zeros.
fn padded(alloc: Global, front: &[u8], zeros: u32) -> Mem<Vec<u8>> {
    let mut bytes = Vec::from_slice(alloc, front)?;
    for _ in 0..zeros {
        bytes.push(0)?;
    }
    Ok(bytes)
}

// A body of the first kind of its stage, all zeros but for the flag of a vote.
fn body(alloc: Global, stage: u8, flag: u8) -> Mem<Vec<u8>> {
    match stage {
        0 => padded(alloc, &[1], 9120),
        1 => padded(alloc, &[2], 13668),
        4 => padded(alloc, &[5, flag], 0),
        5 => padded(alloc, &[6], 40),
        6 => padded(alloc, &[8], 8),
        7 => padded(alloc, &[9, flag], 0),
        _ => padded(alloc, &[4], 0),
    }
}

// What stands in a slot.
fn said(alloc: Global, slot: Slot, vote: Second) -> Mem<Vec<u8>> {
    let (flag, view) = vote;
    let body = body(alloc, slot.stage, flag)?;
    content(alloc, 1, slot, &[view; 32], &body)
}

// Puts a content into the slot of its header, if it is of the grammar.
fn put(alloc: Global, log: &mut StageLog, content: Vec<u8>, signature: &[u8]) -> Mem<()>
    requires { StandAll log.old }
    ensures { StandAll log.new }
{
    if content.len() < 76 || content.len() > 20_000 {
        return Ok(());
    }
    let signature = List::of(Vec::from_slice(alloc, signature)?);
    let Ok(read) = decode(alloc, log.shape(), &content) else {
        return Ok(());
    };
    let slot = Slot {
        stage: read.header.stage,
        sender: read.header.sender,
    };
    let content = List::of(content);
    log.put(slot, Post { content, signature });
    Ok(())
}

// Puts what both say at a stage, if they speak there.
fn put_stage(
    alloc: Global,
    log: &mut StageLog,
    stage: u8,
    second: Second,
    signature: &[u8],
) -> Mem<()>
    requires { StandAll log.old }
    ensures { StandAll log.new }
{
    let is_vote = stage == 4 || stage == 7;
    let vote = if is_vote { second } else { AGREES };
    let first = said(alloc, Slot { stage, sender: 1 }, AGREES)?;
    let second = said(alloc, Slot { stage, sender: 2 }, vote)?;
    put(alloc, log, first, signature)?;
    put(alloc, log, second, signature)
}

// A log of all that both say before a stage.
fn log_before(alloc: Global, stage: u8, second: Second) -> Mem<StageLog>
    ensures { IfOk result (λ log. StandAll log) }
{
    let mut log = StageLog::new(alloc, TWO)?;
    for earlier in 0..stage {
        put_stage(alloc, &mut log, earlier, second, b"")?;
    }
    Ok(log)
}

// Whether a stage closes votes.
fn closes(shape: Shape, stage: u8) -> bool
    ensures { IsTrue result → ClosesVotes (shape_of shape) stage }
{
    matches!(
        stage_kind(shape, stage),
        Some(StageKind::Final { .. } | StageKind::Confirm)
    )
}

// Whether a stage has votes.
fn has_votes(shape: Shape, stage: u8) -> bool
    ensures { IsTrue result → IsVoteStage (shape_of shape) stage }
{
    matches!(
        stage_kind(shape, stage),
        Some(StageKind::Go { .. } | StageKind::Check)
    )
}

// The votes of a stage, where it has votes and is complete.
fn votes_at(alloc: Global, log: &StageLog, stage: u8) -> Mem<Option<Vec<Vote>>>
    requires { StandAll log.now }
{
    if has_votes(log.shape(), stage) && log.complete(stage) {
        Ok(Some(votes_of(alloc, log, stage)?))
    } else {
        Ok(None)
    }
}

// Whether a content is justified, where its stage closes votes and the log has all posts before it.
fn answer(alloc: Global, content: &Content, log: &StageLog) -> Mem<Option<bool>>
    requires { StandAll log.now }
{
    let stage = content.header.stage;
    if closes(log.shape(), stage) && is_whole(log, stage) {
        Ok(Some(justified(alloc, content, log)?))
    } else {
        Ok(None)
    }
}

// A content of a closing stage by the number of its kind. What it embeds is in the log alone.
fn closing(alloc: Global, kind: u8, view: [u8; 32]) -> Content {
    let posts = List::of(Vec::new(alloc));
    let seed = [0; 32];
    let body = match kind {
        6 => Body::Reveal { votes: posts, seed },
        7 => Body::Dispute {
            posts,
            outer_seed: seed,
            outer_opening: seed,
        },
        10 => Body::Confirm { votes: posts },
        _ => Body::Differ { posts },
    };
    let header = Header {
        version: 1,
        group: [2; 32],
        round: 1,
        stage: if kind < 10 { 5 } else { 8 },
        sender: 1,
        view,
    };
    Content { header, body }
}

// Whether a closing content by its kind is justified by the log of all before it, under the view of that log or another.
fn is_justified(alloc: Global, kind: u8, second: Second, carries: bool) -> Mem<Option<bool>> {
    let stage = if kind < 10 { 5 } else { 8 };
    let view = if carries {
        view_before(stage, second)
    } else {
        [1; 32]
    };
    let said = closing(alloc, kind, view);
    let log = log_before(alloc, stage, second)?;
    answer(alloc, &said, &log)
}

// A Reveal and a Confirm where the two agree, a Dispute and a Differ under the view of the log where they don't.
const CLOSINGS: [(u8, Second, bool, bool); 11] = [
    (6, AGREES, true, true),
    (6, SAYS_NO, true, false),
    (6, OTHER_VIEW, true, false),
    (7, AGREES, true, false),
    (7, SAYS_NO, true, true),
    (7, SAYS_NO, false, false),
    (7, OTHER_VIEW, true, true),
    (10, AGREES, false, true),
    (10, OTHER_VIEW, false, false),
    (11, SAYS_NO, true, true),
    (11, SAYS_NO, false, false),
];

#[test]
fn which_closings_are_justified(rt: HostRuntime) -> Result<(), Fail> {
    let alloc = rt.alloc();
    for (kind, second, carries, expected) in CLOSINGS {
        let found = is_justified(alloc, kind, second, carries)?;
        assert!(rt; found == Some(expected), "{kind} {second:?}");
    }
    Ok(())
}

// Whether these are the votes of the two, by sender.
fn are_votes(votes: &[Vote], second: Second) -> bool {
    match votes {
        [first, other] => is_vote(first, AGREES) && is_vote(other, second),
        _ => false,
    }
}

fn is_vote(vote: &Vote, (flag, view): Second) -> bool {
    vote.yes == (flag == 1) && vote.view == [view; 32]
}

// Whether the votes of stage 4 are unanimous, where they are those of the two.
fn votes_agree(alloc: Global, second: Second) -> Mem<Option<bool>> {
    let log = log_before(alloc, 5, second)?;
    match votes_at(alloc, &log, 4)? {
        Some(votes) if are_votes(&votes, second) => Ok(Some(unanimous(&votes))),
        _ => Ok(None),
    }
}

// The votes of a stage as the two said them, and whether they are unanimous.
#[test]
fn which_votes_are_unanimous(rt: HostRuntime) -> Result<(), Fail> {
    let alloc = rt.alloc();
    for (second, expected) in [(AGREES, true), (SAYS_NO, false), (OTHER_VIEW, false)] {
        assert!(rt; votes_agree(alloc, second)? == Some(expected), "{second:?}");
    }
    Ok(())
}

// A log by the stage before which it ends and the votes of member 2.
type Logged = (u8, Second);

// The first difference of two logs.
fn difference_of(alloc: Global, one: Logged, other: Logged) -> Mem<Option<Slot>> {
    let one = log_before(alloc, one.0, one.1)?;
    let other = log_before(alloc, other.0, other.1)?;
    Ok(compare_logs(&one, &other))
}

// The first difference of a log and one of the same votes alone, with signatures.
fn difference_of_signed(alloc: Global) -> Mem<Option<Slot>> {
    let log = log_before(alloc, 5, AGREES)?;
    let mut signed = StageLog::new(alloc, TWO)?;
    put_stage(alloc, &mut signed, 4, AGREES, b"signed")?;
    Ok(compare_logs(&log, &signed))
}

// The vote of member 2.
const SECOND: Option<Slot> = Some(Slot {
    stage: 4,
    sender: 2,
});

// Logs, and their first difference.
const DIFFERENCES: [(Logged, Logged, Option<Slot>); 3] = [
    ((5, AGREES), (5, AGREES), None),
    ((5, AGREES), (5, SAYS_NO), SECOND),
    ((8, OTHER_VIEW), (5, AGREES), SECOND),
];

// Another vote of member 2 is the first difference; signatures are none, and neither is a slot that one log alone keeps.
#[test]
fn the_first_difference_of_two_logs(rt: HostRuntime) -> Result<(), Fail> {
    let alloc = rt.alloc();
    for (one, other, expected) in DIFFERENCES {
        assert!(rt;
            difference_of(alloc, one, other)? == expected,
            "{one:?} {other:?}"
        );
    }
    assert!(rt; difference_of_signed(alloc)?.is_none());
    Ok(())
}
