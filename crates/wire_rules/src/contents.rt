//! Stages, slots and contents of phase_message.

ghost use Rattle.std.specs.Prelude.{◌≤◌, IfOk};
ghost use Rattle.phase_message.specs.Grammar.{OfGrammar};

use phase_message::{
    Body, Content, DecodeRefusal, Shape, Slot, StageKind, decode, encode, is_slot, length_rule,
    slot_number, slots_before, stage_kind,
};
use std::alloc::{AllocError, Global};
use std::test::Fail;
use wire_core::{put_bytes, put_u8};

// A round of two members, one of three and one of eight.
const TWO: Shape = Shape {
    version: 1,
    members: 2,
};

const THREE: Shape = Shape {
    version: 1,
    members: 3,
};

const EIGHT: Shape = Shape {
    version: 1,
    members: 8,
};

// The table of stages of a group of three.
#[test]
fn stages_of_three(rt: HostRuntime) {
    let want = [
        (0, Some(StageKind::Keys)),
        (1, Some(StageKind::Submit { shuffle: 1 })),
        (2, Some(StageKind::Shuffle { shuffle: 1, k: 1 })),
        (4, Some(StageKind::Shuffle { shuffle: 1, k: 3 })),
        (5, Some(StageKind::Go { shuffle: 1 })),
        (6, Some(StageKind::Final { shuffle: 1 })),
        (7, Some(StageKind::Pad)),
        (8, Some(StageKind::Check)),
        (9, Some(StageKind::Confirm)),
        (10, Some(StageKind::Submit { shuffle: 2 })),
        (11, Some(StageKind::Shuffle { shuffle: 2, k: 1 })),
        (13, Some(StageKind::Shuffle { shuffle: 2, k: 3 })),
        (14, Some(StageKind::Go { shuffle: 2 })),
        (15, Some(StageKind::Final { shuffle: 2 })),
        (16, None),
    ];
    for (stage, kind) in want {
        assert!(rt; stage_kind(THREE, stage) == kind, "at {stage}");
    }
}

// The first 76 bytes of a content, behind which all bytes are 0.
fn begun(stage: u8, sender: u8, kind: u8) -> [u8; 9196] {
    let mut content = [0; 9196];
    content[0] = 1;
    content[41] = stage;
    content[42] = sender;
    content[75] = kind;
    content
}

// What the first bytes of a content are read as in a group of three.
fn read(alloc: Global, content: &[u8; 9196], length: usize) -> Result<Content, DecodeRefusal>
    requires { length ≤ 9196 }
    ensures { IfOk result (OfGrammar (record { version = 1; members = 3 })) }
{
    decode(alloc, THREE, &content[..length])
}

// Whether bytes are the first of a content.
fn is_front(bytes: &[u8], content: &[u8; 9196], length: usize) -> bool
    requires { length ≤ 9196 }
{
    bytes == &content[..length]
}

fn put(content: &mut [u8], place: usize, byte: u8) {
    if place < content.len() {
        content[place] = byte;
    }
}

// A content of a group of three for each rule, in the order in which they are tested: stage, sender and kind, bytes
// that are changed, how many bytes are read, and the offset and the rule of the first offence.
const OFFENCES: [([u8; 3], &[(usize, u8)], usize, (u32, u32)); 9] = [
    ([0, 1, 1], &[], 75, (75, 7)),
    ([0, 1, 1], &[(0, 2)], 9196, (0, 8)),
    ([0, 0, 1], &[], 9196, (41, 9)),
    ([0, 1, 2], &[], 9196, (75, 1)),
    ([0, 1, 1], &[], 9195, (7372, 2)),
    ([0, 1, 1], &[(108, 0x01), (109, 0x30)], 9196, (108, 4)),
    ([5, 1, 5], &[(76, 2)], 77, (76, 5)),
    ([7, 1, 8], &[(77, 1), (79, 1)], 80, (76, 6)),
    ([5, 1, 5], &[], 78, (77, 3)),
];

// A content with changed bytes.
fn changed(first: [u8; 3], changes: &[(usize, u8)]) -> [u8; 9196] {
    let [stage, sender, kind] = first;
    let mut content = begun(stage, sender, kind);
    for &(place, byte) in changes {
        put(&mut content, place, byte);
    }
    content
}

// Whether the first bytes of a content are refused, by this rule at this place.
fn is_refused(alloc: Global, content: &[u8; 9196], length: usize, at: u32, rule: u32) -> bool {
    length <= 9196
        && read(alloc, content, length).err() == Some(DecodeRefusal::Malformed { at, rule })
}

#[test]
fn the_first_offence_is_named(rt: HostRuntime) {
    for (first, changes, length, (at, rule)) in OFFENCES {
        let content = changed(first, changes);
        assert!(rt;
            is_refused(rt.alloc(), &content, length, at, rule),
            "rule {rule} at {at}"
        );
    }
}

// The greatest coefficient, a vote, three pads.
#[test]
fn contents_are_read(rt: HostRuntime) -> Result<(), Fail> {
    let alloc = rt.alloc();
    let mut keys = begun(0, 1, 1);
    keys[109] = 0x30;
    let said = read(alloc, &keys, 9196)?;
    assert!(rt; matches!(&said.body, Body::Keys { .. }));
    let mut go = begun(5, 2, 5);
    go[76] = 1;
    let said = read(alloc, &go, 77)?;
    assert!(rt; said.header.sender == 2);
    assert!(rt; matches!(&said.body, Body::Go { yes: true }));
    let written = encode(alloc, THREE, &said)?;
    assert!(rt; is_front(&written, &go, 77));
    let mut pads = begun(7, 1, 8);
    pads[79] = 1;
    pads[80] = 7;
    let said = read(alloc, &pads, 89)?;
    match &said.body {
        Body::Pads { pads } => {
            assert!(rt; pads.items().len() == 3);
            assert!(rt; pads.items()[0].items().as_slice() == [7].as_slice());
        }
        _ => assert!(rt; false),
    }
    Ok(())
}

// The shapes of version 1, and the least and greatest numbers outside.
#[test]
fn shapes_are_of_version_1(rt: HostRuntime) {
    let want = [
        (1, 1, false),
        (1, 2, true),
        (1, 8, true),
        (1, 9, false),
        (0, 2, false),
        (2, 8, false),
    ];
    for (version, members, given) in want {
        let shape = Shape::new(version, members);
        assert!(rt;
            shape.is_some() == given,
            "version {version}, {members} members"
        );
    }
    assert!(rt; Shape::new(1, 3) == Some(THREE));
}

// The last slot of three members, and the lengths of keys, submissions and votes of eight.
#[test]
fn slots_and_lengths(rt: HostRuntime) {
    assert!(rt; slots_before(THREE, 15) == 33);
    let last = Slot {
        stage: 15,
        sender: 3,
    };
    assert!(rt; is_slot(THREE, last));
    assert!(rt; slot_number(THREE, last) == 35);
    assert!(rt; length_rule(EIGHT, StageKind::Keys) == 9120);
    assert!(rt; length_rule(EIGHT, StageKind::Submit { shuffle: 1 }) == 54_564);
    assert!(rt; length_rule(EIGHT, StageKind::Submit { shuffle: 2 }) == 36_386);
    assert!(rt; length_rule(EIGHT, StageKind::Go { shuffle: 1 }) == 1);
    assert!(rt; length_rule(EIGHT, StageKind::Pad) == 0);
}

// A content of so many bytes, all 0 but for the version, the stage, the sender and the kind.
fn plain(
    alloc: Global,
    stage: u8,
    sender: u8,
    kind: u8,
    length: usize,
) -> Result<Vec<u8>, AllocError> {
    let mut bytes = Vec::new(alloc);
    put_u8(&mut bytes, 1)?;
    put_bytes(&mut bytes, &[0; 40])?;
    put_u8(&mut bytes, stage)?;
    put_u8(&mut bytes, sender)?;
    put_bytes(&mut bytes, &[0; 32])?;
    put_u8(&mut bytes, kind)?;
    bytes.resize(length, 0)?;
    Ok(bytes)
}

// Whether bytes are read as a content of two members, and written as they were.
fn is_read_and_written(alloc: Global, bytes: &[u8]) -> Result<bool, AllocError> {
    if bytes.len() > 100_000 {
        return Ok(false);
    }
    match decode(alloc, TWO, bytes) {
        Ok(content) => Ok(encode(alloc, TWO, &content)?.as_slice() == bytes),
        Err(_) => Ok(false),
    }
}

// Each kind of each stage of two members with the number of its bytes: the keys and the entries have all theirs,
// posts and pads none. A byte more or less is refused.
#[test]
fn contents_of_each_stage(rt: HostRuntime) -> Result<(), Fail> {
    let alloc = rt.alloc();
    let kinds = [
        (0, 1, 1, 9196),
        (1, 2, 2, 13_744),
        (2, 1, 3, 22_868),
        (2, 1, 4, 76),
        (3, 2, 3, 18_324),
        (4, 2, 5, 77),
        (5, 1, 6, 116),
        (5, 2, 7, 172),
        (6, 1, 8, 84),
        (7, 2, 9, 77),
        (8, 1, 10, 84),
        (8, 2, 11, 132),
        (9, 1, 2, 9198),
        (10, 1, 3, 13_776),
        (11, 2, 3, 9232),
        (11, 2, 4, 76),
        (12, 1, 5, 77),
        (13, 1, 6, 116),
        (13, 2, 7, 228),
    ];
    for (stage, sender, kind, length) in kinds {
        let bytes = plain(alloc, stage, sender, kind, length)?;
        let more = plain(alloc, stage, sender, kind, length.saturating_add(1))?;
        let less = plain(alloc, stage, sender, kind, length.saturating_sub(1))?;
        assert!(rt;
            is_read_and_written(alloc, &bytes)?,
            "stage {stage} kind {kind}"
        );
        assert!(rt;
            !is_read_and_written(alloc, &more)?,
            "stage {stage} kind {kind}"
        );
        assert!(rt;
            !is_read_and_written(alloc, &less)?,
            "stage {stage} kind {kind}"
        );
    }
    Ok(())
}
