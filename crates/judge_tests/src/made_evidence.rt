//! Evidence of the claims that look at bodies, made from keys: contents of the grammar, most of whose bytes are 0.

use group_roster::{Roster, decode};
use judge_core::{Accepted, judge};
use lms_tree::{LmsSecret, MadeHeight, OtsType};
use ring_encrypt::public_of;
use std::alloc::{AllocError, Global};
use std::process::Abort;
use std::test::Fail;
use transcript_form::{Claim, Refused};
use wire_core::{Mem, Register, Tag, put_bytes, put_u8, put_u32, put_u64};

// A seed that is revealed, and a view that is none.
const SEED: [u8; 32] = [7; 32];

const WRONG: [u8; 32] = [9; 32];

// A group whose members make evidence in round 1.
#[derive(Drop)]
pub(crate) struct Group {
    id: [u8; 32],
    secrets: Vec<LmsSecret>,
}

// Who says something, in which stage, under which view.
#[derive(Clone, Copy)]
pub(crate) struct Place {
    pub(crate) stage: u8,
    pub(crate) sender: u8,
    pub(crate) view: [u8; 32],
}

// A content that was said in a stage, and its post.
#[derive(Drop)]
pub(crate) struct Made {
    stage: u8,
    content: Vec<u8>,
    pub(crate) post: Vec<u8>,
}

// Appends bytes behind their length.
pub(crate) fn put_sized(out: &mut Vec<u8>, bytes: &[u8]) -> Mem<()> {
    let Ok(size) = u32::try_from(bytes.len()) else {
        return Err(AllocError);
    };
    put_u32(out, size)?;
    put_bytes(out, bytes)
}

// The number of a kind, and so many bytes 0.
pub(crate) fn zeros(alloc: Global, kind: u8, size: usize) -> Mem<Vec<u8>> {
    let mut body = Vec::new(alloc);
    put_u8(&mut body, kind)?;
    for _ in 0..size {
        put_u8(&mut body, 0)?;
    }
    Ok(body)
}

impl Group {
    // The group of so many members, and its roster.
    pub(crate) fn of(rt: &impl Abort, alloc: Global, members: u8) -> Result<(Group, Roster), Fail> {
        let mut bytes = Vec::new(alloc);
        let mut secrets = Vec::new(alloc);
        put_bytes(&mut bytes, b"DSRO\x01")?;
        put_u8(&mut bytes, members)?;
        for member in 0..members {
            let secret = LmsSecret::make(alloc, MadeHeight::H5, OtsType::W1, &[member; 32], 0)?;
            put_bytes(&mut bytes, &secret.public().bytes())?;
            secrets.push(secret)?;
        }
        assert!(rt; bytes.len() < 4096);
        let mut register = Register::new(Tag::Roster);
        register.piece(&bytes);
        let id = register.end();
        match decode(alloc, &bytes) {
            Ok(roster) => Ok((Group { id, secrets }, roster)),
            Err(_) => Err(Fail::from("no roster")),
        }
    }

    // The signature of a member with its next leaf.
    fn signature(&mut self, alloc: Global, sender: u8, content: &[u8]) -> Mem<Vec<u8>> {
        let place = usize::from(sender).saturating_sub(1);
        let Some(secret) = self.secrets.get_mut(place) else {
            return Err(AllocError);
        };
        let Ok(mut run) = secret.reserve(alloc, 1) else {
            return Err(AllocError);
        };
        let signature = run.sign(alloc, content);
        run.retire();
        signature
    }

    // What is said there, by the number of its kind and its body.
    pub(crate) fn make(&mut self, alloc: Global, at: Place, body: &[u8]) -> Mem<Made> {
        let mut content = Vec::new(alloc);
        put_u8(&mut content, 1)?;
        put_bytes(&mut content, &self.id)?;
        put_u64(&mut content, 1)?;
        put_bytes(&mut content, &[at.stage, at.sender])?;
        put_bytes(&mut content, &at.view)?;
        put_bytes(&mut content, body)?;
        let signature = self.signature(alloc, at.sender, &content)?;
        let mut post = Vec::new(alloc);
        put_sized(&mut post, &content)?;
        put_bytes(&mut post, &signature)?;
        Ok(Made {
            stage: at.stage,
            content,
            post,
        })
    }

    // What all of them say before the last vote of shuffle A, by members, all under a wrong view.
    fn past(&mut self, alloc: Global, members: &[u8], entry: usize) -> Mem<Vec<Made>> {
        let keys = zeros(alloc, 1, 9120)?;
        let entry = zeros(alloc, 2, entry)?;
        let mut all = Vec::new(alloc);
        for (stage, body) in [(0, &keys), (1, &entry)] {
            for sender in members {
                let at = Place {
                    stage,
                    sender: *sender,
                    view: WRONG,
                };
                all.push(self.make(alloc, at, body)?)?;
            }
        }
        for sender in members {
            let at = Place {
                stage: (*sender).saturating_add(1),
                sender: *sender,
                view: WRONG,
            };
            all.push(self.make(alloc, at, &[4])?)?;
        }
        Ok(all)
    }

    // The Dispute that embeds these.
    fn dispute(&mut self, alloc: Global, at: Place, all: &[Made]) -> Mem<Vec<u8>> {
        let mut body = Vec::new(alloc);
        put_u8(&mut body, 7)?;
        for one in all {
            put_sized(&mut body, &one.post)?;
        }
        put_bytes(&mut body, &[0; 64])?;
        Ok(self.make(alloc, at, &body)?.post)
    }
}

// The view behind what was said in the stages before one.
pub(crate) fn view_behind(all: &[Made], stages: u8) -> [u8; 32] {
    let mut view = Register::new(Tag::View).end();
    for stage in 0..stages {
        let mut register = Register::new(Tag::View);
        register.piece(&view);
        for one in all {
            if one.stage == stage && one.content.len() < 65536 {
                register.piece(&one.content);
            }
        }
        view = register.end();
    }
    view
}

// The transcript of a claim against a member is judged so.
fn judged(
    rt: &impl Abort,
    alloc: Global,
    roster: &Roster,
    head: [u8; 2],
    posts: &[&[u8]],
    want: Result<Accepted, Refused>,
) -> Result<(), AllocError> {
    let mut bytes = Vec::new(alloc);
    put_bytes(&mut bytes, b"DSTR\x01")?;
    put_bytes(&mut bytes, &head)?;
    put_u64(&mut bytes, 1)?;
    let Ok(count) = u32::try_from(posts.len()) else {
        return Err(AllocError);
    };
    put_u32(&mut bytes, count)?;
    for post in posts {
        put_sized(&mut bytes, post)?;
    }
    assert!(rt; bytes.len() < 1 << 24);
    assert_eq!(rt; judge(alloc, roster, &bytes), want);
    Ok(())
}

pub(crate) fn accepted(claim: Claim) -> Result<Accepted, Refused> {
    Ok(Accepted { accused: 1, claim })
}

pub(crate) fn failed(check: u32, post: u32, at: u32) -> Result<Accepted, Refused> {
    Err(Refused::Check { check, post, at })
}

// A place under a wrong view.
pub(crate) fn misviewed(stage: u8, sender: u8) -> Place {
    Place {
        stage,
        sender,
        view: WRONG,
    }
}

// Keys in which the first is that of a seed.
fn right_keys(alloc: Global, seed: &[u8; 32]) -> Mem<Vec<u8>> {
    let mut keys = zeros(alloc, 1, 0)?;
    put_bytes(&mut keys, public_of(seed).bytes())?;
    put_bytes(&mut keys, &zeros(alloc, 0, 7295)?)?;
    Ok(keys)
}

// A revealed seed convicts where it is not that of the inner key, and a Reveal where no votes bear it out.
fn reveals_are_judged(rt: &impl Abort, alloc: Global) -> Result<(), Fail> {
    let (mut group, roster) = Group::of(rt, alloc, 2)?;
    let mut bare = zeros(alloc, 6, 8)?;
    put_bytes(&mut bare, &SEED)?;
    let mut full = Vec::new(alloc);
    put_u8(&mut full, 6)?;
    for sender in [1, 2] {
        put_sized(
            &mut full,
            &group.make(alloc, misviewed(4, sender), &[5, 1])?.post,
        )?;
    }
    put_bytes(&mut full, &SEED)?;
    let bare = group.make(alloc, misviewed(5, 1), &bare)?.post;
    let full = group.make(alloc, misviewed(5, 1), &full)?.post;
    let other = group
        .make(alloc, misviewed(0, 1), &zeros(alloc, 1, 9120)?)?
        .post;
    let right = group
        .make(alloc, misviewed(0, 1), &right_keys(alloc, &SEED)?)?
        .post;
    let (bare, full) = (bare.as_slice(), full.as_slice());
    let (other, right) = (other.as_slice(), right.as_slice());
    let wrong_seed = accepted(Claim::WrongSeed);
    judged(rt, alloc, &roster, [3, 1], &[other, bare], wrong_seed)?;
    judged(rt, alloc, &roster, [3, 1], &[right, bare], failed(10, 2, 0))?;
    judged(rt, alloc, &roster, [4, 1], &[bare], accepted(Claim::BadLog))?;
    judged(rt, alloc, &roster, [4, 1], &[full], failed(11, 1, 0))?;
    Ok(())
}

// The Disputes of two members, whose replay blames the first for its view: the second embeds the same log, or is under
// a wrong view, or embeds another log.
fn disputes_are_judged(rt: &impl Abort, alloc: Global) -> Result<(), Fail> {
    let (mut group, roster) = Group::of(rt, alloc, 2)?;
    let mut all = group.past(alloc, &[1, 2], 13668)?;
    all.push(group.make(alloc, misviewed(4, 1), &[5, 1])?)?;
    all.push(group.make(alloc, misviewed(4, 2), &[5, 0])?)?;
    let view = view_behind(all.as_slice(), 5);
    let at = Place {
        view,
        ..misviewed(5, 1)
    };
    let first = group.dispute(alloc, at, all.as_slice())?;
    let at = Place {
        view,
        ..misviewed(5, 2)
    };
    let same = group.dispute(alloc, at, all.as_slice())?;
    let wrong = group.dispute(alloc, misviewed(5, 2), all.as_slice())?;
    all.pop();
    all.push(group.make(
        alloc,
        Place {
            view,
            ..misviewed(4, 2)
        },
        &[5, 0],
    )?)?;
    let at = Place {
        view: view_behind(all.as_slice(), 5),
        ..misviewed(5, 2)
    };
    let other = group.dispute(alloc, at, all.as_slice())?;
    let (first, same) = (first.as_slice(), same.as_slice());
    judged(
        rt,
        alloc,
        &roster,
        [5, 1],
        &[first, same],
        accepted(Claim::Replay),
    )?;
    judged(rt, alloc, &roster, [5, 2], &[first, same], failed(14, 0, 1))?;
    judged(
        rt,
        alloc,
        &roster,
        [5, 1],
        &[first, wrong.as_slice()],
        failed(12, 2, 0),
    )?;
    judged(
        rt,
        alloc,
        &roster,
        [5, 1],
        &[first, other.as_slice()],
        failed(13, 2, 7),
    )?;
    Ok(())
}

// A third post that is not justified fails before a second one that embeds another log.
fn all_are_justified_first(rt: &impl Abort, alloc: Global) -> Result<(), Fail> {
    let (mut group, roster) = Group::of(rt, alloc, 3)?;
    let mut all = group.past(alloc, &[1, 2, 3], 20484)?;
    for sender in [1, 2, 3] {
        all.push(group.make(alloc, misviewed(5, sender), &[5, 0])?)?;
    }
    let view = view_behind(all.as_slice(), 6);
    let first = group.dispute(
        alloc,
        Place {
            view,
            ..misviewed(6, 1)
        },
        all.as_slice(),
    )?;
    let third = group.dispute(alloc, misviewed(6, 3), all.as_slice())?;
    all.pop();
    all.push(group.make(
        alloc,
        Place {
            view,
            ..misviewed(5, 3)
        },
        &[5, 0],
    )?)?;
    let at = Place {
        view: view_behind(all.as_slice(), 6),
        ..misviewed(6, 2)
    };
    let second = group.dispute(alloc, at, all.as_slice())?;
    let posts = [first.as_slice(), second.as_slice(), third.as_slice()];
    judged(rt, alloc, &roster, [5, 1], &posts, failed(12, 3, 0))?;
    Ok(())
}

#[test]
fn bodies_are_judged(rt: HostRuntime) -> Result<(), Fail> {
    let alloc = rt.alloc();
    reveals_are_judged(&rt, alloc)?;
    disputes_are_judged(&rt, alloc)?;
    all_are_justified_first(&rt, alloc)?;
    Ok(())
}
