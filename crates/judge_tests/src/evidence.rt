//! Evidence: two votes of member 3 in one slot, made from keys, with the transcript that lists them; and the evidence that is stored.

ghost use Rattle.std.specs.Prelude.{◌≡◌, ◌<◌, IfOk, length};

use crate::stored_evidence::{roster_digits, transcript_digits};
use group_roster::{Roster, decode};
use judge_core::{Accepted, judge};
use lms_tree::{LmsSecret, MadeHeight, OtsType};
use phase_message::Body;
use signed_post::{check, check_header, read};
use std::alloc::{AllocError, Global};
use std::process::Abort;
use std::test::Fail;
use transcript_form::{Claim, Refused};
use wire_core::{Mem, Register, Tag, put_bytes, put_u8, put_u32, put_u64};

// The key of H5 and W4 that is made from a member's number, with this leaf as the next.
fn secret_of(alloc: Global, member: u8, leaf: u32) -> Mem<LmsSecret>
    requires { leaf < 32 }
{
    LmsSecret::make(alloc, MadeHeight::H5, OtsType::W4, &[member; 32], leaf)
}

fn signature_of(alloc: Global, signer: u8, leaf: u32, content: &[u8]) -> Mem<Vec<u8>>
    requires { leaf < 32 }
{
    let Ok(mut run) = secret_of(alloc, signer, leaf)?.reserve(alloc, 1) else {
        return Err(AllocError);
    };
    let signature = run.sign(alloc, content);
    run.retire();
    signature
}

// A roster of four members.
fn roster_of_four(alloc: Global) -> Mem<Vec<u8>> {
    let mut bytes = Vec::new(alloc);
    put_bytes(&mut bytes, b"DSRO\x01\x04")?;
    for member in 1..5 {
        put_bytes(&mut bytes, &secret_of(alloc, member, 0)?.public().bytes())?;
    }
    Ok(bytes)
}

// A vote of 77 bytes: what its header says, and the flag.
#[derive(Clone, Copy)]
struct Vote {
    version: u8,
    group: [u8; 32],
    round: u64,
    stage: u8,
    sender: u8,
    yes: u8,
}

impl Vote {
    fn content(&self, alloc: Global) -> Mem<Vec<u8>> {
        let mut content = Vec::new(alloc);
        put_u8(&mut content, self.version)?;
        put_bytes(&mut content, &self.group)?;
        put_u64(&mut content, self.round)?;
        put_bytes(&mut content, &[self.stage, self.sender])?;
        put_bytes(&mut content, &[9; 32])?;
        put_bytes(&mut content, &[5, self.yes])?;
        Ok(content)
    }

    // The post of 2,429 bytes that a member signs with a leaf of its key.
    fn post(&self, alloc: Global, signer: u8, leaf: u32) -> Mem<Vec<u8>>
        requires { leaf < 32 }
    {
        let content = self.content(alloc)?;
        let signature = signature_of(alloc, signer, leaf, &content)?;
        let mut post = Vec::new(alloc);
        put_u32(&mut post, 77)?;
        put_bytes(&mut post, &content)?;
        put_bytes(&mut post, &signature)?;
        Ok(post)
    }
}

// The vote of member 3 in stage 6 of round 1.
fn first_vote(group: &[u8; 32]) -> Vote {
    Vote {
        version: 1,
        group: *group,
        round: 1,
        stage: 6,
        sender: 3,
        yes: 1,
    }
}

// The transcript that accuses member 3 of these two posts of 2,429 bytes.
fn transcript_of(alloc: Global, first: &[u8], second: &[u8]) -> Mem<Vec<u8>> {
    let mut bytes = Vec::new(alloc);
    put_bytes(&mut bytes, b"DSTR\x01\x01\x03")?;
    put_u64(&mut bytes, 1)?;
    put_u32(&mut bytes, 2)?;
    for post in [first, second] {
        put_u32(&mut bytes, 2429)?;
        put_bytes(&mut bytes, post)?;
    }
    Ok(bytes)
}

// The checks 1 and 2 refuse each cut of the transcript, at its number of bytes.
fn no_cut_convicts(rt: &impl Abort, alloc: Global, roster: &Roster, bytes: &[u8])
    requires size { length bytes.now ≡ 4885 }
{
    for size in 0..4885u32 {
        let refused = Refused::Check {
            check: if size < 5 { 1 } else { 2 },
            post: 0,
            at: size,
        };
        assert_eq!(rt; judge(alloc, roster, &bytes[..size as usize]), Err(refused));
    }
}

// The judge refuses the transcript of these two posts by this check, at this post and place.
fn refused(
    rt: &impl Abort,
    alloc: Global,
    roster: &Roster,
    posts: (&[u8], &[u8]),
    failure: (u32, u32, u32),
) -> Result<(), AllocError> {
    let (check, post, at) = failure;
    let bytes = transcript_of(alloc, posts.0, posts.1)?;
    assert_eq!(rt; bytes.len(), 4885);
    assert_eq!(rt;
        judge(alloc, roster, &bytes),
        Err(Refused::Check { check, post, at })
    );
    Ok(())
}

// Two votes convict, and one vote signed twice does not.
fn votes_are_judged(
    rt: &impl Abort,
    alloc: Global,
    roster: &Roster,
    group: &[u8; 32],
) -> Result<(), AllocError> {
    let first = first_vote(group);
    let second = Vote { yes: 0, ..first };
    let yes = first.post(alloc, 3, 0)?;
    let no = second.post(alloc, 3, 1)?;
    let bytes = transcript_of(alloc, &yes, &no)?;
    assert_eq!(rt; bytes.len(), 4885);
    let accepted = Accepted {
        accused: 3,
        claim: Claim::Equivocation,
    };
    assert_eq!(rt; judge(alloc, roster, &bytes), Ok(accepted));
    let again = first.post(alloc, 3, 2)?;
    refused(rt, alloc, roster, (&yes, &again), (8, 2, 0))
}

// The transcript that accuses member 3 of this malformed post of 2,429 bytes.
fn accusation_of(alloc: Global, post: &[u8]) -> Mem<Vec<u8>> {
    let mut bytes = Vec::new(alloc);
    put_bytes(&mut bytes, b"DSTR\x01\x02\x03")?;
    put_u64(&mut bytes, 1)?;
    put_u32(&mut bytes, 1)?;
    put_u32(&mut bytes, 2429)?;
    put_bytes(&mut bytes, post)?;
    Ok(bytes)
}

// A vote whose flag is 2 is malformed, and one whose flag is 0 or 1 is not.
fn malformed_votes_are_judged(
    rt: &impl Abort,
    alloc: Global,
    roster: &Roster,
    group: &[u8; 32],
) -> Result<(), AllocError> {
    let right = first_vote(group);
    let wrong = Vote { yes: 2, ..right };
    let other = Vote { sender: 1, ..wrong };
    let accepted = Accepted {
        accused: 3,
        claim: Claim::Malformed,
    };
    for (vote, judgement) in [
        (wrong, Ok(accepted)),
        (right, Err((9, 0))),
        (other, Err((5, 6))),
    ] {
        let post = vote.post(alloc, vote.sender, 0)?;
        let bytes = accusation_of(alloc, &post)?;
        assert_eq!(rt; bytes.len(), 2452);
        let want = judgement.map_err(|(check, at)| Refused::Check { check, post: 1, at });
        assert_eq!(rt; judge(alloc, roster, &bytes), want);
    }
    Ok(())
}

// The vote of member 3 is read, and passes the checks with what it says.
fn a_vote_is_taken(
    rt: &impl Abort,
    alloc: Global,
    roster: &Roster,
    group: &[u8; 32],
) -> Result<(), AllocError> {
    let yes = first_vote(group);
    let content = yes.content(alloc)?;
    match read(alloc, &yes.post(alloc, 3, 0)?) {
        Ok(post) => {
            assert!(rt; post.content.items() == &content);
            let header = check_header(roster, 1, &post);
            assert!(rt; matches!(&header, Ok(h) if h.stage == 6 && h.sender == 3));
            let said = check(alloc, roster, 1, &post);
            assert!(rt; matches!(&said, Ok(said) if matches!(&said.body, Body::Go { yes: true })));
        }
        Err(_) => assert!(rt; false, "no post"),
    }
    Ok(())
}

// Each check of a post that its bytes can fail, in the first place and in the second.
fn posts_are_refused(
    rt: &impl Abort,
    alloc: Global,
    roster: &Roster,
    group: &[u8; 32],
) -> Result<(), AllocError> {
    let right = first_vote(group);
    let yes = right.post(alloc, 3, 0)?;
    let cases = [
        (
            Vote {
                version: 2,
                ..right
            },
            3,
            (4, 1, 2),
        ),
        (
            Vote {
                group: [0; 32],
                ..right
            },
            3,
            (4, 1, 3),
        ),
        (Vote { round: 2, ..right }, 3, (4, 1, 4)),
        (Vote { sender: 0, ..right }, 3, (4, 1, 5)),
        (Vote { stage: 18, ..right }, 3, (4, 1, 6)),
        (right, 4, (4, 1, 7)),
        (Vote { sender: 1, ..right }, 1, (5, 1, 6)),
    ];
    for (wrong, signer, want) in cases {
        let post = wrong.post(alloc, signer, 1)?;
        refused(rt, alloc, roster, (&post, &yes), want)?;
    }
    let later = Vote { stage: 7, ..right }.post(alloc, 3, 1)?;
    refused(rt, alloc, roster, (&yes, &later), (5, 2, 7))?;
    let unframed = vec![in alloc; 0u8; 2429]?;
    refused(rt, alloc, roster, (&unframed, &yes), (4, 1, 1))?;
    refused(rt, alloc, roster, (&yes, &unframed), (4, 2, 1))
}

// The roster of four members that is read from its bytes, and its group.
fn group_of_four(rt: &impl Abort, alloc: Global) -> Result<(Roster, [u8; 32]), Fail> {
    let bytes = roster_of_four(alloc)?;
    assert_eq!(rt; bytes.len(), 230);
    let mut register = Register::new(Tag::Roster);
    register.piece(&bytes);
    match decode(alloc, &bytes) {
        Ok(roster) => Ok((roster, register.end())),
        Err(_) => Err(Fail::from("no roster")),
    }
}

#[test]
fn votes_convict(rt: HostRuntime) -> Result<(), Fail> {
    let alloc = rt.alloc();
    let (roster, group) = group_of_four(&rt, alloc)?;
    votes_are_judged(&rt, alloc, &roster, &group)?;
    a_vote_is_taken(&rt, alloc, &roster, &group)?;
    malformed_votes_are_judged(&rt, alloc, &roster, &group)?;
    Ok(())
}

#[test]
fn wrong_posts_convict_nobody(rt: HostRuntime) -> Result<(), Fail> {
    let alloc = rt.alloc();
    let (roster, group) = group_of_four(&rt, alloc)?;
    posts_are_refused(&rt, alloc, &roster, &group)?;
    Ok(())
}

// The stored evidence convicts, and no cut of it does.
#[test]
fn stored_evidence_convicts_whole(rt: HostRuntime) -> Result<(), Fail> {
    let alloc = rt.alloc();
    let Ok(roster) = hex::decode(alloc, roster_digits()) else {
        return Err(Fail::from("no roster"));
    };
    let Ok(transcript) = hex::decode(alloc, transcript_digits()) else {
        return Err(Fail::from("no transcript"));
    };
    assert_eq!(rt; transcript.len(), 4885);
    let accepted = Accepted {
        accused: 3,
        claim: Claim::Equivocation,
    };
    match decode(alloc, &roster) {
        Ok(roster) => {
            assert_eq!(rt; judge(alloc, &roster, &transcript), Ok(accepted));
            no_cut_convicts(&rt, alloc, &roster, &transcript);
        }
        Err(_) => assert!(rt; false, "no roster"),
    }
    Ok(())
}
