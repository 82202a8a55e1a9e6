//! Evidence of a bad pad: the log of two members before the pads, made from keys, whose list opens to one descriptor.

ghost use Rattle.std.specs.Prelude.{◌≡◌, vec_len, IfOk};

use crate::made_evidence::{
    Group, Made, Place, accepted, failed, misviewed, put_sized, view_behind, zeros,
};
use bulk_descriptor::make;
use group_roster::Roster;
use judge_core::{Accepted, judge};
use ring_encrypt::{PublicKey, public_of};
use shuffle_core::submission;
use std::alloc::{AllocError, Global};
use std::process::Abort;
use std::test::Fail;
use transcript_form::{Accusation, Claim, Refused};
use wire_core::{List, Mem, put_bytes, put_u8, put_u32, put_u64};

// The seeds of the inner keys, of the bulk keys and of the pads, by member.
const INNER: [[u8; 32]; 2] = [[11; 32], [12; 32]];

const BULK: [[u8; 32]; 2] = [[21; 32], [22; 32]];

const PADS: [[u8; 32]; 2] = [[31; 32], [32; 32]];

// What the last turn of shuffle A and the second member at its end say in a log.
#[derive(Clone, Copy)]
struct Ends {
    turns: bool,
    reveals: bool,
}

fn keys_of(alloc: Global, seeds: &[[u8; 32]; 2]) -> Mem<Vec<PublicKey>>
    ensures { IfOk result (λ keys. vec_len keys ≡ 2) }
{
    let keys = vec![in alloc; public_of(&seeds[0]), public_of(&seeds[1])]?;
    Ok(keys)
}

// The descriptor of the message 61 that member 2 makes, under the inner layers of both.
fn entry(alloc: Global) -> Mem<List<u8>> {
    let pads = PADS.to_vec(alloc)?;
    if pads.len() != 2 {
        return Err(AllocError);
    }
    let bulk = keys_of(alloc, &BULK)?;
    let text = make(alloc, &bulk, &pads, 2, b"a")?
        .descriptor
        .encode(alloc)?;
    if text.len() > 65536 {
        return Err(AllocError);
    }
    let inner = keys_of(alloc, &INNER)?;
    let submitted = submission(alloc, &inner, &inner, &pads, &pads, &text)?;
    Ok(submitted.inner_ciphertext)
}

// Five keys, of which the third is the bulk key of a seed.
fn keys_body(alloc: Global, seed: &[u8; 32]) -> Mem<Vec<u8>> {
    let mut body = zeros(alloc, 1, 2 * 1824)?;
    put_bytes(&mut body, public_of(seed).bytes())?;
    for _ in 0..2 * 1824 {
        put_u8(&mut body, 0)?;
    }
    Ok(body)
}

// The last list: the entry, and one that does not open; or Abort.
fn turn_body(alloc: Global, turns: bool) -> Mem<Vec<u8>> {
    let mut body = Vec::new(alloc);
    if turns {
        put_u8(&mut body, 3)?;
        put_bytes(&mut body, entry(alloc)?.items())?;
        for _ in 0..9124 {
            put_u8(&mut body, 0)?;
        }
    } else {
        put_u8(&mut body, 4)?;
    }
    Ok(body)
}

// A Reveal of a seed, or a Dispute.
fn final_body(alloc: Global, reveals: bool, seed: &[u8; 32]) -> Mem<Vec<u8>> {
    if !reveals {
        return zeros(alloc, 7, 96);
    }
    let mut body = zeros(alloc, 6, 8)?;
    put_bytes(&mut body, seed)?;
    Ok(body)
}

// What both say before the pads.
fn log(alloc: Global, group: &mut Group, ends: Ends) -> Mem<Vec<Made>> {
    let submitted = zeros(alloc, 2, 13668)?;
    let mut all = Vec::new(alloc);
    for (stage, sender, body) in [
        (0, 1, keys_body(alloc, &BULK[0])?),
        (0, 2, keys_body(alloc, &BULK[1])?),
        (1, 1, submitted.clone()?),
        (1, 2, submitted),
        (2, 1, turn_body(alloc, false)?),
        (3, 2, turn_body(alloc, ends.turns)?),
        (4, 1, [5, 1].to_vec(alloc)?),
        (4, 2, [5, 1].to_vec(alloc)?),
        (5, 1, final_body(alloc, true, &INNER[0])?),
        (5, 2, final_body(alloc, ends.reveals, &INNER[1])?),
    ] {
        all.push(group.make(alloc, misviewed(stage, sender), &body)?)?;
    }
    Ok(all)
}

// The transcript that accuses member 1 of a bad pad by an accusation and these posts is judged so.
fn judged(
    rt: &impl Abort,
    alloc: Global,
    roster: &Roster,
    detail: Accusation,
    log: &[Made],
    pads: &Made,
    want: Result<Accepted, Refused>,
) -> Result<(), AllocError> {
    let mut bytes = Vec::new(alloc);
    put_bytes(&mut bytes, b"DSTR\x01\x06\x01")?;
    put_u64(&mut bytes, 1)?;
    put_bytes(&mut bytes, &detail.encode())?;
    put_u32(&mut bytes, 11)?;
    for one in log {
        put_sized(&mut bytes, &one.post)?;
    }
    put_sized(&mut bytes, &pads.post)?;
    assert!(rt; bytes.len() < 1 << 24);
    assert_eq!(rt; judge(alloc, roster, &bytes), want);
    Ok(())
}

// Pads of no bytes, which are not those that the descriptor asks for, under the view of a log.
fn pads_behind(alloc: Global, group: &mut Group, log: &[Made]) -> Mem<Made> {
    let at = Place {
        view: view_behind(log, 6),
        ..misviewed(6, 1)
    };
    group.make(alloc, at, &zeros(alloc, 8, 8)?)
}

// An empty pad convicts where the log opens to the descriptor that asks for another; not under a wrong view, nor by
// another member, a slot without a descriptor or another seed.
fn pads_are_judged(rt: &impl Abort, alloc: Global) -> Result<(), Fail> {
    let (mut group, roster) = Group::of(rt, alloc, 2)?;
    let ends = Ends {
        turns: true,
        reveals: true,
    };
    let all = log(alloc, &mut group, ends)?;
    let pads = pads_behind(alloc, &mut group, all.as_slice())?;
    let wrong = group.make(alloc, misviewed(6, 1), &zeros(alloc, 8, 8)?)?;
    let own = Accusation {
        slot: 1,
        member: 1,
        seed: PADS[0],
    };
    for (detail, pads, want) in [
        (own, &pads, accepted(Claim::Pad)),
        (own, &wrong, failed(15, 11, 0)),
        (Accusation { member: 2, ..own }, &pads, failed(17, 0, 0)),
        (Accusation { slot: 2, ..own }, &pads, failed(17, 0, 1)),
        (
            Accusation {
                seed: PADS[1],
                ..own
            },
            &pads,
            failed(17, 0, 3),
        ),
    ] {
        judged(rt, alloc, &roster, detail, all.as_slice(), pads, want)?;
    }
    Ok(())
}

// A log that does not open convicts nobody: somebody disputes at the end, or the last turn says Abort.
fn logs_are_opened(rt: &impl Abort, alloc: Global) -> Result<(), Fail> {
    let (mut group, roster) = Group::of(rt, alloc, 2)?;
    let own = Accusation {
        slot: 1,
        member: 1,
        seed: PADS[0],
    };
    for (turns, reveals, stage) in [(true, false, 5), (false, true, 3), (false, false, 5)] {
        let all = log(alloc, &mut group, Ends { turns, reveals })?;
        let pads = pads_behind(alloc, &mut group, all.as_slice())?;
        judged(
            rt,
            alloc,
            &roster,
            own,
            all.as_slice(),
            &pads,
            failed(16, 0, stage),
        )?;
    }
    Ok(())
}

#[test]
fn pads_of_a_log_are_judged(rt: HostRuntime) -> Result<(), Fail> {
    let alloc = rt.alloc();
    pads_are_judged(&rt, alloc)?;
    logs_are_opened(&rt, alloc)?;
    Ok(())
}
