//! The rule of submissions.

ghost use Rattle.std.specs.Prelude.{◌≡◌, ◌<◌, ◌≤◌, ◌-◌, ◌+◌, ◌^◌, [], All, Some, IsSome, IfOk, IfSome, length, unwrap_or};
ghost use Rattle.std.specs.Option.{option_map};
ghost use Rattle.wire_core.specs.Hash.{layer_seed};
ghost use Rattle.layer_cipher.specs.Layer.{peeled};
ghost use Rattle.phase_message.specs.declared.stage.StageKind.TheVariants.{Final};
ghost use Rattle.phase_message.specs.Stages.{kind_of_stage};
ghost use Rattle.stage_log.specs.Log.{before};
ghost use Rattle.shuffle_blame.specs.declared.fault.Cause.TheVariants.{Submission};
ghost use Rattle.shuffle_blame.specs.Rules.{IsEnd, body_under, inquiry_at};
ghost use Rattle.shuffle_blame.specs.Replay.{fault, layer_fault, submission, submission_fault, submissions};

use crate::ended::Ended;
use crate::fault::{Cause, Fault};
use crate::parts::Part;
use crate::said::ciphertext;
use layer_cipher::{Peeled, peel_with};
use phase_message::{Shape, Slot};
use ring_encrypt::KeySeed;
use stage_log::StageLog;
use std::alloc::Global;
use wire_core::{List, Mem, Register, Tag};

// The side of the outer layers.
const OUTER: u8 = 2;

// The stage of a shuffle's submissions: before its closing stage stand the votes and a turn of each member.
pub(crate) fn submit_stage(shape: Shape, stage: u8) -> u8
    ensures { result ≡ stage - (shape.members + 2) }
{
    stage.saturating_sub(shape.members + 2)
}

// All submissions, by member.
pub(crate) fn submissions(alloc: Global, log: &StageLog, ended: Ended) -> Mem<Vec<List<u8>>>
    requires ends { kind_of_stage log.now.shape ended.stage ≡ Some (Final ended.shuffle) }
    requires complete { IsSome (before log.now ended.stage) }
    ensures value { IfOk result (λ list. list.items ≡ submissions (inquiry_at log.now ended [])) }
    ensures short { IfOk result (λ list. All (λ entry. length entry < 2 ^ 32) list.items) }
{
    let shape = log.shape();
    let stage = submit_stage(shape, ended.stage);
    let mut list = Vec::with_capacity(alloc, usize::from(shape.members))?;
    for sender in 1..shape.members + 1 {
        let bytes = ciphertext(alloc, log, Slot { stage, sender })?;
        list.push(bytes)?;
    }
    Ok(list)
}

// The least member with a layer of its submission that does not open by the shown outer seeds or does not carry the
// seed that its opening gives.
pub(crate) fn submission_fault(
    alloc: Global,
    log: &StageLog,
    ended: Ended,
    parts: &[Part],
    said: &[List<u8>],
) -> Mem<Option<Fault>>
    requires is_end { IsEnd log.now ended parts.now }
    requires list { said.now ≡ submissions (inquiry_at log.now ended parts.now) }
    requires short { All (λ entry. length entry < 2 ^ 32) said.now }
    ensures { IfOk result (λ fault. fault ≡ submission_fault (inquiry_at log.now ended parts.now) ended.shuffle) }
{
    let shape = log.shape();
    for member in 1..shape.members + 1 {
        let bytes = said[usize::from(member - 1)].items();
        if let Some(layer) = wrong_layer(alloc, log, ended, parts, member, bytes)? {
            return Ok(Some(Fault {
                member,
                cause: Cause::Submission { layer },
            }));
        }
    }
    Ok(None)
}

// The least layer of a member's submission that does not open or does not carry its seed.
fn wrong_layer(
    alloc: Global,
    log: &StageLog,
    ended: Ended,
    parts: &[Part],
    member: u8,
    bytes: &[u8],
) -> Mem<Option<u8>>
    requires is_end { IsEnd log.now ended parts.now }
    requires least { 1 ≤ member }
    requires most { member ≤ log.now.shape.members }
    requires said { bytes.now ≡ submission (inquiry_at log.now ended parts.now) member }
    requires short { length bytes.now < 2 ^ 32 }
    ensures { IfOk result (λ layer. option_map (λ layer. fault (Submission layer) member) layer
        ≡ layer_fault (inquiry_at log.now ended parts.now) ended.shuffle member) }
{
    let shape = log.shape();
    let own = &parts[usize::from(member - 1)];
    let mut inside: Option<List<u8>> = None;
    for layer in 1..shape.members + 1 {
        let part = &parts[usize::from(layer - 1)];
        let m = layer_seed(ended, &own.shown.outer_opening, member, layer);
        let Some(body) = body_under(alloc, &part.key, &m, rest_of(&inside, bytes))? else {
            return Ok(Some(layer));
        };
        inside = Some(body);
    }
    Ok(None)
}

// What is left of bytes: what was inside them, or they themselves where nothing is off yet.
fn rest_of<'a>(inside: &'a Option<List<u8>>, bytes: &'a [u8]) -> &'a [u8]
    ensures { result.now ≡ unwrap_or inside.now bytes.now }
{
    match inside {
        None => bytes,
        Some(body) => body.items().as_slice(),
    }
}

// The body of a layer, if it opens and carries m.
fn body_under(alloc: Global, key: &KeySeed, m: &[u8; 32], layer: &[u8]) -> Mem<Option<List<u8>>>
    requires { length layer.now < 2 ^ 32 }
    ensures value { IfOk result (λ body. body ≡ body_under m.now (peeled key.now layer.now)) }
    ensures short { IfOk result (λ body. IfSome body (λ bytes. length bytes < 2 ^ 32)) }
{
    let Peeled::Layer { m: carried, body } = peel_with(alloc, key, layer)? else {
        return Ok(None);
    };
    if carried == *m {
        Ok(Some(body))
    } else {
        Ok(None)
    }
}

// The seed of an outer layer of a member's submission.
fn layer_seed(ended: Ended, opening: &[u8; 32], member: u8, layer: u8) -> [u8; 32]
    ensures { result ≡ layer_seed opening.now ended.round ended.shuffle OUTER member layer }
{
    let mut register = Register::new(Tag::LayerSeed);
    register.piece(opening);
    register.piece(&ended.round.to_be_bytes());
    register.piece(&[ended.shuffle]);
    register.piece(&[OUTER]);
    register.piece(&[member]);
    register.piece(&[layer]);
    register.end()
}
