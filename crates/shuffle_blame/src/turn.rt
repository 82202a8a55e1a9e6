//! The rule of turns.

ghost use Rattle.std.specs.Prelude.{◌≡◌, ◌<◌, ◌^◌, All, IfOk, IfSome, length};
ghost use Rattle.std.specs.Option.{option_map};
ghost use Rattle.layer_cipher.specs.Stripping.{stripped};
ghost use Rattle.shuffle_blame.specs.Rules.{IsEnd, body_kept, inquiry_at, list_in_order};
ghost use Rattle.shuffle_blame.specs.Replay.{list_of, submissions, turn_fault};

use crate::ended::Ended;
use crate::fault::{Cause, Fault};
use crate::order::is_permutation;
use crate::parts::Part;
use crate::said::list;
use crate::submissions::submit_stage;
use phase_message::Slot;
use ring_encrypt::KeySeed;
use shuffle_core::strip;
use stage_log::StageLog;
use std::alloc::Global;
use wire_core::{List, Mem};

// The least member that said Abort in its turn, or a list that is not the list before in another order with a layer off.
pub(crate) fn turn_fault(
    alloc: Global,
    log: &StageLog,
    ended: Ended,
    parts: &[Part],
    said: Vec<List<u8>>,
) -> Mem<Option<Fault>>
    requires is_end { IsEnd log.now ended parts.now }
    requires list { said.items ≡ submissions (inquiry_at log.now ended parts.now) }
    requires short { All (λ entry. length entry < 2 ^ 32) said.items }
    ensures { IfOk result (λ fault. fault ≡ turn_fault (inquiry_at log.now ended parts.now)) }
{
    let shape = log.shape();
    let first = submit_stage(shape, ended.stage);
    let mut input = said;
    for turn in 1..shape.members + 1 {
        let slot = Slot {
            stage: first + turn,
            sender: turn,
        };
        let part = &parts[usize::from(turn - 1)];
        let Some(output) = list_in_order(alloc, log, slot, &part.key, &input)? else {
            return Ok(Some(Fault {
                member: turn,
                cause: Cause::Shuffle,
            }));
        };
        input = output;
    }
    Ok(None)
}

// The list that is said in a slot, if it is another list with a layer off, in some order.
fn list_in_order(
    alloc: Global,
    log: &StageLog,
    slot: Slot,
    key: &KeySeed,
    input: &[List<u8>],
) -> Mem<Option<Vec<List<u8>>>>
    requires { All (λ entry. length entry < 2 ^ 32) input.now }
    ensures value { IfOk result (λ output. option_map (λ v. v.items) output
        ≡ list_in_order (stripped key.now input.now) (list_of (body_kept log.now slot))) }
    ensures short { IfOk result (λ output. IfSome output (λ v. All (λ entry. length entry < 2 ^ 32) v.items)) }
{
    let Some(output) = list(alloc, log, slot)? else {
        return Ok(None);
    };
    let Some(bodies) = strip(alloc, key, input)? else {
        return Ok(None);
    };
    if is_permutation(output.items(), bodies) {
        Ok(Some(output.into_items()))
    } else {
        Ok(None)
    }
}
