//! The rule of outer seeds.

ghost use Rattle.std.specs.Prelude.{◌≡◌, IfOk};
ghost use Rattle.shuffle_blame.specs.Rules.{IsEnd, inquiry_at, shown_by};
ghost use Rattle.shuffle_blame.specs.Replay.{seed_fault};

use crate::ended::Ended;
use crate::fault::{Cause, Fault, Shown};
use crate::parts::Part;
use crate::said::has_outer_key;
use phase_message::Slot;
use ring_encrypt::KeySeed;
use stage_log::StageLog;
use std::alloc::Global;
use wire_core::Mem;

// What the members show, with each outer seed taken into use once.
pub(crate) fn ready_parts(alloc: Global, shown: &[Shown]) -> Mem<Vec<Part>>
    ensures { IfOk result (λ parts. shown_by parts.items ≡ shown.now) }
{
    let mut parts = Vec::with_capacity(alloc, shown.len())?;
    for one in shown {
        let key = KeySeed::new(one.outer_seed);
        parts.push(Part { shown: *one, key })?;
    }
    Ok(parts)
}

// The least member whose shown outer seed is not that of its outer key.
pub(crate) fn seed_fault(
    alloc: Global,
    log: &StageLog,
    ended: Ended,
    parts: &[Part],
) -> Mem<Option<Fault>>
    requires { IsEnd log.now ended parts.now }
    ensures { IfOk result (λ fault. fault ≡ seed_fault (inquiry_at log.now ended parts.now) ended.shuffle) }
{
    let shape = log.shape();
    for member in 1..shape.members + 1 {
        let slot = Slot {
            stage: 0,
            sender: member,
        };
        let part = &parts[usize::from(member - 1)];
        let has = has_outer_key(alloc, log, slot, ended.shuffle, &part.key)?;
        if !has {
            return Ok(Some(Fault {
                member,
                cause: Cause::OuterSeed,
            }));
        }
    }
    Ok(None)
}
