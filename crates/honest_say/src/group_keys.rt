//! The keys that all members said.

ghost use Rattle.std.specs.Prelude.{◌≡◌, ◌+◌, ◌≤◌, ◌<◌, ◌∷◌, [], All, IfOk, IsSome, length, map, slice_index_or};
ghost use Rattle.ring_poly.specs.PublicKey.{IsPublicKey};
ghost use Rattle.stage_log.specs.Log.{before};
ghost use Rattle.go_nogo.specs.Stands.{StandAt};
ghost use Rattle.round_spec.specs.Slots.{by_member, keys_in, said_in};
ghost use Rattle.honest_say.specs.Rows.{IsKeys};
ghost use Rattle.shuffle_blame.specs.Asked.{past_of};

use crate::said::said_in;
use phase_message::{Body, Slot};
use ring_encrypt::{PublicKey, read_key};
use stage_log::StageLog;
use std::alloc::Global;
use wire_core::{List, Mem};

/// The keys of one shuffle, by member.
#[derive(Drop)]
pub struct ShuffleKeys {
    /// Those of the layers that are put on first, and come off last.
    pub inner: List<PublicKey>,
    /// Those of the layers under which a submission is sent.
    pub outer: List<PublicKey>,
}

/// The five keys of each member, each kind by member.
#[derive(Drop)]
pub struct GroupKeys {
    /// Those of shuffle A.
    pub first: ShuffleKeys,
    /// Those under which the seeds of pads are sealed.
    pub bulk: List<PublicKey>,
    /// Those of shuffle B.
    pub second: ShuffleKeys,
}

// The five keys of a member.
type KeyRow = [[u8; 1824]; 5];

impl GroupKeys {
    ghost use Rattle.std.specs.Prelude.{◌≡◌, ◌≤◌, IfOk, IsSome, length};
    ghost use Rattle.stage_log.specs.Log.{before};
    ghost use Rattle.go_nogo.specs.Stands.{StandAt};
    ghost use Rattle.honest_say.specs.Own.{AreGroupKeys, AreOfEach};
    ghost use Rattle.shuffle_blame.specs.Asked.{past_of};

    /// The keys that all members said, before a later stage. Each post of the first stage is read once.
    pub fn said(alloc: Global, log: &StageLog, stage: u8) -> Mem<GroupKeys>
        requires complete { IsSome (before log.now stage) }
        requires later { 1 ≤ stage }
        requires stand { StandAt log.now 0 }
        ensures value { IfOk result (AreGroupKeys log.now.shape (past_of log.now stage)) }
        ensures counts { IfOk result (AreOfEach log.now.shape.members) }
    {
        let rows = rows_said(alloc, log, stage)?;
        let inner_a = column(alloc, &rows, 0)?;
        let outer_a = column(alloc, &rows, 1)?;
        let bulk = column(alloc, &rows, 2)?;
        let inner_b = column(alloc, &rows, 3)?;
        let outer_b = column(alloc, &rows, 4)?;
        Ok(GroupKeys {
            first: ShuffleKeys {
                inner: inner_a,
                outer: outer_a,
            },
            bulk,
            second: ShuffleKeys {
                inner: inner_b,
                outer: outer_b,
            },
        })
    }
}

// The keys of each member.
fn rows_said(alloc: Global, log: &StageLog, stage: u8) -> Mem<Vec<KeyRow>>
    requires complete { IsSome (before log.now stage) }
    requires later { 1 ≤ stage }
    requires stand { StandAt log.now 0 }
    ensures value { IfOk result (λ rows. rows.items
        ≡ by_member log.now.shape (λ member. keys_in (said_in log.now.shape (past_of log.now stage) 0 member))) }
    ensures keys { IfOk result (λ rows. All (All IsPublicKey) rows.items) }
{
    let members = log.shape().members;
    let mut rows = Vec::with_capacity(alloc, usize::from(members))?;
    for sender in 1..members + 1 {
        let body = said_in(alloc, log, stage, Slot { stage: 0, sender })?;
        let keys = keys_in(body);
        rows.push(keys)?;
    }
    Ok(rows)
}

// The keys that a body says.
fn keys_in(body: Body) -> KeyRow
    requires { IsKeys body }
    ensures { result ≡ keys_in body }
{
    match body {
        Body::Keys { keys } => keys,
        _ => unreachable!(),
    }
}

// The keys at a place of all rows.
fn column(alloc: Global, rows: &[KeyRow], place: usize) -> Mem<List<PublicKey>>
    requires place { place < 5 }
    requires keys { All (All IsPublicKey) rows.now }
    ensures { IfOk result (λ keys. keys ≡ map (λ row. slice_index_or row place []) rows.now) }
{
    let mut keys = Vec::with_capacity(alloc, rows.len())?;
    for row in rows {
        let Ok(key) = read_key(&row[place]) else {
            unreachable!()
        };
        keys.push(key)?;
    }
    Ok(List::of(keys))
}
