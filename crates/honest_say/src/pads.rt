//! The row of pads.

ghost use Rattle.std.specs.Prelude.{◌≡◌, ℕ, List, IfOk, map};
ghost use Rattle.bulk_descriptor.specs.Descriptor.{own_pad};
ghost use Rattle.round_spec.specs.Slots.{items_opened};
ghost use Rattle.round_spec.specs.Say.{Configuration, own_pad_seeds, pads_row, shape_in};
ghost use Rattle.honest_say.specs.Own.{AreBulkSecrets};
ghost use Rattle.honest_say.specs.Rows.{pad_sent_for};
ghost use Rattle.honest_say.specs.Seats.{IsSeatOf};

use crate::seat::Seat;
use crate::secrets::BulkSecrets;
use bulk_descriptor::{KeySeed, sent_pad};
use phase_message::Body;
use std::alloc::Global;
use wire_core::{List, Mem};

/// The member's pads, one for each entry of the opened list of shuffle A: its own pad where the entry is `own`, the bytes
/// of its own descriptor; else the pad that the entry's descriptor has for it; else the empty pad.
#[tactic(auto, unfolding(round_spec::specs::Say::pads_row))]
pub fn pads_body(
    alloc: Global,
    seat: &Seat,
    secrets: &BulkSecrets,
    own: &[u8],
    kept_pad: &[u8],
    opened: &Vec<Option<List<u8>>>,
) -> Mem<Body>
    ensures { IfOk result (λ body. (c : Configuration) (past : List (List ℕ)) → IsSeatOf c seat.now →
        AreBulkSecrets c secrets.now → kept_pad.now ≡ own_pad (own_pad_seeds c) c.number c.message →
        opened.now.items ≡ items_opened (shape_in c) past 1 → body ≡ pads_row c own.now past) }
{
    let mut pads = Vec::with_capacity(alloc, opened.len())?;
    for entry in opened {
        let pad = pad_for(alloc, seat, &secrets.key, own, kept_pad, entry)?;
        pads.push(pad)?;
    }
    Ok(Body::Pads {
        pads: List::of(pads),
    })
}

// The pad for an entry: the empty one where the entry did not open.
fn pad_for(
    alloc: Global,
    seat: &Seat,
    key: &KeySeed,
    own: &[u8],
    kept_pad: &[u8],
    entry: &Option<List<u8>>,
) -> Mem<List<u8>>
    ensures { IfOk result (λ pad. pad ≡ pad_sent_for seat.now.shape.members own.now kept_pad.now seat.now.number key.now entry.now) }
{
    let Some(bytes) = entry else {
        return Ok(List::of(Vec::new(alloc)));
    };
    let Seat { shape, number, .. } = *seat;
    sent_pad(
        alloc,
        shape.members,
        own,
        kept_pad,
        number,
        key,
        bytes.items(),
    )
}
