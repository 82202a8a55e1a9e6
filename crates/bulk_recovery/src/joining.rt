//! The exclusive or of the pads of a slot.

ghost use Rattle.std.specs.Prelude.{◌≡◌, ◌<◌, length, All, IfOk};
ghost use Rattle.bulk_descriptor.specs.Descriptor.{hidden_under};
ghost use Rattle.bulk_descriptor.specs.SlotState.{joined_pads, pads_for};

use bulk_descriptor::PadTable;
use pad_stream::xor_into;
use std::alloc::Global;
use wire_core::{List, Mem};

/// The exclusive or of the pads of all members for a slot, which counts from 0. Each member has a pad of `count`
/// bytes for it.
pub(crate) fn joined_pads(alloc: Global, pads: &PadTable, slot: usize, count: u32) -> Mem<Vec<u8>>
    requires members { 0 < length pads.now.members }
    requires pads { All (λ row. slot < length row) pads.now.members }
    requires sizes { All (λ pad. length pad ≡ count) (pads_for pads.now.members slot) }
    ensures { IfOk result (λ joined. joined.items ≡ joined_pads (pads_for pads.now.members slot)) }
{
    let rows = pads.members.items();
    let mut joined = Vec::from_slice(alloc, rows[0].items()[slot].items())?;
    let (_, rest) = rows.split_at(1);
    join_rows(&mut joined, rest, slot);
    Ok(joined)
}

// Turns bytes into their exclusive or with the pad for a slot of each row, which is as long.
fn join_rows(bytes: &mut [u8], rows: &[List<List<u8>>], slot: usize)
    requires pads { All (λ row. slot < length row) rows.now }
    requires sizes { All (λ pad. length pad ≡ length bytes.old) (pads_for rows.now slot) }
    ensures { bytes.new ≡ hidden_under bytes.old (pads_for rows.now slot) }
{
    for row in rows {
        xor_into(bytes, row.items()[slot].items());
    }
}
