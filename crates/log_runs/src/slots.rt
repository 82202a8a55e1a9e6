//! Two members with their keys and seeds, and two slots with the pads that they send.

ghost use Rattle.std.specs.Prelude.{◌≡◌, length, map, vec_len, All, IfOk, IfSome};
ghost use Rattle.std.specs.Option.{option_map};
ghost use Rattle.bulk_descriptor.specs.Fields.{description_of};
ghost use Rattle.bulk_descriptor.specs.SlotState.{AreSlots};

use bulk_descriptor::{Descriptor, PadTable};
use ring_encrypt::{PublicKey, public_of};
use std::alloc::Global;
use wire_core::{List, Mem};

// The keys of two seeds.
pub fn keys(alloc: Global, first: &[u8; 32], second: &[u8; 32]) -> Mem<Vec<PublicKey>>
    ensures { IfOk result (λ keys. vec_len keys ≡ 2) }
{
    let keys = vec![in alloc; public_of(first), public_of(second)]?;
    Ok(keys)
}

pub fn seeds(alloc: Global, first: &[u8; 32], second: &[u8; 32]) -> Mem<Vec<[u8; 32]>>
    ensures { IfOk result (λ seeds. vec_len seeds ≡ 2) }
{
    let seeds = vec![in alloc; *first, *second]?;
    Ok(seeds)
}

// Two slots: the descriptors that they hold, and the pads that both members sent for them.
#[derive(Drop)]
pub struct Slots {
    pub descriptors: Vec<Option<Descriptor>>,
    pub pads: PadTable,
}

// The row of a member that sends this byte for the first slot and none for the second.
fn row(alloc: Global, byte: u8) -> Mem<List<List<u8>>>
    ensures { IfOk result (λ row. length row ≡ 2) }
{
    let first = List::of([byte].to_vec(alloc)?);
    let pads = vec![in alloc; first, List::of(Vec::new(alloc))]?;
    Ok(List::of(pads))
}

// The rows of two members that send these bytes.
fn rows(alloc: Global, bytes: [u8; 2]) -> Mem<PadTable>
    ensures members { IfOk result (λ pads. length pads.members ≡ 2) }
    ensures pads { IfOk result (λ pads. All (λ row. length row ≡ 2) pads.members) }
{
    let one = row(alloc, bytes[0])?;
    let two = row(alloc, bytes[1])?;
    let rows = vec![in alloc; one, two]?;
    Ok(PadTable {
        members: List::of(rows),
    })
}

// The slots of which the first holds this descriptor and the second none, where the members send these bytes.
pub fn two_slots(alloc: Global, first: Option<Descriptor>, bytes: [u8; 2]) -> Mem<Slots>
    requires { IfSome first (λ d. length d.pad_hashes ≡ 2) }
    ensures slots { IfOk result (λ slots. AreSlots (map (option_map description_of) slots.descriptors.items) slots.pads.members) }
    ensures two { IfOk result (λ slots. vec_len slots.descriptors ≡ 2) }
{
    let pads = rows(alloc, bytes)?;
    let descriptors = vec![in alloc; first, None]?;
    Ok(Slots { descriptors, pads })
}
