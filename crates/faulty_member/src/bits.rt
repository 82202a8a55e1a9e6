//! Changed bits of bytes, and of items of lists.

ghost use Rattle.std.specs.Prelude.{◌≡◌, ◌<◌, [], OnOk, slice_index_or, vec_len};
ghost use Rattle.std.specs.List.{slice_set};
ghost use Rattle.group_spec.specs.Alterations.{bit_changed, with_bit_changed, with_changed, with_last_bit_changed, with_last_copied};

use std::alloc::Global;
use std::mem;
use wire_core::{List, Mem};

// Changes the lowest bit of the byte at a place, if there is one.
#[tactic(auto, unfolding(group_spec::specs::Alterations::with_bit_changed))]
pub(crate) fn change_bit(bytes: &mut [u8], place: usize)
    ensures { bytes.new ≡ with_bit_changed place bytes.old }
{
    if place < bytes.len() {
        bytes[place] = bit_changed(bytes[place]);
    }
}

// A byte with its lowest bit changed.
fn bit_changed(byte: u8) -> u8
    ensures { result ≡ bit_changed byte }
{
    if byte % 2 == 0 { byte + 1 } else { byte - 1 }
}

// Changes the lowest bit of the last byte, if there is one.
pub(crate) fn change_last_bit(bytes: &mut [u8])
    ensures { bytes.new ≡ with_last_bit_changed bytes.old }
{
    let place = bytes.len().saturating_sub(1);
    change_bit(bytes, place);
}

// Bytes with the lowest bit of the byte at a place changed, if there is one.
#[tactic(auto, unfolding(group_spec::specs::Alterations::with_bit_changed))]
fn with_bit_changed(bytes: Vec<u8>, place: usize) -> Vec<u8>
    ensures { result.items ≡ with_bit_changed place bytes.items }
{
    let mut bytes = bytes;
    if place < bytes.len() {
        bytes[place] = bit_changed(bytes[place]);
    }
    bytes
}

// Bytes with the lowest bit of the last one changed, if there is one.
fn with_last_bit_changed(bytes: Vec<u8>) -> Vec<u8>
    ensures { result.items ≡ with_last_bit_changed bytes.items }
{
    let last = bytes.len().saturating_sub(1);
    with_bit_changed(bytes, last)
}

// Changes the lowest bit of the first byte of the hash at a place, if there is one.
#[tactic(auto, unfolding(group_spec::specs::Alterations::with_changed, group_spec::specs::Alterations::with_bit_changed))]
pub(crate) fn change_hash(hashes: &mut Vec<[u8; 32]>, place: usize)
    ensures { hashes.new.items ≡ with_changed (with_bit_changed 0) place hashes.old.items }
{
    if place < hashes.len() {
        let mut hash = hashes[place];
        hash[0] = bit_changed(hash[0]);
        hashes[place] = hash;
    }
}

// Changes the lowest bit of the first byte of the item at a place, if there is one.
#[tactic(auto, unfolding(group_spec::specs::Alterations::with_changed))]
pub(crate) fn change_first_in(alloc: Global, items: &mut Vec<List<u8>>, place: usize)
    ensures { items.new.items ≡ with_changed (with_bit_changed 0) place items.old.items }
{
    if place < items.len() {
        let bytes = taken(alloc, items, place);
        items[place] = List::of(with_bit_changed(bytes, 0));
    }
}

// Changes the lowest bit of the last byte of the item at a place, if there is one.
#[tactic(auto, unfolding(group_spec::specs::Alterations::with_changed))]
pub(crate) fn change_last_in(alloc: Global, items: &mut Vec<List<u8>>, place: usize)
    ensures { items.new.items ≡ with_changed with_last_bit_changed place items.old.items }
{
    if place < items.len() {
        let bytes = taken(alloc, items, place);
        items[place] = List::of(with_last_bit_changed(bytes));
    }
}

// The item at a place, which is empty from then on.
fn taken(alloc: Global, items: &mut Vec<List<u8>>, place: usize) -> Vec<u8>
    requires { place < vec_len items.old }
    ensures item { result.items ≡ slice_index_or items.old.items place [] }
    ensures others { items.new.items ≡ slice_set items.old.items place [] }
{
    mem::replace(&mut items[place], List::of(Vec::new(alloc))).into_items()
}

// Makes the last item a copy of the first, if there is one.
#[tactic(auto, unfolding(group_spec::specs::Alterations::with_last_copied))]
pub(crate) fn copy_to_last(alloc: Global, items: &mut Vec<List<u8>>) -> Mem<()>
    ensures { OnOk result (items.new.items ≡ with_last_copied items.old.items) }
{
    let count = items.len();
    if count > 0 {
        let first = Vec::from_slice(alloc, items[0].items())?;
        items[count - 1] = List::of(first);
    }
    Ok(())
}
