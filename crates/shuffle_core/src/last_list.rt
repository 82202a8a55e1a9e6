//! The last list of a shuffle.

ghost use Rattle.std.specs.Prelude.{◌≡◌, ◌<◌, ◌^◌, All, map, length, vec_len, IfOk, IfSome, Some};
ghost use Rattle.std.specs.Option.{ForSome, option_and_then};
ghost use Rattle.shuffle_core.specs.Shuffle.{body_of, opened_list, place_of};

use layer_cipher::{Peeled, peel_with};
use ring_encrypt::KeySeed;
use std::alloc::Global;
use wire_core::{List, Mem};

/// The least place of an entry in a list of fewer than 2^32 entries, from 0. `None` where the list
/// doesn't have it.
pub fn own_place(list: &Vec<List<u8>>, ct: &[u8]) -> Option<u32>
    requires { vec_len list.now < 2 ^ 32 }
    ensures { result ≡ place_of list.now.items ct.now }
{
    place_in(list, ct).map(|place| place as u32)
}

// The least place of an entry.
fn place_in(list: &[List<u8>], ct: &[u8]) -> Option<usize>
    ensures value { result ≡ place_of list.now ct.now }
    ensures within { IfSome result (λ place. place < length list.now) }
{
    list.iter().position(|entry| entry.items().as_slice() == ct)
}

/// What is in each entry, of fewer than 2^32 bytes, under as many layers as there are seeds, the
/// first seed's outermost. `None` where a layer doesn't open.
pub fn open_final(
    alloc: Global,
    seeds: &Vec<[u8; 32]>,
    list: &Vec<List<u8>>,
) -> Mem<Vec<Option<List<u8>>>>
    requires { All (λ entry. length entry < 2 ^ 32) list.now.items }
    ensures { IfOk result (λ items. items.items ≡ opened_list seeds.now.items list.now.items) }
{
    let mut items = copies(alloc, list)?;
    for seed in seeds {
        let key = KeySeed::new(*seed);
        let opened = open_all(alloc, &key, items);
        key.destroy();
        items = opened?;
    }
    Ok(items)
}

// The entries, none of which is opened yet.
fn copies(alloc: Global, list: &[List<u8>]) -> Mem<Vec<Option<List<u8>>>>
    ensures { IfOk result (λ items. items.items ≡ map Some list.now) }
{
    let mut items = Vec::with_capacity(alloc, list.len())?;
    for entry in list {
        items.push(Some(List::of(Vec::from_slice(alloc, entry.items())?)))?;
    }
    Ok(items)
}

// The items with a layer more off.
fn open_all(
    alloc: Global,
    key: &KeySeed,
    items: Vec<Option<List<u8>>>,
) -> Mem<Vec<Option<List<u8>>>>
    requires { All (λ item. ForSome item (λ bytes. length bytes < 2 ^ 32)) items.items }
    ensures { IfOk result (λ opened. opened.items ≡ map (option_and_then (body_of key.now)) items.items) }
{
    let mut opened = Vec::with_capacity(alloc, items.len())?;
    for item in items {
        opened.push(open_one(alloc, key, item)?)?;
    }
    Ok(opened)
}

// What is under a layer, if the item was opened so far and the layer opens.
fn open_one(alloc: Global, key: &KeySeed, item: Option<List<u8>>) -> Mem<Option<List<u8>>>
    requires { ForSome item (λ bytes. length bytes < 2 ^ 32) }
    ensures { IfOk result (λ opened. opened ≡ option_and_then (body_of key.now) item) }
{
    let Some(bytes) = item else {
        return Ok(None);
    };
    match peel_with(alloc, key, bytes.items())? {
        Peeled::Layer { m: _, body } => Ok(Some(body)),
        Peeled::NoLayer => Ok(None),
    }
}
