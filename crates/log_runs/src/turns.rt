//! Each call of shuffle_core once, with values of an independent implementation where it says them.

ghost use Rattle.std.specs.Prelude.{◌≡◌, ◌<◌, ◌^◌, ◌↔◌, vec_len, All, IfOk, IsTrue, length};

use crate::slots::{keys, seeds};
use layer_cipher::seal;
use ring_encrypt::public_of;
use shuffle_core::{
    Body, KeySeed, List, POST_LIMIT, Submission, anonymize, layer_seeds, open_final, own_place,
    submission,
};
use std::alloc::Global;
use std::test::Fail;
use wire_core::Mem;

const OPENING: [u8; 32] = [
    0xa3, 0x4d, 0xb8, 0xe0, 0xaf, 0xf0, 0x3f, 0x6d, 0x0c, 0xdc, 0xfa, 0x56, 0xd0, 0x6a, 0x64, 0xe9,
    0x18, 0x35, 0xad, 0x5f, 0x20, 0xf9, 0x7c, 0x7b, 0x2f, 0x87, 0x7e, 0xa3, 0x9c, 0x26, 0xc3, 0x12,
];

// The seeds of its layers.
const LAYER_SEEDS: [[u8; 32]; 2] = [
    [
        0x8a, 0xd7, 0x98, 0xcd, 0x1e, 0xf6, 0xd9, 0xd1, 0x6d, 0x4d, 0xa5, 0x59, 0x5b, 0xa8, 0x84,
        0xe1, 0x04, 0x4b, 0xd2, 0x2e, 0x35, 0x56, 0x3c, 0xe6, 0x9a, 0x98, 0xd6, 0x7c, 0x67, 0x38,
        0x0c, 0xeb,
    ],
    [
        0x79, 0xfc, 0xf4, 0x6a, 0xfb, 0x64, 0x84, 0x2c, 0x50, 0x17, 0x13, 0x72, 0x2e, 0x8b, 0x17,
        0xf9, 0x2e, 0x53, 0x11, 0xef, 0xd3, 0x44, 0xbf, 0x9d, 0x89, 0x05, 0xa3, 0x3d, 0x47, 0xfd,
        0x32, 0x3b,
    ],
];

#[test]
fn layers_are_numbered_from_one(rt: HostRuntime) -> Result<(), Fail> {
    let seeds = layer_seeds(rt.alloc(), &OPENING, 4294967296, 1, 1, 1, 2)?;
    assert!(rt; seeds.as_slice() == LAYER_SEEDS.as_slice());
    Ok(())
}

// A layer under one key, with a body of one byte.
fn layer(alloc: Global, body: u8) -> Mem<List<u8>> {
    let key = public_of(&[7; 32]);
    Ok(List::of(seal(alloc, &key, &[body; 32], &[body])?))
}

// The layers of the bytes 0 to n - 1.
fn layers(alloc: Global, n: u8) -> Mem<Vec<List<u8>>> {
    let mut list = Vec::new(alloc);
    for body in 0..n {
        list.push(layer(alloc, body)?)?;
    }
    Ok(list)
}

// Whether each entry has fewer than 2^32 bytes.
fn are_short(list: &[List<u8>]) -> bool
    ensures { IsTrue result ↔ All (λ entry. length entry < 2 ^ 32) list.now }
{
    list.iter().all(|entry| entry.items().len() < 4294967296)
}

// The turn of the member whose key it is, if the entries are short.
fn turn(alloc: Global, order_seed: &[u8; 32], list: &Vec<List<u8>>) -> Mem<Option<Body>> {
    if !are_short(list) {
        return Ok(None);
    }
    let seed = KeySeed::new([7; 32]);
    let body = anonymize(alloc, &seed, order_seed, list);
    seed.destroy();
    Ok(Some(body?))
}

// Whether a turn says bodies of one byte each, in this order.
fn says(turn: Option<Body>, order: &[u8]) -> bool {
    match turn {
        Some(Body::Shuffled { list }) => are_single(list.items(), order),
        _ => false,
    }
}

// Whether each body is one byte, and these they are.
fn are_single(bodies: &[List<u8>], bytes: &[u8]) -> bool {
    bodies.len() == bytes.len()
        && bodies.iter().zip(bytes).all(|(body, byte)| body.items().as_slice()
            == [*byte].as_slice())
}

const ORDER_SEED: [u8; 32] = [
    0xf1, 0x1c, 0x02, 0x47, 0xb6, 0x7f, 0xc6, 0x59, 0x63, 0x2a, 0xb5, 0xf2, 0x31, 0x5d, 0xe9, 0x4d,
    0x59, 0x8d, 0x74, 0x0d, 0xa9, 0xcc, 0xf1, 0xbd, 0x40, 0x6a, 0x9f, 0x8b, 0x32, 0x93, 0x00, 0x89,
];

// The order that is drawn from it.
const ORDER: [u8; 8] = [7, 0, 5, 2, 4, 1, 6, 3];

#[test]
fn bodies_are_said_in_the_drawn_order(rt: HostRuntime) -> Result<(), Fail> {
    let alloc = rt.alloc();
    let list = layers(alloc, 8)?;
    assert!(rt; says(turn(alloc, &ORDER_SEED, &list)?, &ORDER));
    Ok(())
}

// Whether a turn aborts over two layers and this entry.
fn aborts_with(alloc: Global, last: List<u8>) -> Mem<bool> {
    let mut list = layers(alloc, 2)?;
    list.push(last)?;
    Ok(matches!(turn(alloc, &[1; 32], &list)?, Some(Body::Abort)))
}

#[test]
fn equal_entries_and_no_layers_abort(rt: HostRuntime) -> Result<(), Fail> {
    let alloc = rt.alloc();
    assert!(rt; aborts_with(alloc, layer(alloc, 0)?)?);
    assert!(rt; aborts_with(alloc, List::of(vec![in alloc; 0; 2272]?))?);
    Ok(())
}

// An item in four layers, under the keys of the seeds 1 to 4, that of 1 outermost.
fn submitted(alloc: Global, item: &[u8]) -> Mem<Submission>
    requires { length item.now < POST_LIMIT }
{
    let outer = keys(alloc, &[1; 32], &[2; 32])?;
    let inner = keys(alloc, &[3; 32], &[4; 32])?;
    let inner_seeds = seeds(alloc, &[5; 32], &[6; 32])?;
    let outer_seeds = seeds(alloc, &[7; 32], &[8; 32])?;
    submission(alloc, &inner, &outer, &inner_seeds, &outer_seeds, item)
}

// The submission as a list: without its outer layers, and with them.
fn listed(alloc: Global, item: &[u8]) -> Mem<Vec<List<u8>>>
    requires { length item.now < POST_LIMIT }
    ensures { IfOk result (λ list. vec_len list ≡ 2) }
{
    let Submission {
        inner_ciphertext,
        ciphertext,
    } = submitted(alloc, item)?;
    let list = vec![in alloc; inner_ciphertext, ciphertext]?;
    Ok(list)
}

// What the entries open to by the seeds of all four keys, if they are short.
fn opened(alloc: Global, list: &Vec<List<u8>>) -> Mem<Vec<Option<List<u8>>>> {
    if !are_short(list) {
        return Ok(Vec::new(alloc));
    }
    let key_seeds = vec![in alloc; [1; 32], [2; 32], [3; 32], [4; 32]]?;
    open_final(alloc, &key_seeds, list)
}

// Whether the second of two entries alone opened, to this item.
fn opened_second(opened: &[Option<List<u8>>], item: &[u8]) -> bool {
    match opened {
        [None, Some(found)] => found.items().as_slice() == item,
        _ => false,
    }
}

#[test]
fn a_submission_is_found_and_opened(rt: HostRuntime) -> Result<(), Fail> {
    let alloc = rt.alloc();
    let list = listed(alloc, b"item")?;
    assert!(rt; own_place(&list, b"item").is_none());
    assert!(rt; own_place(&list, list[1].items()) == Some(1));
    assert!(rt; opened_second(&opened(alloc, &list)?, b"item"));
    Ok(())
}
