//! What stands in the slots of a log.

ghost use Rattle.std.specs.Prelude.{◌≡◌, ◌<◌, ◌^◌, All, length, IfOk, IfSome};
ghost use Rattle.shuffle_blame.specs.Rules.{IsShort, body_kept};
ghost use Rattle.shuffle_blame.specs.Replay.{ciphertext_of, has_outer_key, is_yes, list_of, outer_place};

use phase_message::{Body, Content, DecodeRefusal, Slot, decode};
use ring_encrypt::KeySeed;
use stage_log::StageLog;
use std::alloc::{AllocError, Global};
use wire_core::{List, Mem};

// What is said in a slot: Abort where nothing is kept or no content is spelled.
fn body_in(alloc: Global, log: &StageLog, slot: Slot) -> Mem<Body>
    ensures value { IfOk result (λ body. body ≡ body_kept log.now slot) }
    ensures short { IfOk result IsShort }
{
    let Some(post) = log.kept(slot) else {
        return Ok(Body::Abort);
    };
    match decode(alloc, log.shape(), post.content.items()) {
        Ok(content) => {
            let Content { header: _, body } = content;
            Ok(body)
        }
        Err(DecodeRefusal::Malformed { .. }) => Ok(Body::Abort),
        Err(DecodeRefusal::Memory) => Err(AllocError),
    }
}

// Whether a slot's keys have the outer key of this seed.
pub(crate) fn has_outer_key(
    alloc: Global,
    log: &StageLog,
    slot: Slot,
    shuffle: u8,
    key: &KeySeed,
) -> Mem<bool>
    ensures { IfOk result (λ has. has ≡ has_outer_key shuffle key.now (body_kept log.now slot)) }
{
    match body_in(alloc, log, slot)? {
        Body::Keys { keys } => Ok(key.public().bytes() == &keys[outer_place(shuffle)]),
        _ => Ok(false),
    }
}

// Which of five keys is the outer one of a shuffle.
fn outer_place(shuffle: u8) -> usize
    ensures value { result ≡ outer_place shuffle }
    ensures within { result < 5 }
{
    if shuffle == 1 { 1 } else { 4 }
}

// The ciphertext that was submitted in a slot.
pub(crate) fn ciphertext(alloc: Global, log: &StageLog, slot: Slot) -> Mem<List<u8>>
    ensures value { IfOk result (λ ciphertext. ciphertext ≡ ciphertext_of (body_kept log.now slot)) }
    ensures short { IfOk result (λ ciphertext. length ciphertext < 2 ^ 32) }
{
    match body_in(alloc, log, slot)? {
        Body::Submit { ciphertext } => Ok(ciphertext),
        _ => Ok(List::of(Vec::new(alloc))),
    }
}

// The list that was said in a slot: none where it was Abort.
pub(crate) fn list(alloc: Global, log: &StageLog, slot: Slot) -> Mem<Option<List<List<u8>>>>
    ensures value { IfOk result (λ list. list ≡ list_of (body_kept log.now slot)) }
    ensures short { IfOk result (λ list. IfSome list (λ entries. All (λ entry. length entry < 2 ^ 32) entries)) }
{
    match body_in(alloc, log, slot)? {
        Body::Shuffled { list } => Ok(Some(list)),
        _ => Ok(None),
    }
}

// Whether the vote of a slot is yes.
pub(crate) fn is_yes(alloc: Global, log: &StageLog, slot: Slot) -> Mem<bool>
    ensures { IfOk result (λ vote. vote ≡ is_yes (body_kept log.now slot)) }
{
    match body_in(alloc, log, slot)? {
        Body::Go { yes } | Body::Check { yes } => Ok(yes),
        _ => Ok(false),
    }
}
