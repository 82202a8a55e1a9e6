//! The forms of lines.

ghost use Rattle.std.specs.Prelude.{◌≡◌, ◌<◌, ◌≤◌, bytes_eq, option_map, IfOk, IfSome};
ghost use Rattle.std.specs.List.{list_any};
ghost use Rattle.phase_message.specs.Stages.{shape_of};
ghost use Rattle.round_script.specs.Forms.{digit_of, number_of, is_upper_case, seed_of, is_message_length, message_of, behind_member, fault_line_of, drop_line, slot_dropped, repeat_of};

use crate::fault::Fault;
use crate::lines::behind;
use crate::script::{FaultLine, MESSAGE_LIMIT};
use hex::{FromHex, FromHexError};
use phase_message::{Shape, Slot, is_slot};
use std::alloc::{AllocError, Global};
use wire_core::List;

/// The number of one digit between two others.
pub(crate) fn digit_of(least: u8, most: u8, digits: &[u8]) -> Option<u8>
    requires least { least ≤ 9 }
    requires most { most ≤ 9 }
    ensures value { result ≡ digit_of least most digits.now }
    ensures between { IfSome result (λ digit. (least ≤ digit) × (digit ≤ most)) }
{
    match digits {
        [digit] if b'0' + least <= *digit && *digit <= b'0' + most => Some(*digit - b'0'),
        _ => None,
    }
}

/// The number that decimal digits spell, of which the first is not 0.
#[tactic(auto, using(crate::proofs::NumberLemmas::number_of_no_text))]
pub(crate) fn number_of(digits: &[u8]) -> Option<u64>
    ensures { result ≡ number_of digits.now }
{
    match std::str::from_utf8(digits) {
        Ok(text) => number_in(text),
        Err(_) => None,
    }
}

#[tactic(auto, unfolding(crate::specs::Forms::number_of))]
fn number_in(text: &str) -> Option<u64>
    ensures { result ≡ number_of text.now }
{
    match text.as_bytes() {
        [first, ..] if *first > b'0' => text.parse().ok(),
        _ => None,
    }
}

/// The 32 bytes of 64 lower-case hexadecimal digits.
#[tactic(auto, unfolding(crate::specs::Forms::seed_of))]
pub(crate) fn seed_of(digits: &[u8]) -> Option<[u8; 32]>
    ensures { result ≡ seed_of digits.now }
{
    if has_upper_case(digits) {
        return None;
    }
    <[u8; 32] as FromHex>::from_hex(digits).ok()
}

// Whether an upper-case letter is among the digits.
fn has_upper_case(digits: &[u8]) -> bool
    ensures { result ≡ list_any is_upper_case digits.now }
{
    digits.iter().any(|byte| b'A' <= *byte && *byte <= b'Z')
}

// Whether a message can have so many digits.
fn is_message_length(digits: usize) -> bool
    ensures { result ≡ is_message_length digits }
{
    0 < digits && digits <= 2 * MESSAGE_LIMIT as usize
}

/// The bytes of a message: `-` for the empty one, else lower-case hexadecimal digits.
#[tactic(auto, unfolding(crate::specs::Forms::message_of))]
pub(crate) fn message_of(alloc: Global, digits: &[u8]) -> Result<Option<List<u8>>, AllocError>
    ensures { IfOk result (λ message. message ≡ message_of digits.now) }
{
    if digits == b"-".as_slice() {
        return Ok(Some(List::of(Vec::new(alloc))));
    }
    if !is_message_length(digits.len()) || has_upper_case(digits) {
        return Ok(None);
    }
    match hex::decode(alloc, digits) {
        Ok(bytes) => Ok(Some(List::of(bytes))),
        Err(FromHexError::OutOfMemory) => Err(AllocError),
        Err(_) => Ok(None),
    }
}

/// What follows a word and a member's number in a line.
pub(crate) fn behind_member<'a>(word: &[u8], member: u8, line: &'a [u8]) -> Option<&'a [u8]>
    requires { member ≤ 8 }
    ensures { option_map (λ rest. rest.now) result ≡ behind_member word.now member line.now }
{
    behind(&[b'0' + member, b' '], behind(word, line)?)
}

/// The faulty member of this number, where the line names it with a fault.
#[tactic(auto, unfolding(crate::specs::Forms::fault_line_of))]
pub(crate) fn fault_line_of(member: u8, line: &[u8]) -> Option<FaultLine>
    requires { member ≤ 8 }
    ensures { result ≡ fault_line_of member line.now }
{
    let fault = Fault::of_name(behind_member(b"fault ", member, line)?)?;
    Some(FaultLine { member, fault })
}

/// The slot of a rank, where the round has it and the line names it.
#[tactic(auto, unfolding(crate::specs::Forms::slot_dropped))]
pub(crate) fn slot_dropped(shape: Shape, rank: u8, line: &[u8]) -> Option<Slot>
    ensures { result ≡ slot_dropped (shape_of shape) rank line.now }
{
    let slot = Slot {
        stage: rank / 8,
        sender: rank % 8 + 1,
    };
    if is_slot(shape, slot) && is_drop_line(slot, line) {
        Some(slot)
    } else {
        None
    }
}

// Whether a line says that the posts of a slot do not arrive.
#[tactic(auto, unfolding(crate::specs::Forms::drop_line))]
fn is_drop_line(slot: Slot, line: &[u8]) -> bool
    requires stage { slot.stage < 100 }
    requires sender { slot.sender ≤ 8 }
    ensures { result ≡ bytes_eq line.now (drop_line slot.stage slot.sender) }
{
    let sender = b'0' + slot.sender;
    if slot.stage < 10 {
        line == [
            b'd',
            b'r',
            b'o',
            b'p',
            b' ',
            b'0' + slot.stage,
            b' ',
            sender,
        ]
        .as_slice()
    } else {
        let tens = b'0' + slot.stage / 10;
        let ones = b'0' + slot.stage % 10;
        line == [b'd', b'r', b'o', b'p', b' ', tens, ones, b' ', sender].as_slice()
    }
}

/// How often each post arrives, by the line that says so.
#[tactic(auto, unfolding(crate::specs::Forms::repeat_of))]
pub(crate) fn repeat_of(line: &[u8]) -> Option<u8>
    ensures { result ≡ repeat_of line.now }
{
    digit_of(1, 9, behind(b"repeat ", line)?)
}
