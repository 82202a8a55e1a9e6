//! The lines of members and of slots.

ghost use Rattle.std.specs.Prelude.{◌≡◌, ◌≤◌, ◌++◌, IfOk, OnOk, string_bytes};
ghost use Rattle.group_report.specs.Report.{is_set, listed, listed_members, listed_to, member_line, member_words, message_digits, slot_line, slot_words, state_words};

use bulk_descriptor::SlotState;
use group_spec::MemberEnd;
use hex::encode;
use member_spec::State;
use std::alloc::Global;
use transcript_form::Claim;
use wire_core::{List, Mem, put_bytes};

/// Puts the line of a member behind a text.
#[tactic(auto, unfolding(crate::specs::Report::member_line))]
pub(crate) fn put_member(alloc: Global, text: &mut Vec<u8>, member: &MemberEnd) -> Mem<()>
    ensures { OnOk result (text.new.items ≡ text.old.items ++ member_line member.now) }
{
    let number = member.number;
    let front = format!(in alloc; "member {number} ")?;
    put_bytes(text, front.as_bytes())?;
    let words = member_words(alloc, member)?;
    put_bytes(text, &words)?;
    put_bytes(text, &[b'\n'])
}

// What is told of a member.
fn member_words(alloc: Global, member: &MemberEnd) -> Mem<Vec<u8>>
    ensures { IfOk result (λ text. text.items ≡ member_words member.now) }
{
    if member.faulty {
        Ok(format!(in alloc; "faulty")?.into_bytes())
    } else {
        state_words(alloc, member.state)
    }
}

// How a round stands for a member.
fn state_words(alloc: Global, state: State) -> Mem<Vec<u8>>
    ensures { IfOk result (λ text. text.items ≡ state_words state) }
{
    match state {
        State::Waiting { stage, missing } => open_text(alloc, stage, missing),
        State::Done => Ok(format!(in alloc; "done")?.into_bytes()),
        State::Blamed { accused, claim } => blamed_words(alloc, accused, claim),
        State::Stopped => Ok(format!(in alloc; "stopped")?.into_bytes()),
    }
}

// Whom it blames, and of what.
fn blamed_words(alloc: Global, accused: u8, claim: Claim) -> Mem<Vec<u8>>
    ensures { IfOk result (λ text. text.items ≡ state_words (State.Blamed accused claim)) }
{
    let mut text = format!(in alloc; "blames {accused} ")?.into_bytes();
    let name = format!(in alloc; "{claim}")?;
    put_bytes(&mut text, name.as_bytes())?;
    Ok(text)
}

/// At which stage a round waits, and for whom: `open stage S missing I,J`.
pub fn open_text(alloc: Global, stage: u8, missing: u32) -> Mem<Vec<u8>>
    ensures { IfOk result (λ text. text.items ≡ state_words (State.Waiting stage missing)) }
{
    let mut text = format!(in alloc; "open stage {stage} missing ")?.into_bytes();
    let members = listed_members(alloc, missing)?;
    put_bytes(&mut text, &members)?;
    Ok(text)
}

// The digits of the members whose bits are set, with commas between them.
fn listed_members(alloc: Global, bits: u32) -> Mem<Vec<u8>>
    ensures { IfOk result (λ text. text.items ≡ listed_members bits) }
{
    let mut text = listed_with_commas(alloc, bits)?;
    if text.len() > 0 {
        let _comma = text.remove(0);
    }
    Ok(text)
}

// The same with a comma before each.
fn listed_with_commas(alloc: Global, bits: u32) -> Mem<Vec<u8>>
    ensures { IfOk result (λ text. text.items ≡ listed_to bits 8) }
{
    let mut text = Vec::new(alloc);
    for member in 1..9u8 {
        put_listed(&mut text, bits, member)?;
    }
    Ok(text)
}

// Puts a comma and the digit of a member behind a text, if its bit is set.
#[tactic(auto, unfolding(crate::specs::Report::listed))]
fn put_listed(text: &mut Vec<u8>, bits: u32, member: u8) -> Mem<()>
    requires least { 1 ≤ member }
    requires most { member ≤ 8 }
    ensures { OnOk result (text.new.items ≡ text.old.items ++ listed bits member) }
{
    if is_set(bits, member) {
        put_bytes(text, &[b',', b'0' + member])?;
    }
    Ok(())
}

// Whether the bit of a member is set.
fn is_set(bits: u32, member: u8) -> bool
    requires least { 1 ≤ member }
    requires most { member ≤ 8 }
    ensures { result ≡ is_set bits member }
{
    (bits >> (member - 1)) % 2 == 1
}

/// Puts the line of a slot behind a text.
#[tactic(auto, unfolding(crate::specs::Report::slot_line))]
pub(crate) fn put_slot(
    alloc: Global,
    text: &mut Vec<u8>,
    number: usize,
    slot: &SlotState,
) -> Mem<()>
    ensures { OnOk result (text.new.items ≡ text.old.items ++ slot_line number slot.now) }
{
    let front = format!(in alloc; "slot {number} ")?;
    put_bytes(text, front.as_bytes())?;
    let words = slot_words(alloc, slot)?;
    put_bytes(text, &words)?;
    put_bytes(text, &[b'\n'])
}

// What a slot comes to.
fn slot_words(alloc: Global, slot: &SlotState) -> Mem<Vec<u8>>
    ensures { IfOk result (λ text. text.items ≡ slot_words slot.now) }
{
    match slot {
        SlotState::Empty => Ok(format!(in alloc; "empty")?.into_bytes()),
        SlotState::Bad { first } => Ok(format!(in alloc; "bad {first}")?.into_bytes()),
        SlotState::Mismatched => Ok(format!(in alloc; "mismatched")?.into_bytes()),
        SlotState::Message(bytes) => message_words(alloc, bytes),
    }
}

// How many bytes a message has, and which.
fn message_words(alloc: Global, bytes: &List<u8>) -> Mem<Vec<u8>>
    ensures { IfOk result (λ text. text.items ≡ slot_words (SlotState.Message bytes.now)) }
{
    let size = bytes.items().len();
    let mut text = format!(in alloc; "message {size} ")?.into_bytes();
    let digits = message_digits(alloc, bytes)?;
    put_bytes(&mut text, digits.as_bytes())?;
    Ok(text)
}

// The bytes of a message in digits.
#[tactic(auto, unfolding(crate::specs::Report::message_digits))]
fn message_digits(alloc: Global, bytes: &List<u8>) -> Mem<String>
    ensures { IfOk result (λ text. string_bytes text ≡ message_digits bytes.now) }
{
    if bytes.items().len() == 0 {
        format!(in alloc; "-")
    } else {
        encode(alloc, bytes.items())
    }
}
