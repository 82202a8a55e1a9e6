//! What `group` and `make` print, and the transcript that `group` writes.

ghost use Rattle.std.specs.Prelude.{◌≡◌, ◌++◌, IfOk, OnOk, find};
ghost use Rattle.std.specs.List.{flat_map};
ghost use Rattle.std.specs.Option.{option_copied, option_map};
ghost use Rattle.group_report.specs.Report.{evidence_seen, group_output, has_evidence, has_slots, make_output, member_line, slot_lines, slots_found};

use crate::counts::{put_members, put_messages};
use crate::lines::{put_member, put_slot};
use bulk_descriptor::SlotState;
use group_spec::MemberEnd;
use std::alloc::Global;
use wire_core::Mem;

/// What `group` prints of members: a line for each, and a line for each slot of the least honest one that is done.
pub fn group_text(alloc: Global, members: &Vec<MemberEnd>) -> Mem<Vec<u8>>
    ensures { IfOk result (λ text. text.items ≡ group_output members.now.items) }
{
    let mut text = Vec::new(alloc);
    put_all_members(alloc, &mut text, members)?;
    match slots_found(members) {
        Some(slots) => put_slots(alloc, &mut text, slots)?,
        None => put_slots(alloc, &mut text, &Vec::new(alloc))?,
    }
    Ok(text)
}

/// The lines of slots, a line each, numbered from 1.
pub fn slots_text(alloc: Global, slots: &Vec<SlotState>) -> Mem<Vec<u8>>
    ensures { IfOk result (λ text. text.items ≡ slot_lines 1 slots.now.items) }
{
    let mut text = Vec::new(alloc);
    put_slots(alloc, &mut text, slots)?;
    Ok(text)
}

/// What `make` prints of members: how many honest ones are done, open or blame somebody, and how many messages the
/// least honest one that is done has, with how many bytes.
pub fn make_text(alloc: Global, members: &Vec<MemberEnd>) -> Mem<Vec<u8>>
    ensures { IfOk result (λ text. text.items ≡ make_output members.now.items) }
{
    let mut text = Vec::new(alloc);
    put_members(alloc, &mut text, members)?;
    match slots_found(members) {
        Some(slots) => put_messages(alloc, &mut text, slots)?,
        None => put_messages(alloc, &mut text, &Vec::new(alloc))?,
    }
    Ok(text)
}

/// The transcript of the least honest member that blames somebody, if there is one.
pub fn evidence(members: &Vec<MemberEnd>) -> Option<&Vec<u8>>
    ensures { option_map (λ bytes. bytes.now.items) result ≡ evidence_seen members.now.items }
{
    match blaming(members) {
        Some(member) => evidence_of(member),
        None => None,
    }
}

// The least honest member that blames somebody.
fn blaming(members: &Vec<MemberEnd>) -> Option<&MemberEnd>
    ensures { option_copied result ≡ find has_evidence members.now.items }
{
    members.iter().find(|member| has_evidence(member))
}

fn evidence_of(member: &MemberEnd) -> Option<&Vec<u8>>
    ensures { option_map (λ bytes. bytes.now.items) result ≡ member.now.evidence }
{
    match &member.evidence {
        Some(bytes) => Some(bytes.items()),
        None => None,
    }
}

fn has_evidence(member: &MemberEnd) -> bool
    ensures { result ≡ has_evidence member.now }
{
    !member.faulty && member.evidence.is_some()
}

// The slots of the least honest member that is done, if there is one.
fn slots_found(members: &Vec<MemberEnd>) -> Option<&Vec<SlotState>>
    ensures { option_map (λ slots. slots.now.items) result ≡ slots_found members.now.items }
{
    match done(members) {
        Some(member) => slots_of(member),
        None => None,
    }
}

// The least honest member that is done.
fn done(members: &Vec<MemberEnd>) -> Option<&MemberEnd>
    ensures { option_copied result ≡ find has_slots members.now.items }
{
    members.iter().find(|member| has_slots(member))
}

fn slots_of(member: &MemberEnd) -> Option<&Vec<SlotState>>
    ensures { option_map (λ slots. slots.now.items) result ≡ member.now.slots }
{
    match &member.slots {
        Some(slots) => Some(slots.items()),
        None => None,
    }
}

fn has_slots(member: &MemberEnd) -> bool
    ensures { result ≡ has_slots member.now }
{
    !member.faulty && member.slots.is_some()
}

// Puts the lines of members behind a text.
fn put_all_members(alloc: Global, text: &mut Vec<u8>, members: &Vec<MemberEnd>) -> Mem<()>
    ensures { OnOk result (text.new.items ≡ text.old.items ++ flat_map member_line members.now.items) }
{
    for member in members {
        put_member(alloc, text, member)?;
    }
    Ok(())
}

// Puts the lines of slots behind a text.
fn put_slots(alloc: Global, text: &mut Vec<u8>, slots: &Vec<SlotState>) -> Mem<()>
    ensures { OnOk result (text.new.items ≡ text.old.items ++ slot_lines 1 slots.now.items) }
{
    for place in 0..slots.len() {
        put_slot(alloc, text, place + 1, &slots[place])?;
    }
    Ok(())
}
