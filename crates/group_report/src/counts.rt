//! How many members stand so, and how many messages there are.

ghost use Rattle.std.specs.Prelude.{◌≡◌, ◌+◌, ◌++◌, IfOk, OnOk};
ghost use Rattle.std.specs.List.{count_by, sum_by};
ghost use Rattle.group_report.specs.Report.{honest_count, is_blamed, is_done, is_honest, is_message, is_open, members_line, message_size, messages_line};

use bulk_descriptor::SlotState;
use group_spec::MemberEnd;
use member_spec::State;
use std::alloc::{AllocError, Global};
use wire_core::{Mem, put_bytes};

/// Puts the line of what honest members came to behind a text.
#[tactic(auto, unfolding(crate::specs::Report::members_line))]
pub(crate) fn put_members(alloc: Global, text: &mut Vec<u8>, members: &Vec<MemberEnd>) -> Mem<()>
    ensures { OnOk result (text.new.items ≡ text.old.items ++ members_line members.now.items) }
{
    let all = members.len();
    let done = done_count(members);
    let open = open_count(members);
    let blamed = blamed_count(members);
    let line = format!(in alloc; "members {all} done {done} open {open} blamed {blamed}\n")?;
    put_bytes(text, line.as_bytes())
}

fn done_count(members: &Vec<MemberEnd>) -> usize
    ensures { result ≡ honest_count is_done members.now.items }
{
    members
        .iter()
        .filter(|member| is_honest_done(member))
        .count()
}

fn is_honest_done(member: &MemberEnd) -> bool
    ensures { result ≡ is_honest is_done member.now }
{
    !member.faulty && matches!(member.state, State::Done)
}

fn open_count(members: &Vec<MemberEnd>) -> usize
    ensures { result ≡ honest_count is_open members.now.items }
{
    members
        .iter()
        .filter(|member| is_honest_open(member))
        .count()
}

fn is_honest_open(member: &MemberEnd) -> bool
    ensures { result ≡ is_honest is_open member.now }
{
    !member.faulty && matches!(member.state, State::Waiting { .. })
}

fn blamed_count(members: &Vec<MemberEnd>) -> usize
    ensures { result ≡ honest_count is_blamed members.now.items }
{
    members
        .iter()
        .filter(|member| is_honest_blamed(member))
        .count()
}

fn is_honest_blamed(member: &MemberEnd) -> bool
    ensures { result ≡ is_honest is_blamed member.now }
{
    !member.faulty && matches!(member.state, State::Blamed { .. })
}

/// Puts the line of the messages of slots behind a text.
#[tactic(auto, unfolding(crate::specs::Report::messages_line))]
pub(crate) fn put_messages(alloc: Global, text: &mut Vec<u8>, slots: &Vec<SlotState>) -> Mem<()>
    ensures { OnOk result (text.new.items ≡ text.old.items ++ messages_line slots.now.items) }
{
    let count = message_count(slots);
    let size = message_bytes(slots)?;
    let line = format!(in alloc; "messages {count} bytes {size}\n")?;
    put_bytes(text, line.as_bytes())
}

fn message_count(slots: &Vec<SlotState>) -> usize
    ensures { result ≡ count_by is_message slots.now.items }
{
    slots.iter().filter(|slot| is_message(slot)).count()
}

fn is_message(slot: &SlotState) -> bool
    ensures { result ≡ is_message slot.now }
{
    matches!(slot, SlotState::Message(_))
}

// How many bytes all messages have. That many bytes are in memory, so the sum does not leave its type.
fn message_bytes(slots: &Vec<SlotState>) -> Mem<u64>
    ensures { IfOk result (λ size. size ≡ sum_by message_size slots.now.items) }
{
    let mut size = 0u64;
    for place in 0..slots.len() {
        let sum = added(size, message_size(&slots[place]))?;
        size = sum;
    }
    Ok(size)
}

fn added(size: u64, more: u64) -> Mem<u64>
    ensures { IfOk result (λ sum. sum ≡ size + more) }
{
    match size.checked_add(more) {
        Some(sum) => Ok(sum),
        None => Err(AllocError),
    }
}

fn message_size(slot: &SlotState) -> u64
    ensures { result ≡ message_size slot.now }
{
    match slot {
        SlotState::Message(bytes) => bytes.items().len() as u64,
        _ => 0,
    }
}
