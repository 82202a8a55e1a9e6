//! Making a script from a number.

ghost use Rattle.std.specs.Prelude.{◌≡◌, ◌≤◌, ◌∷◌, [], IfOk, map};
ghost use Rattle.std.specs.Int.{w64, to_be_bytes};
ghost use Rattle.std.specs.List.{range_with_len};
ghost use Rattle.round_script.specs.declared.script.TheConstants.{MESSAGE_LIMIT};
ghost use Rattle.round_script.specs.Made.{made_faults, made_message, made_script, made_seed};

use crate::fault::Fault;
use crate::script::{FaultLine, MESSAGE_LIMIT, Script};
use pad_stream::stream;
use std::alloc::Global;
use wire_core::{List, Mem, Register, Tag};

/// The script of a number: its seed and the messages, of `bytes` bytes each, are drawn from the number, and the fault
/// is that of member 1 + number mod N; for `Fault::None` no member is named. It is round 1, in which all posts arrive
/// once.
pub fn make_script(alloc: Global, number: u64, members: u8, bytes: u32, fault: Fault) -> Mem<Script>
    requires least { 2 ≤ members }
    requires most { members ≤ 8 }
    requires short { bytes ≤ MESSAGE_LIMIT }
    ensures { IfOk result (λ script. script ≡ made_script number members bytes fault) }
{
    let messages = made_messages(alloc, number, members, bytes)?;
    let faults = made_faults(alloc, number, members, fault)?;
    Ok(Script {
        version: 1,
        round: 1,
        seed: made_seed(number),
        messages: List::of(messages),
        faults: List::of(faults),
        drops: List::of(Vec::new(alloc)),
        repeat: None,
    })
}

// The seed of the script of a number.
fn made_seed(number: u64) -> [u8; 32]
    ensures { result ≡ made_seed number }
{
    let mut register = Register::new(Tag::MakeSeed);
    register.piece(&number.to_be_bytes());
    register.end()
}

// The messages of all members.
fn made_messages(alloc: Global, number: u64, members: u8, bytes: u32) -> Mem<Vec<List<u8>>>
    requires { members ≤ 8 }
    ensures { IfOk result (λ messages. messages.items ≡ map (made_message number bytes) (range_with_len 1 members)) }
{
    let mut messages = Vec::new(alloc);
    for i in 0..members {
        let message = made_message(alloc, number, i + 1, bytes)?;
        messages.push(List::of(message))?;
    }
    Ok(messages)
}

// The message of a member.
fn made_message(alloc: Global, number: u64, member: u8, bytes: u32) -> Mem<Vec<u8>>
    ensures { IfOk result (λ message. message.items ≡ made_message number bytes member) }
{
    let mut register = Register::new(Tag::MakeMessage);
    register.piece(&number.to_be_bytes());
    register.piece(&[member]);
    stream(alloc, &register.end(), bytes)
}

// The member with the fault.
fn made_faults(alloc: Global, number: u64, members: u8, fault: Fault) -> Mem<Vec<FaultLine>>
    requires least { 2 ≤ members }
    requires most { members ≤ 8 }
    ensures { IfOk result (λ faults. faults.items ≡ made_faults number members fault) }
{
    match fault {
        Fault::None => Ok(Vec::new(alloc)),
        _ => {
            let member = 1 + (number % u64::from(members)) as u8;
            Ok(vec![in alloc; FaultLine { member, fault }]?)
        }
    }
}
