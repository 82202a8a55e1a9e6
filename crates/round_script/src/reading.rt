//! Reading a script.

ghost use Rattle.std.specs.Prelude.{◌≡◌, ◌≤◌, ◌+◌, ◌-◌, IfOk, OnOk, map, option_map};
ghost use Rattle.phase_message.specs.Stages.{shape_of};
ghost use Rattle.wire_core.specs.Reading.{Gives, ReadsOr, reading_at, repeated};
ghost use Rattle.wire_core.specs.Reading.{with_front};
ghost use Rattle.round_script.specs.Forms.{fault_line_of, repeat_of, slot_dropped};
ghost use Rattle.round_script.specs.Given.{opening_of};
ghost use Rattle.round_script.specs.Lines.{bad_line, optional, optionals, preceded, ReadsAs};
ghost use Rattle.round_script.specs.Read.{drops_at, faults_at, further_of, message_at, message_in, opening_at, round_of, script_read, seed_in, shape_in, value_at, version_at};
ghost use Rattle.round_script.specs.Script.{IsScript};

use crate::forms::{
    behind_member, digit_of, fault_line_of, message_of, number_of, repeat_of, seed_of, slot_dropped,
};
use crate::lines::{Lines, behind};
use crate::refusal::ScriptRefusal;
use crate::script::{FaultLine, Script};
use phase_message::{Shape, Slot};
use std::alloc::{AllocError, Global};
use wire_core::List;

// What the lines say that each script has.
#[derive(Drop)]
pub(crate) struct Opening {
    pub shape: Shape,
    pub round: u64,
    pub seed: [u8; 32],
    pub messages: List<List<u8>>,
}

/// The script of some bytes: lines of ASCII text, each ended by a line feed, with single blanks, in this order.
/// `dissent-script 1`; `members N`, from 2 to 8; `round R`, from 1 to 2^64 - 1; `seed HEX`, 64 lower-case digits;
/// for each member I `message I HEX`, an even number of lower-case digits, at least 2 and at most 131,072, or `-` in
/// their place for the empty message; lines `fault I NAME`, rising in I; lines `drop STAGE SENDER` of slots, rising in
/// their order; and at most one line `repeat K`, from 1 to 9.
///
/// `BadLine` exactly where the bytes are no script: the number of the first line that is bad, from 1.
#[tactic(auto, unfolding(crate::specs::Read::script_read))]
pub fn parse_script(alloc: Global, bytes: &[u8]) -> Result<Script, ScriptRefusal>
    ensures exact { Gives bad_line (λ script. script) result (script_read bytes.now) }
    ensures found { IfOk result (λ script. IsScript script) }
{
    let mut lines = Lines::new(bytes);
    let opening = read_opening(alloc, &mut lines)?;
    read_further(alloc, opening, &mut lines)
}

// The lines that each script has.
#[tactic(auto, unfolding(crate::specs::Read::opening_at))]
fn read_opening(alloc: Global, lines: &mut Lines<'_>) -> Result<Opening, ScriptRefusal>
    requires { lines.old.place ≡ 1 }
    ensures { ReadsOr bad_line opening_of result lines.new (opening_at lines.old) }
{
    read_version(lines)?;
    let shape = read_shape(lines)?;
    let round = read_round(lines)?;
    let seed = read_seed(lines)?;
    let messages = read_messages(alloc, lines, shape.members)?;
    Ok(Opening {
        shape,
        round,
        seed,
        messages: List::of(messages),
    })
}

// The first line, which says the version.
#[tactic(auto, unfolding(crate::specs::Read::version_at))]
fn read_version(lines: &mut Lines<'_>) -> Result<(), ScriptRefusal>
    ensures read { ReadsAs bad_line result lines.new (version_at lines.old) }
    ensures next { OnOk result (lines.new.place ≡ lines.old.place + 1) }
{
    let number = lines.number();
    if lines.next()? == b"dissent-script 1".as_slice() {
        Ok(())
    } else {
        Err(ScriptRefusal::BadLine { line: number })
    }
}

// The shape of a round with as many members as the next line says.
#[tactic(auto, unfolding(crate::specs::Read::value_at))]
fn read_shape(lines: &mut Lines<'_>) -> Result<Shape, ScriptRefusal>
    ensures read { ReadsOr bad_line shape_of result lines.new (value_at shape_in lines.old) }
    ensures next { OnOk result (lines.new.place ≡ lines.old.place + 1) }
{
    let line = lines.number();
    shape_in(lines.next()?).ok_or(ScriptRefusal::BadLine { line })
}

fn shape_in(line: &[u8]) -> Option<Shape>
    ensures { option_map shape_of result ≡ shape_in line.now }
{
    let members = digit_of(2, 8, behind(b"members ", line)?)?;
    Some(Shape {
        version: 1,
        members,
    })
}

// The round's number.
#[tactic(auto, unfolding(crate::specs::Read::value_at))]
fn read_round(lines: &mut Lines<'_>) -> Result<u64, ScriptRefusal>
    ensures read { ReadsOr bad_line (λ round. round) result lines.new (value_at round_of lines.old) }
    ensures next { OnOk result (lines.new.place ≡ lines.old.place + 1) }
{
    let line = lines.number();
    round_in(lines.next()?).ok_or(ScriptRefusal::BadLine { line })
}

fn round_in(line: &[u8]) -> Option<u64>
    ensures { result ≡ round_of line.now }
{
    number_of(behind(b"round ", line)?)
}

// The seed.
#[tactic(auto, unfolding(crate::specs::Read::value_at))]
fn read_seed(lines: &mut Lines<'_>) -> Result<[u8; 32], ScriptRefusal>
    ensures read { ReadsOr bad_line (λ seed. seed) result lines.new (value_at seed_in lines.old) }
    ensures next { OnOk result (lines.new.place ≡ lines.old.place + 1) }
{
    let line = lines.number();
    seed_in(lines.next()?).ok_or(ScriptRefusal::BadLine { line })
}

fn seed_in(line: &[u8]) -> Option<[u8; 32]>
    ensures { result ≡ seed_in line.now }
{
    seed_of(behind(b"seed ", line)?)
}

// The messages of so many members, of which the first stands in the next line.
fn read_messages(
    alloc: Global,
    lines: &mut Lines<'_>,
    members: u8,
) -> Result<Vec<List<u8>>, ScriptRefusal>
    requires most { members ≤ 8 }
    requires fifth { lines.old.place ≡ 5 }
    ensures { ReadsOr bad_line (λ messages. messages.items) result lines.new (repeated members message_at lines.old) }
{
    let mut messages = Vec::new(alloc);
    for i in 0..members {
        let message = read_message(alloc, lines, i + 1)?;
        messages.push(message)?;
    }
    Ok(messages)
}

// The message of the member whose line is the next.
#[tactic(auto, unfolding(crate::specs::Read::value_at))]
fn read_message(alloc: Global, lines: &mut Lines<'_>, member: u8) -> Result<List<u8>, ScriptRefusal>
    requires most { member ≤ 8 }
    requires line { lines.old.place ≡ member + 4 }
    ensures read { ReadsOr bad_line (λ message. message) result lines.new (message_at lines.old) }
    ensures next { OnOk result (lines.new.place ≡ lines.old.place + 1) }
{
    let line = lines.number();
    let message = message_in(alloc, member, lines.next()?)?;
    message.ok_or(ScriptRefusal::BadLine { line })
}

fn message_in(alloc: Global, member: u8, line: &[u8]) -> Result<Option<List<u8>>, AllocError>
    requires { member ≤ 8 }
    ensures { IfOk result (λ message. message ≡ message_in member line.now) }
{
    match behind_member(b"message ", member, line) {
        Some(digits) => message_of(alloc, digits),
        None => Ok(None),
    }
}

// The script of an opening and the lines that may follow it.
#[tactic(auto, unfolding(crate::specs::Read::further_of))]
fn read_further(
    alloc: Global,
    opening: Opening,
    lines: &mut Lines<'_>,
) -> Result<Script, ScriptRefusal>
    ensures { Gives bad_line (λ script. script) result (further_of (opening_of opening) lines.old) }
{
    let faults = read_faults(alloc, lines, opening.shape)?;
    let drops = read_drops(alloc, lines, opening.shape)?;
    let repeat = read_repeat(lines);
    if !lines.is_done() {
        return Err(ScriptRefusal::BadLine {
            line: lines.number(),
        });
    }
    let seed = opening.seed;
    Ok(Script {
        version: 1,
        round: opening.round,
        seed,
        messages: opening.messages,
        faults: List::of(faults),
        drops: List::of(drops),
        repeat,
    })
}

// The faulty members.
fn read_faults(
    alloc: Global,
    lines: &mut Lines<'_>,
    shape: Shape,
) -> Result<Vec<FaultLine>, AllocError>
    ensures { IfOk result (λ faults. (faults.items, lines.new) ≡ faults_at shape.members lines.old) }
{
    let mut faults = Vec::new(alloc);
    for i in 0..shape.members {
        if let Some(fault) = read_fault(lines, i + 1) {
            faults.push(fault)?;
        }
    }
    Ok(faults)
}

// The faulty member of this number, where the next line names it.
#[tactic(auto, unfolding(crate::specs::Lines::optional))]
fn read_fault(lines: &mut Lines<'_>, member: u8) -> Option<FaultLine>
    requires { member ≤ 8 }
    ensures { (result, lines.new) ≡ optional (fault_line_of member) lines.old }
{
    let line = lines.peek()?;
    let fault = fault_line_of(member, line)?;
    lines.skip(line);
    Some(fault)
}

// The slots whose posts do not arrive.
fn read_drops(alloc: Global, lines: &mut Lines<'_>, shape: Shape) -> Result<Vec<Slot>, AllocError>
    ensures { IfOk result (λ drops. (drops.items, lines.new) ≡ drops_at (shape_of shape) lines.old) }
{
    let mut drops = Vec::new(alloc);
    for rank in 0..8 * (2 * shape.members + 10) {
        if let Some(slot) = read_drop(lines, shape, rank) {
            drops.push(slot)?;
        }
    }
    Ok(drops)
}

// The slot of a rank, where the next line names it.
#[tactic(auto, unfolding(crate::specs::Lines::optional))]
fn read_drop(lines: &mut Lines<'_>, shape: Shape, rank: u8) -> Option<Slot>
    ensures { (result, lines.new) ≡ optional (slot_dropped (shape_of shape) rank) lines.old }
{
    let line = lines.peek()?;
    let slot = slot_dropped(shape, rank, line)?;
    lines.skip(line);
    Some(slot)
}

// How often each post arrives, where the next line says so.
#[tactic(auto, unfolding(crate::specs::Lines::optional))]
fn read_repeat(lines: &mut Lines<'_>) -> Option<u8>
    ensures { (result, lines.new) ≡ optional repeat_of lines.old }
{
    let line = lines.peek()?;
    let repeat = repeat_of(line)?;
    lines.skip(line);
    Some(repeat)
}
