//! What is printed: the output of each command, or the line of a status.
ghost use Rattle.std.specs.Prelude.{◌≡◌, ◌≢◌, ◌≤◌, IfOk};
ghost use Rattle.outside.specs.Faults.{Rose};
ghost use Rattle.outside.specs.Changes.{change_of};
ghost use Rattle.group_roster.specs.Given.{roster_of};
ghost use Rattle.offline_commands.specs.Outside.{GainsFirstOf};
ghost use Rattle.offline_commands.specs.Outcome.{key_line, accepted_line, id_line};
ghost use Rattle.offline_commands.specs.Delivery.{DeliversText, answer_bytes, status_of, text_of};
ghost use Rattle.offline_commands.specs.Status.{status_line};
ghost use Rattle.offline_commands.specs.Promise.{IsPrinted};

use crate::interfaces::{Sink, SinkAnswer};
use crate::status::Status;
use group_roster::Roster;
use judge_core::Accepted;
use lms_tree::LmsPublic;
use std::alloc::{AllocError, Global};

// The output of `judge`.
pub(crate) fn accepted_text(alloc: Global, accepted: Accepted) -> Result<Vec<u8>, AllocError>
    ensures { IfOk result (λ text. text.items ≡ accepted_line accepted) }
{
    let accused = accepted.accused;
    let claim = accepted.claim;
    let text = format!(in alloc; "accepted member {accused} claim {claim}\n")?;
    Ok(text.into_bytes())
}

// The output of `roster`.
pub(crate) fn id_text(alloc: Global, roster: &Roster) -> Result<Vec<u8>, AllocError>
    ensures { IfOk result (λ text. text.items ≡ id_line (roster_of roster.now)) }
{
    let digits = hex::encode(alloc, roster.id())?;
    let text = format!(in alloc; "{digits}\n")?;
    Ok(text.into_bytes())
}

// The output of `keygen`.
pub(crate) fn key_text(alloc: Global, key: &LmsPublic) -> Result<Vec<u8>, AllocError>
    ensures { IfOk result (λ text. text.items ≡ key_line key.now) }
{
    let digits = hex::encode(alloc, key.bytes())?;
    let text = format!(in alloc; "{digits}\n")?;
    Ok(text.into_bytes())
}

// Prints the output of a command, or the line of the status that ended it.
pub fn print<O: Sink>(alloc: Global, answer: Result<Vec<u8>, Status>, out: &mut O) -> Status
    ensures { IsPrinted (change_of O.faults O.told out.old out.new) (answer_bytes answer) result }
{
    // The line that is left to print when memory is gone.
    let Ok(last_line) = Status::OutOfMemory.line(alloc) else {
        return Status::OutOfMemory;
    };
    match worded(alloc, answer) {
        Ok((status, text)) => print_text(status, &text, &last_line, out),
        Err(AllocError) => print_last(&last_line, out),
    }
}

// What there is to print for an answer, under its status.
fn worded(alloc: Global, answer: Result<Vec<u8>, Status>) -> Result<(Status, Vec<u8>), AllocError>
    ensures status { IfOk result (λ worded. worded.0 ≡ status_of (answer_bytes answer)) }
    ensures text { IfOk result (λ worded. worded.1.items ≡ text_of (answer_bytes answer)) }
    ensures memory { IfOk result (λ worded. worded.0 ≢ Status.OutOfMemory) }
{
    match answer {
        Ok(output) => Ok((Status::Done, output)),
        Err(Status::OutOfMemory) => Err(AllocError),
        Err(status) => Ok((status, status.line(alloc)?)),
    }
}

// Prints a text in one piece.
fn print_text<O: Sink>(status: Status, text: &Vec<u8>, last_line: &Vec<u8>, out: &mut O) -> Status
    requires memory { status ≢ Status.OutOfMemory }
    requires last { last_line.now.items ≡ status_line Status.OutOfMemory }
    ensures delivers { DeliversText (Rose (O.faults out.old) (O.faults out.new)) (O.told out.old) (O.told out.new)
        status text.now.items result }
    ensures no_fall { O.faults out.old ≤ O.faults out.new }
{
    match out.write(text) {
        SinkAnswer::Written => status,
        SinkAnswer::Failed => Status::WriteFault,
        SinkAnswer::OutOfMemory => print_last(last_line, out),
    }
}

// Prints the line that says that memory is gone, or as much of it as the sink takes.
fn print_last<O: Sink>(last_line: &Vec<u8>, out: &mut O) -> Status
    ensures status { result ≡ Status.OutOfMemory }
    ensures part { GainsFirstOf (O.told out.old) (O.told out.new) last_line.now.items }
    ensures no_fall { O.faults out.old ≤ O.faults out.new }
{
    // The status says it even where the line can't be printed.
    let _ = out.write(last_line);
    Status::OutOfMemory
}
