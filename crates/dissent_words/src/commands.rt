//! Each command, by what its words give.
ghost use Rattle.std.specs.Prelude.{◌≡◌, IfOk, map, string_bytes};
ghost use Rattle.dissent_words.specs.Request.{Reads, request_of};
ghost use Rattle.dissent_words.specs.Forms.{keygen_request, roster_request, show_request, judge_request, group_request, make_request, member_request, live_request};
ghost use Rattle.dissent_words.specs.Views.{given_of};

use crate::command::Command;
use crate::numbers::{read_height, read_number, read_width};
use crate::refusal::WordsRefusal;
use crate::values::GivenWords;
use std::alloc::{AllocError, Global};

/// The command `keygen`.
#[tactic(auto, using(crate::proofs::Requests::other_three))]
pub(crate) fn keygen(alloc: Global, given: &GivenWords<'_>) -> Result<Command, WordsRefusal>
    ensures { Reads request_of result (keygen_request (given_of given.now)) }
{
    let [key, height, width] = given.values.as_slice() else {
        return Err(WordsRefusal::Usage);
    };
    let Some(height) = read_height(height) else {
        return Err(WordsRefusal::Usage);
    };
    let Some(width) = read_width(width) else {
        return Err(WordsRefusal::Usage);
    };
    let key = String::from_str(alloc, key)?;
    Ok(Command::Keygen { key, height, width })
}

/// The command `roster`.
#[tactic(auto, using(crate::proofs::Requests::other_two))]
pub(crate) fn roster(alloc: Global, given: &GivenWords<'_>) -> Result<Command, WordsRefusal>
    ensures { Reads request_of result (roster_request (given_of given.now)) }
{
    let [toml, out] = given.values.as_slice() else {
        return Err(WordsRefusal::Usage);
    };
    let toml = String::from_str(alloc, toml)?;
    let out = String::from_str(alloc, out)?;
    Ok(Command::Roster { toml, out })
}

/// The command `show`.
#[tactic(auto, using(crate::proofs::Requests::other_three))]
pub(crate) fn show(alloc: Global, given: &GivenWords<'_>) -> Result<Command, WordsRefusal>
    ensures { Reads request_of result (show_request (given_of given.now)) }
{
    let [roster, round, post] = given.values.as_slice() else {
        return Err(WordsRefusal::Usage);
    };
    let Some(round) = read_number(round, 1, u64::MAX) else {
        return Err(WordsRefusal::Usage);
    };
    let roster = String::from_str(alloc, roster)?;
    let post = String::from_str(alloc, post)?;
    Ok(Command::Show {
        roster,
        round,
        post,
    })
}

/// The command `judge`.
#[tactic(auto, using(crate::proofs::Requests::other_two))]
pub(crate) fn judge(alloc: Global, given: &GivenWords<'_>) -> Result<Command, WordsRefusal>
    ensures { Reads request_of result (judge_request (given_of given.now)) }
{
    let [roster, transcript] = given.values.as_slice() else {
        return Err(WordsRefusal::Usage);
    };
    let roster = String::from_str(alloc, roster)?;
    let transcript = String::from_str(alloc, transcript)?;
    Ok(Command::Judge { roster, transcript })
}

/// The command `group`.
#[tactic(auto, using(crate::proofs::Requests::other_three))]
pub(crate) fn group(alloc: Global, given: &GivenWords<'_>) -> Result<Command, WordsRefusal>
    ensures { Reads request_of result (group_request (given_of given.now)) }
{
    let [script, roster, transcript] = given.values.as_slice() else {
        return Err(WordsRefusal::Usage);
    };
    let script = String::from_str(alloc, script)?;
    let roster = String::from_str(alloc, roster)?;
    let transcript = String::from_str(alloc, transcript)?;
    Ok(Command::Group {
        script,
        roster,
        transcript,
    })
}

/// The command `make`.
#[tactic(auto, using(crate::proofs::Requests::other_four))]
pub(crate) fn make(alloc: Global, given: &GivenWords<'_>) -> Result<Command, WordsRefusal>
    ensures { Reads request_of result (make_request (given_of given.now)) }
{
    let [number, members, bytes, fault] = given.values.as_slice() else {
        return Err(WordsRefusal::Usage);
    };
    let Some(number) = read_number(number, 0, u64::MAX) else {
        return Err(WordsRefusal::Usage);
    };
    let Some(members) = read_number(members, 2, 8) else {
        return Err(WordsRefusal::Usage);
    };
    let Some(bytes) = read_number(bytes, 0, 65_536) else {
        return Err(WordsRefusal::Usage);
    };
    let fault = String::from_str(alloc, fault)?;
    Ok(Command::Make {
        number,
        members: members as u8,
        bytes: bytes as u32,
        fault,
    })
}

/// The command `member`.
#[tactic(auto, using(crate::proofs::Requests::other_six))]
pub(crate) fn member(alloc: Global, given: &GivenWords<'_>) -> Result<Command, WordsRefusal>
    ensures { Reads request_of result (member_request (given_of given.now)) }
{
    let [roster, key, round, message, transcript, wait] = given.values.as_slice() else {
        return Err(WordsRefusal::Usage);
    };
    let Some(round) = read_number(round, 1, u64::MAX) else {
        return Err(WordsRefusal::Usage);
    };
    let Some(wait) = read_number(wait, 1, 3_600) else {
        return Err(WordsRefusal::Usage);
    };
    let roster = String::from_str(alloc, roster)?;
    let key = String::from_str(alloc, key)?;
    let message = String::from_str(alloc, message)?;
    let transcript = String::from_str(alloc, transcript)?;
    let addresses = owned(alloc, given.addresses.as_slice())?;
    Ok(Command::Member {
        roster,
        key,
        round,
        message,
        transcript,
        wait: wait as u16,
        addresses,
    })
}

/// The command `live`.
#[tactic(auto, using(crate::proofs::Requests::other_one))]
pub(crate) fn live(alloc: Global, given: &GivenWords<'_>) -> Result<Command, WordsRefusal>
    ensures { Reads request_of result (live_request (given_of given.now)) }
{
    let [script] = given.values.as_slice() else {
        return Err(WordsRefusal::Usage);
    };
    let script = String::from_str(alloc, script)?;
    Ok(Command::Live { script })
}

// The same texts, owned.
fn owned(alloc: Global, texts: &[&str]) -> Result<Vec<String>, AllocError>
    ensures { IfOk result (λ strings. map (λ s. string_bytes s) strings.items ≡ map (λ t. t.now) texts.now) }
{
    let mut strings = Vec::new(alloc);
    for text in texts {
        strings.push(String::from_str(alloc, text)?)?;
    }
    Ok(strings)
}
