//! The words of each command.
ghost use Rattle.std.specs.Prelude.{◌≡◌, false, Err};
ghost use Rattle.dissent_words.specs.Request.{Reads, request_of, texts};
ghost use Rattle.dissent_words.specs.Forms.{requested, request_by, names_command, keygen_form, roster_form, show_form, judge_form, group_form, make_form, member_form, live_form};
ghost use Rattle.dissent_words.specs.declared.refusal.WordsRefusal.TheVariants.{Usage};

use crate::command::Command;
use crate::commands::{group, judge, keygen, live, make, member, roster, show};
use crate::refusal::WordsRefusal;
use crate::values::given_words;
use std::alloc::Global;

/// The command that the words ask for. The first word names it, and clap reads the others: each option of the command
/// once, as `--option value` or `--option=value`, in any order, and for `member` one or more addresses.
///
/// # Errors
/// `Usage` where the first word names no command, where clap refuses the others, and where a word does not spell the
/// number that is wanted there, in decimal digits without a leading 0 and in its range. `Memory` where memory runs out.
pub fn read_words(alloc: Global, words: &Vec<String>) -> Result<Command, WordsRefusal>
    ensures exact { Reads request_of result (requested (texts words.now.items)) }
    ensures unknown { names_command (texts words.now.items) ≡ false → result ≡ Err Usage }
{
    let [name, words @ ..] = words.as_slice() else {
        return Err(WordsRefusal::Usage);
    };
    match name.as_str() {
        "keygen" => keygen_words(alloc, words),
        "roster" => roster_words(alloc, words),
        "show" => show_words(alloc, words),
        "judge" => judge_words(alloc, words),
        "group" => group_words(alloc, words),
        "make" => make_words(alloc, words),
        "member" => member_words(alloc, words),
        "live" => live_words(alloc, words),
        _ => Err(WordsRefusal::Usage),
    }
}

// The command `keygen`, by the words behind its name.
fn keygen_words(alloc: Global, words: &[String]) -> Result<Command, WordsRefusal>
    ensures { Reads request_of result (request_by keygen_form (texts words.now)) }
{
    let given = given_words(alloc, &["key", "height", "width"], false, words)?;
    keygen(alloc, &given)
}

// The command `roster`, by the words behind its name.
fn roster_words(alloc: Global, words: &[String]) -> Result<Command, WordsRefusal>
    ensures { Reads request_of result (request_by roster_form (texts words.now)) }
{
    let given = given_words(alloc, &["toml", "out"], false, words)?;
    roster(alloc, &given)
}

// The command `show`, by the words behind its name.
fn show_words(alloc: Global, words: &[String]) -> Result<Command, WordsRefusal>
    ensures { Reads request_of result (request_by show_form (texts words.now)) }
{
    let given = given_words(alloc, &["roster", "round", "post"], false, words)?;
    show(alloc, &given)
}

// The command `judge`, by the words behind its name.
fn judge_words(alloc: Global, words: &[String]) -> Result<Command, WordsRefusal>
    ensures { Reads request_of result (request_by judge_form (texts words.now)) }
{
    let given = given_words(alloc, &["roster", "transcript"], false, words)?;
    judge(alloc, &given)
}

// The command `group`, by the words behind its name.
fn group_words(alloc: Global, words: &[String]) -> Result<Command, WordsRefusal>
    ensures { Reads request_of result (request_by group_form (texts words.now)) }
{
    let given = given_words(alloc, &["script", "roster", "transcript"], false, words)?;
    group(alloc, &given)
}

// The command `make`, by the words behind its name.
fn make_words(alloc: Global, words: &[String]) -> Result<Command, WordsRefusal>
    ensures { Reads request_of result (request_by make_form (texts words.now)) }
{
    let given = given_words(
        alloc,
        &["number", "members", "bytes", "fault"],
        false,
        words,
    )?;
    make(alloc, &given)
}

// The command `member`, by the words behind its name.
fn member_words(alloc: Global, words: &[String]) -> Result<Command, WordsRefusal>
    ensures { Reads request_of result (request_by member_form (texts words.now)) }
{
    let given = given_words(
        alloc,
        &["roster", "key", "round", "message", "transcript", "wait"],
        true,
        words,
    )?;
    member(alloc, &given)
}

// The command `live`, by the words behind its name.
fn live_words(alloc: Global, words: &[String]) -> Result<Command, WordsRefusal>
    ensures { Reads request_of result (request_by live_form (texts words.now)) }
{
    let given = given_words(alloc, &["script"], false, words)?;
    live(alloc, &given)
}
