//! The lines of a text, one after the other.

ghost use Rattle.std.specs.Prelude.{◌≡◌, ◌+◌, Some, OnOk, length, option_map, ◌==◌};
ghost use Rattle.wire_core.specs.Reading.{ReadsOr, reading_at};
ghost use Rattle.round_script.specs.Lines.{bad_line, line_at, line_of, behind, behind_line};

use crate::refusal::ScriptRefusal;
use std::marker::Model;

/// A text whose lines are read. A line is ended by a line feed.
///
/// Contracts see it as a `Reading`: the number of the next line, from 1, and the bytes to come.
#[derive(Debug, Drop)]
pub(crate) struct Lines<'a> {
    number: u64,
    rest: &'a [u8],
}

impl<'a> Model for Lines<'a> {
    ghost use Rattle.std.specs.Prelude.{◌<◌, ◌+◌, ◌^◌, length};
    ghost use Rattle.wire_core.specs.Place.{Reading};

    ghost Value = { Reading };

    ghost view = { λ l. record { place = l.number; rest = l.rest.now } };

    ghost invariant = { λ l. l.number + length l.rest.now < 2 ^ 64 };
}

impl<'a> Lines<'a> {
    /// The lines of a text, from its first.
    pub(crate) fn new(text: &'a [u8]) -> Lines<'a>
        ensures { result ≡ reading_at 1 text.now }
    {
        Lines {
            number: 1,
            rest: text,
        }
    }

    /// The number of the next line.
    pub(crate) fn number(&self) -> u64
        ensures { result ≡ self.now.place }
    {
        self.number
    }

    /// Whether no byte is to come.
    pub(crate) fn is_done(&self) -> bool
        ensures { result ≡ (length self.now.rest == 0) }
    {
        self.rest.is_empty()
    }

    /// The next line, which stays to be read: `None` where no line feed is to come.
    pub(crate) fn peek(&self) -> Option<&'a [u8]>
        ensures { option_map (λ line. line.now) result ≡ line_of self.now.rest }
    {
        line_of(self.rest)
    }

    /// Goes behind the next line.
    #[tactic(auto, using(crate::proofs::LineLemmas::line_of_shorter))]
    pub(crate) fn skip(&mut self, line: &[u8])
        requires { line_of self.old.rest ≡ Some line.now }
        ensures { self.new ≡ behind_line line.now self.old }
    {
        self.number += 1;
        self.rest = &self.rest[line.len() + 1..];
    }

    /// The next line. It is bad where no line feed is to come.
    #[tactic(auto, unfolding(crate::specs::Lines::line_at))]
    pub(crate) fn next(&mut self) -> Result<&'a [u8], ScriptRefusal>
        ensures read { ReadsOr bad_line (λ line. line.now) result self.new (line_at self.old) }
        ensures next { OnOk result (self.new.place ≡ self.old.place + 1) }
    {
        match self.peek() {
            Some(line) => {
                self.skip(line);
                Ok(line)
            }
            None => Err(ScriptRefusal::BadLine { line: self.number }),
        }
    }
}

// What stands before the first line feed.
fn line_of(text: &[u8]) -> Option<&[u8]>
    ensures { option_map (λ line. line.now) result ≡ line_of text.now }
{
    for i in 0..text.len() {
        if text[i] == b'\n' {
            return Some(&text[..i]);
        }
    }
    None
}

/// What follows a front in a line: `None` where the line does not begin with it.
#[tactic(auto, unfolding(crate::specs::Lines::behind))]
pub(crate) fn behind<'a>(front: &[u8], line: &'a [u8]) -> Option<&'a [u8]>
    ensures { option_map (λ rest. rest.now) result ≡ behind front.now line.now }
{
    if line.len() >= front.len() && &line[..front.len()] == front {
        Some(&line[front.len()..])
    } else {
        None
    }
}
