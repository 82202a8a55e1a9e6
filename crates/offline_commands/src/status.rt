//! How a command ends: its status with the number and the line that tell it.
ghost use Rattle.std.specs.Prelude.{◌≡◌, IfOk, string_bytes};
ghost use Rattle.offline_commands.specs.Status.{closed_line, status_number, status_line};
ghost use Rattle.offline_commands.specs.Refusals.{roster_status, script_status, judge_status, words_status};
ghost use Rattle.offline_commands.specs.declared.status.Status.TheVariants.{Open, OutOfMemory};

use dissent_words::WordsRefusal;
use group_report::open_text;
use group_roster::RosterRefusal;
use group_threads::ScriptRefusal;
use std::alloc::{AllocError, Global};
use transcript_form::{Claim, Refused};

/// How a command ended.
#[derive(Clone, Copy, Debug, PartialEq, Eq)]
pub enum Status {
    /// The command came to its end, and printed its output.
    Done,
    /// The words are not those of a command.
    Usage,
    /// A member's round is open: its first stage that is not complete, and those whose post is missing there. The bit of
    /// member i is bit i - 1.
    Open { stage: u8, missing: u32 },
    /// A member holds evidence against this member, for this claim.
    Blamed { accused: u8, claim: Claim },
    /// The judge refuses the transcript: the first check that fails, the number of the post that it names, or
    /// 0, and the offset that it tells. Or the post that is to be shown is refused: the number of the check from
    /// 1, a wrong frame, to 8, a body outside the grammar; post 1; and the place of 1 or 8, or else 0.
    Refused { check: u32, post: u32, at: u32 },
    /// A file could not be read.
    ReadFault,
    /// The output could not be written.
    WriteFault,
    /// The link to the other members failed.
    LinkFault,
    /// The disk failed under a key file.
    DiskFault,
    /// A key file has fewer leaves left than a round takes: they begin at `next`, in a tree of this height.
    Exhausted { next: u32, height: u32 },
    /// A key file keeps this round, and the one asked for is not above it.
    OldRound { kept: u64 },
    /// The roster file breaks a rule of its grammar, first at this offset.
    BadRoster { at: u32, rule: u32 },
    /// A key file's bytes are none, first at this offset.
    BadKeyFile { at: u32 },
    /// A file has more bytes than its limit.
    TooLong { limit: u32 },
    /// 1,000,000 frames were taken, and the round is open.
    Flooded,
    /// The file is no script: the number of its first line, from 1, that is not of its form.
    BadScript { line: u64 },
    OutOfMemory,
    /// A roster does not hold the key of the key file.
    NotMember,
}

impl Status {
    /// The exit status of the program.
    pub fn number(&self) -> u8
        ensures { result ≡ status_number self.now }
    {
        match self {
            Status::Done => 0,
            Status::Usage => 1,
            Status::Open { .. } => 2,
            Status::Blamed { .. } => 3,
            Status::Refused { .. } => 4,
            Status::ReadFault => 5,
            Status::WriteFault => 6,
            Status::LinkFault => 7,
            Status::DiskFault => 8,
            Status::Exhausted { .. } => 9,
            Status::OldRound { .. } => 10,
            Status::BadRoster { .. } => 11,
            Status::BadKeyFile { .. } => 12,
            Status::TooLong { .. } => 13,
            Status::Flooded => 14,
            Status::BadScript { .. } => 15,
            Status::OutOfMemory => 16,
            Status::NotMember => 17,
        }
    }

    /// The line that is printed for the status, with its line feed. `Done` and `WriteFault` have none.
    pub fn line(&self, alloc: Global) -> Result<Vec<u8>, AllocError>
        ensures { IfOk result (λ line. line.items ≡ status_line self.now) }
    {
        if let Status::Open { stage, missing } = *self {
            return open_line(alloc, stage, missing);
        }
        Ok(self.text(alloc)?.into_bytes())
    }

    // The line of a status other than `Open`.
    fn text(&self, alloc: Global) -> Result<String, AllocError>
        ensures { IfOk result (λ text. string_bytes text ≡ closed_line self.now) }
    {
        match self {
            Status::Done | Status::WriteFault | Status::Open { .. } => Ok(String::new(alloc)),
            Status::Usage => format!(in alloc; "usage\n"),
            Status::Blamed { accused, claim } => format!(in alloc; "blamed {accused} {claim}\n"),
            Status::Refused { check, post, at } => {
                format!(in alloc; "refused check {check} post {post} at {at}\n")
            }
            Status::ReadFault => format!(in alloc; "read fault\n"),
            Status::LinkFault => format!(in alloc; "link fault\n"),
            Status::DiskFault => format!(in alloc; "disk fault\n"),
            Status::Exhausted { next, height } => {
                format!(in alloc; "exhausted next {next} height {height}\n")
            }
            Status::OldRound { kept } => format!(in alloc; "old round kept {kept}\n"),
            Status::BadRoster { at, rule } => {
                format!(in alloc; "bad roster at {at} rule {rule}\n")
            }
            Status::BadKeyFile { at } => format!(in alloc; "bad key file at {at}\n"),
            Status::TooLong { limit } => format!(in alloc; "too long limit {limit}\n"),
            Status::Flooded => format!(in alloc; "flooded\n"),
            Status::BadScript { line } => format!(in alloc; "bad script line {line}\n"),
            Status::OutOfMemory => format!(in alloc; "out of memory\n"),
            Status::NotMember => format!(in alloc; "not a member\n"),
        }
    }
}

// The line of an open round.
fn open_line(alloc: Global, stage: u8, missing: u32) -> Result<Vec<u8>, AllocError>
    ensures { IfOk result (λ line. line.items ≡ status_line (Open stage missing)) }
{
    let mut line = open_text(alloc, stage, missing)?;
    line.push(b'\n')?;
    Ok(line)
}

impl From<AllocError> for Status {
    ghost from_gives = { λ _ status. status ≡ OutOfMemory };

    fn from(_: AllocError) -> Status {
        Status::OutOfMemory
    }
}

impl From<RosterRefusal> for Status {
    ghost from_gives = { λ refusal status. status ≡ roster_status refusal };

    fn from(refusal: RosterRefusal) -> Status {
        match refusal {
            RosterRefusal::Bad { at, rule } => Status::BadRoster { at, rule },
            RosterRefusal::Memory => Status::OutOfMemory,
        }
    }
}

impl From<ScriptRefusal> for Status {
    ghost from_gives = { λ refusal status. status ≡ script_status refusal };

    fn from(refusal: ScriptRefusal) -> Status {
        match refusal {
            ScriptRefusal::BadLine { line } => Status::BadScript { line },
            ScriptRefusal::Memory => Status::OutOfMemory,
        }
    }
}

impl From<Refused> for Status {
    ghost from_gives = { λ refusal status. status ≡ judge_status refusal };

    fn from(refusal: Refused) -> Status {
        match refusal {
            Refused::Check { check, post, at } => Status::Refused { check, post, at },
            Refused::Memory => Status::OutOfMemory,
        }
    }
}

impl From<WordsRefusal> for Status {
    ghost from_gives = { λ refusal status. status ≡ words_status refusal };

    fn from(refusal: WordsRefusal) -> Status {
        match refusal {
            WordsRefusal::Usage => Status::Usage,
            WordsRefusal::Memory => Status::OutOfMemory,
        }
    }
}
