//! What a complete closing stage comes to.

ghost use Rattle.std.specs.List.{list_all};
ghost use Rattle.closing_verdict.specs.Telling.{shuffle_ended, tells_assent};
ghost use Rattle.std.specs.Prelude.{◌≡◌, IfOk, IsTrue};

use crate::convicting::Conviction;
use crate::reading::{Reading, Told};
use group_roster::Roster;
use honest_say::{GroupKeys, Slots, slots_said};
use phase_message::{StageKind, stage_kind};
use stage_log::StageLog;
use std::alloc::Global;
use wire_core::{List, Mem};

/// A closing stage whose posts are all there, with what the member has found of the stages before it.
#[derive(Clone, Copy)]
pub struct Closing<'a> {
    pub roster: &'a Roster,
    pub round: u64,
    pub log: &'a StageLog,
    pub stage: u8,
    /// The keys that all members said.
    pub keys: &'a GroupKeys,
    /// Behind FINAL A: what the last list of shuffle A opened to.
    pub opened: Option<&'a Vec<Option<List<u8>>>>,
    /// Behind CONFIRM: what the slots of that list hold.
    pub slots: Option<&'a Slots>,
}

/// What a stage comes to.
#[derive(Drop)]
pub enum Judged {
    /// It is no closing stage: the round goes on.
    Goes,
    /// FINAL A: the round goes on, and the last list of shuffle A opens to these.
    Opens(Vec<Option<List<u8>>>),
    /// CONFIRM: the slots of that list hold these. The round goes on where one is bad, and else it is done.
    Finds(Slots),
    /// FINAL B: no accusation holds, and the round is done.
    Agreed,
    /// A transcript convicts a member.
    Convicts(Conviction),
}

impl<'a> Closing<'a> {
    ghost use Rattle.phase_message.specs.Stages.{kind_of_stage};
    ghost use Rattle.round_spec.specs.Verdict.{agreed_at};
    ghost use Rattle.closing_verdict.specs.Closed.{AreTold};
    ghost use Rattle.closing_verdict.specs.Judgement.{IsToBeJudged, TellsVerdict, completed_of, stage_closed, verdict_in};

    /// What the stage comes to. All posts of the stages before it and of its own are there, and what is carried is what
    /// was found of them. It is never `Goes`.
    pub fn judge(self, alloc: Global) -> Mem<Judged>
        requires { IsToBeJudged self }
        ensures { IfOk result (TellsVerdict (completed_of self.entry)) }
    {
        match self.read_closing(alloc)? {
            Reading::Convicts(conviction) => Ok(Judged::Convicts(conviction)),
            Reading::Sound(told) => self.judge_closing(alloc, &told),
        }
    }

    // What it comes to where all contents are justified and embed what was kept: these are all of one kind.
    fn judge_closing(self, alloc: Global, told: &Vec<Told>) -> Mem<Judged>
        requires closing { IsToBeJudged self }
        requires told { AreTold (completed_of self) told.now.items }
        ensures { IfOk result (TellsVerdict (completed_of self.entry)) }
    {
        if all_assent(told) {
            self.judge_agreed(alloc, told)
        } else {
            self.judge_dissent(alloc, told)
        }
    }

    // What it comes to where all agree.
    fn judge_agreed(self, alloc: Global, told: &Vec<Told>) -> Mem<Judged>
        requires closing { IsToBeJudged self }
        requires told { AreTold (completed_of self) told.now.items }
        requires agree { IsTrue (list_all tells_assent told.now.items) }
        ensures { IfOk result (TellsVerdict (completed_of self.entry)) }
    {
        match shuffle_ended(stage_kind(self.roster.shape(), self.stage)) {
            Some(shuffle) => self.judge_seeds(alloc, shuffle, told),
            None => self.judge_slots(alloc),
        }
    }

    // What it comes to behind the checks, where all agree: what the slots hold.
    fn judge_slots(self, alloc: Global) -> Mem<Judged>
        requires closing { IsToBeJudged self }
        requires at { kind_of_stage self.log.now.shape self.stage ≡ Some StageKind.Confirm }
        requires agree { verdict_in (completed_of self) ≡ agreed_at (stage_closed (completed_of self)) (Some StageKind.Confirm) }
        ensures { IfOk result (TellsVerdict (completed_of self.entry)) }
    {
        let Some(opened) = self.opened else {
            unreachable!()
        };
        let slots = slots_said(alloc, self.log, self.stage + 1, opened)?;
        Ok(Judged::Finds(slots))
    }
}

// Whether all tell that the votes are unanimous.
fn all_assent(told: &[Told]) -> bool
    ensures { result ≡ list_all tells_assent told.now }
{
    told.iter().all(|one| is_assent(*one))
}

fn is_assent(told: Told) -> bool
    ensures { result ≡ tells_assent told }
{
    matches!(told, Told::Reveals { .. } | Told::Confirms)
}

// Which shuffle a stage ends.
fn shuffle_ended(kind: Option<StageKind>) -> Option<u8>
    ensures { result ≡ shuffle_ended kind }
{
    match kind {
        Some(StageKind::Final { shuffle }) => Some(shuffle),
        _ => None,
    }
}
