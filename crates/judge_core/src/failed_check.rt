//! The checks of a transcript, by name.

ghost use Rattle.std.specs.Prelude.{◌≡◌};
ghost use Rattle.judge_core.specs.Failures.{accusation_number, failed_at, failed_number, failed_post};

use accusation::AccusationRefusal;
use signed_post::PostRefusal;
use std::alloc::AllocError;
use transcript_form::{FailedForm, Refused};

/// The first check that a transcript fails, with what its numbers are made of.
#[derive(Clone, Copy, Debug, PartialEq, Eq)]
pub enum FailedCheck {
    /// Checks 1 to 3: the bytes are no transcript.
    Form(FailedForm),
    /// Check 4: a listed post is refused before a look at its body. Posts are numbered from 1.
    Post { post: u32, refusal: PostRefusal },
    /// Check 5: the sender or the stage of a listed post is not the claim's.
    Slot { post: u32, stage: u8 },
    /// Check 6: the content of a listed post is outside the grammar, at this offset.
    Body { post: u32, at: u32 },
    /// Check 7: the body of a listed post is of a kind that the claim does not ask for.
    Kind { post: u32, kind: u8 },
    /// Check 8: the contents that are to differ are equal.
    Same,
    /// Check 9: the content that is to be malformed is of the grammar.
    WellFormed,
    /// Check 10: the seed that is to be wrong is that of the inner key.
    SeedFits,
    /// Check 11: the closing content that is not to be borne out is justified.
    Justified,
    /// Check 12: a closing content that is to be replayed is not justified.
    NotJustified { post: u32 },
    /// Check 13: in a slot, by its number from 0, a post embeds another content than the first one.
    LogsDiffer { post: u32, slot: u32 },
    /// Check 14: the replay blames this member, who is not the accused, or nobody, which is 0.
    Culprit { member: u8 },
    /// Check 15: the post of pads does not carry the view of the log that is listed.
    View { post: u32 },
    /// Check 16: at this stage of shuffle A somebody did not reveal, or the last turn said Abort.
    NotOpened { stage: u8 },
    /// Check 17: the accusation names another member than the accused.
    OtherMember,
    /// Check 17: the accusation does not hold.
    Accusation(AccusationRefusal),
}

// Why a transcript convicts nobody.
#[derive(Clone, Copy, Debug, PartialEq, Eq)]
pub(crate) enum Unjudged {
    Failed(FailedCheck),
    Memory,
}

impl FailedCheck {
    /// The number of the check, from 1 to 17.
    pub fn check(&self) -> u32
        ensures { result ≡ failed_number self.now }
    {
        match self {
            FailedCheck::Form(form) => form.check(),
            FailedCheck::Post { .. } => 4,
            FailedCheck::Slot { .. } => 5,
            FailedCheck::Body { .. } => 6,
            FailedCheck::Kind { .. } => 7,
            FailedCheck::Same => 8,
            FailedCheck::WellFormed => 9,
            FailedCheck::SeedFits => 10,
            FailedCheck::Justified => 11,
            FailedCheck::NotJustified { .. } => 12,
            FailedCheck::LogsDiffer { .. } => 13,
            FailedCheck::Culprit { .. } => 14,
            FailedCheck::View { .. } => 15,
            FailedCheck::NotOpened { .. } => 16,
            FailedCheck::OtherMember | FailedCheck::Accusation(_) => 17,
        }
    }

    /// The number of the listed post where it fails, from 1; 0 where it fails at none.
    pub fn post(&self) -> u32
        ensures { result ≡ failed_post self.now }
    {
        match self {
            FailedCheck::Form(form) => form.post(),
            FailedCheck::Post { post, .. }
            | FailedCheck::Slot { post, .. }
            | FailedCheck::Body { post, .. }
            | FailedCheck::Kind { post, .. }
            | FailedCheck::NotJustified { post }
            | FailedCheck::LogsDiffer { post, .. }
            | FailedCheck::View { post } => *post,
            FailedCheck::Same | FailedCheck::SeedFits => 2,
            FailedCheck::WellFormed | FailedCheck::Justified => 1,
            FailedCheck::Culprit { .. }
            | FailedCheck::NotOpened { .. }
            | FailedCheck::OtherMember
            | FailedCheck::Accusation(_) => 0,
        }
    }

    /// Where it fails: for the checks 1 to 3 an offset, for 4 the number of the post's refusal, from 1 to 7, for 5 the
    /// stage of the post, for 6 the offset in its content, for 7 its kind, for 13 the number of the slot, for 14 the
    /// member or 0, for 16 the stage, for 17 the number of the accusation's refusal, from 1 to 5, or 0; else it is 0.
    pub fn at(&self) -> u32
        ensures { result ≡ failed_at self.now }
    {
        match self {
            FailedCheck::Form(form) => form.at(),
            FailedCheck::Post { refusal, .. } => refusal.number(),
            FailedCheck::Slot { stage, .. } | FailedCheck::NotOpened { stage } => u32::from(*stage),
            FailedCheck::Body { at, .. } => *at,
            FailedCheck::Kind { kind, .. } => u32::from(*kind),
            FailedCheck::LogsDiffer { slot, .. } => *slot,
            FailedCheck::Culprit { member } => u32::from(*member),
            FailedCheck::Accusation(refusal) => accusation_number(*refusal),
            FailedCheck::Same
            | FailedCheck::WellFormed
            | FailedCheck::SeedFits
            | FailedCheck::Justified
            | FailedCheck::NotJustified { .. }
            | FailedCheck::View { .. }
            | FailedCheck::OtherMember => 0,
        }
    }
}

// The number of an accusation's refusal.
fn accusation_number(refusal: AccusationRefusal) -> u32
    ensures { result ≡ accusation_number refusal }
{
    match refusal {
        AccusationRefusal::Slot => 1,
        AccusationRefusal::Member => 2,
        AccusationRefusal::Capsule => 3,
        AccusationRefusal::PadHash => 4,
        AccusationRefusal::PadSent => 5,
    }
}

impl From<FailedForm> for Unjudged {
    ghost use Rattle.judge_core.specs.declared.failed_check.FailedCheck.TheVariants.{Form};
    ghost use Rattle.judge_core.specs.declared.failed_check.Unjudged.TheVariants.{Failed};

    ghost from_gives = { λ failed e. e ≡ Failed (Form failed) };

    fn from(failed: FailedForm) -> Unjudged {
        Unjudged::Failed(FailedCheck::Form(failed))
    }
}

impl From<FailedCheck> for Unjudged {
    ghost use Rattle.judge_core.specs.declared.failed_check.Unjudged.TheVariants.{Failed};

    ghost from_gives = { λ failed e. e ≡ Failed failed };

    fn from(failed: FailedCheck) -> Unjudged {
        Unjudged::Failed(failed)
    }
}

impl From<AllocError> for Unjudged {
    ghost use Rattle.judge_core.specs.declared.failed_check.Unjudged.TheVariants.{Memory};

    ghost from_gives = { λ _ e. e ≡ Memory };

    fn from(_e: AllocError) -> Unjudged {
        Unjudged::Memory
    }
}

impl From<FailedCheck> for Refused {
    ghost use Rattle.transcript_form.specs.declared.refusal.Refused.TheVariants.{Check};

    ghost from_gives = { λ failed e. e ≡ Check (failed_number failed) (failed_post failed) (failed_at failed) };

    fn from(failed: FailedCheck) -> Refused {
        Refused::Check {
            check: failed.check(),
            post: failed.post(),
            at: failed.at(),
        }
    }
}
