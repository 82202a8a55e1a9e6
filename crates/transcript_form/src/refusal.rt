//! Why bytes are no transcript.

ghost use Rattle.std.specs.Prelude.{◌≡◌};
ghost use Rattle.transcript_form.specs.Refusals.{at_of, check_of};

use std::alloc::{AllocError, AllocFailed};

/// The first check of the form that bytes fail, and the offset where they do.
#[derive(Clone, Copy, Debug, PartialEq, Eq)]
pub enum FailedForm {
    /// The text "DSTR" and version 1 are not there: at the first byte that is wrong or missing.
    Magic { at: u32 },
    /// At the byte that is none of the claims 1 to 6, or no member of the group; at the number of bytes where
    /// a field is cut; at the first byte that follows the posts.
    Form { at: u32 },
    /// The number of posts is not the claim's: at that number.
    Count { at: u32 },
}

impl FailedForm {
    /// The number of the check: 1, 2 or 3.
    pub fn check(&self) -> u32
        ensures { result ≡ check_of self.now }
    {
        match self {
            FailedForm::Magic { .. } => 1,
            FailedForm::Form { .. } => 2,
            FailedForm::Count { .. } => 3,
        }
    }

    /// The number of the post where the check fails: 0, since these checks look at none.
    pub fn post(&self) -> u32
        ensures { result ≡ 0 }
    {
        0
    }

    /// The offset where it fails.
    pub fn at(&self) -> u32
        ensures { result ≡ at_of self.now }
    {
        match self {
            FailedForm::Magic { at } | FailedForm::Form { at } | FailedForm::Count { at } => *at,
        }
    }
}

/// Why a transcript is not taken.
#[derive(Clone, Copy, Debug, PartialEq, Eq)]
pub enum Refused {
    /// The first check that fails, by its number; the number of the listed post, from 1, or 0 where it is of
    /// none; and where it fails.
    Check { check: u32, post: u32, at: u32 },
    Memory,
}

impl From<FailedForm> for Refused {
    ghost use Rattle.transcript_form.specs.Refusals.{at_of, check_of};
    ghost use Rattle.transcript_form.specs.declared.refusal.Refused.TheVariants.{Check};

    ghost from_gives = { λ failed e. e ≡ Check (check_of failed) 0 (at_of failed) };

    fn from(failed: FailedForm) -> Refused {
        Refused::Check {
            check: failed.check(),
            post: failed.post(),
            at: failed.at(),
        }
    }
}

impl From<AllocError> for Refused {
    ghost use Rattle.transcript_form.specs.declared.refusal.Refused.TheVariants.{Memory};

    ghost from_gives = { λ _ e. e ≡ Memory };

    fn from(_e: AllocError) -> Refused {
        Refused::Memory
    }
}

impl<T: Drop> From<AllocFailed<T>> for Refused {
    ghost use Rattle.transcript_form.specs.declared.refusal.Refused.TheVariants.{Memory};

    ghost from_gives = { λ _ e. e ≡ Memory };

    fn from(_e: AllocFailed<T>) -> Refused {
        Refused::Memory
    }
}
