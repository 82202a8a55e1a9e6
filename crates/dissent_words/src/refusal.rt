//! Why words are not read.
use clap::error::ErrorKind;
use std::alloc::{AllocError, AllocFailed};

/// Why words are not read.
#[derive(Clone, Copy, Debug, PartialEq, Eq)]
pub enum WordsRefusal {
    /// They are those of no command, or a number is out of its range.
    Usage,
    /// Out of memory.
    Memory,
}

impl From<AllocError> for WordsRefusal {
    ghost use Rattle.std.specs.Prelude.{◌≡◌};
    ghost use Rattle.dissent_words.specs.declared.refusal.WordsRefusal.TheVariants.{Memory};

    ghost from_gives = { λ _ e. e ≡ Memory };

    fn from(_e: AllocError) -> WordsRefusal {
        WordsRefusal::Memory
    }
}

impl<T: Drop> From<AllocFailed<T>> for WordsRefusal {
    ghost use Rattle.std.specs.Prelude.{◌≡◌};
    ghost use Rattle.dissent_words.specs.declared.refusal.WordsRefusal.TheVariants.{Memory};

    ghost from_gives = { λ _ e. e ≡ Memory };

    fn from(_e: AllocFailed<T>) -> WordsRefusal {
        WordsRefusal::Memory
    }
}

impl From<clap::Error> for WordsRefusal {
    ghost use Rattle.std.specs.Prelude.{◌≡◌};
    ghost use Rattle.clap.specs.Words.{kind_of};
    ghost use Rattle.dissent_words.specs.Views.{refusal_for};

    ghost from_gives = { λ error e. e ≡ refusal_for (kind_of error) };

    fn from(error: clap::Error) -> WordsRefusal {
        match error.kind() {
            ErrorKind::OutOfMemory => WordsRefusal::Memory,
            _ => WordsRefusal::Usage,
        }
    }
}
