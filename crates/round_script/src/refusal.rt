//! Why a text is no script.

use std::alloc::{AllocError, AllocFailed};
use thiserror::Error;

/// Why a text is no script.
#[derive(Debug, Drop, Error)]
pub enum ScriptRefusal {
    /// The first line, by its number from 1, that is not of its form. A line that is missing, or that no line feed
    /// ends, is bad at the number that it would have.
    #[error("bad script line {line}")]
    BadLine { line: u64 },
    #[error("out of memory")]
    Memory,
}

impl From<AllocError> for ScriptRefusal {
    ghost use Rattle.std.specs.Prelude.{◌≡◌};
    ghost use Rattle.round_script.specs.declared.refusal.ScriptRefusal.TheVariants.{Memory};

    ghost from_gives = { λ _ e. e ≡ Memory };

    fn from(_e: AllocError) -> ScriptRefusal {
        ScriptRefusal::Memory
    }
}

impl<T: Drop> From<AllocFailed<T>> for ScriptRefusal {
    ghost use Rattle.std.specs.Prelude.{◌≡◌};
    ghost use Rattle.round_script.specs.declared.refusal.ScriptRefusal.TheVariants.{Memory};

    ghost from_gives = { λ _ e. e ≡ Memory };

    fn from(_e: AllocFailed<T>) -> ScriptRefusal {
        ScriptRefusal::Memory
    }
}
