//! Why a key file gives nothing.
use std::alloc::AllocError;

/// Why a call on a key file gives nothing.
#[derive(Clone, Copy, Debug, PartialEq, Eq)]
pub enum StoreRefusal {
    /// The disk failed, in this call or in an earlier one that raised the file. The file has to be loaded again.
    DiskFault,
    /// The bytes are no key file: the offset of the first field that is wrong, or the number of bytes
    /// where a field is cut or missing.
    NotKeyFile { at: u32 },
    /// The round is not greater than that which the file keeps.
    OldRound { kept: u64 },
    /// Fewer leaves are left: they begin at `next`.
    Exhausted { next: u32 },
    /// Memory is wanting.
    Memory,
}

impl From<AllocError> for StoreRefusal {
    ghost use Rattle.std.specs.Prelude.{◌≡◌};
    ghost use Rattle.key_store.specs.declared.refusals.StoreRefusal.TheVariants.{Memory};

    ghost from_gives = { λ _ e. e ≡ Memory };

    fn from(_error: AllocError) -> StoreRefusal {
        StoreRefusal::Memory
    }
}
