//! Laws of the definitions that the contracts of this crate cite. Nobody calls these functions: the contract of each
//! states a law, and its proof is a lemma in proofs/.
ghost use Rattle.std.specs.Prelude.{ℕ, List};
ghost use Rattle.key_store.specs.History.{IsUsedOnce};

use crash_disk::Disk;

/// Over every list of calls that each make sure of what `load` and `begin_round` do, and of crashes at any moment of a call
/// or between two: rounds rise strictly, no leaf is handed out twice, and every image stays a key file of this key.
pub fn leaves_are_used_once<D: Disk>()
    ensures { IsUsedOnce D.file D.may_leave D.moment D.left_since }
{}
