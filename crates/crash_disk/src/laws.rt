//! Laws of the definitions that the contracts of this crate cite. Nobody calls these functions: the contract of each
//! states a law, and its proof is a lemma in proofs/.
ghost use Rattle.std.specs.Prelude.{ℕ, List};
ghost use Rattle.crash_disk.specs.Disk.{IsTorn};

/// A file that stays may be said to be torn anywhere.
pub fn nothing_is_torn()
    ensures { (file : List ℕ) (at n : ℕ) → IsTorn file at n file }
{}
