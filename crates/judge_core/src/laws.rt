//! Laws of the definitions that the contracts of this crate cite. Nobody calls these functions: the
//! contract of each states a law, and its proof is a lemma in proofs/.

ghost use Rattle.judge_core.specs.Checks.{AcceptsExactly};

/// The checks refuse exactly what does not convict.
pub fn checks_are_exact()
    ensures { AcceptsExactly }
{}
