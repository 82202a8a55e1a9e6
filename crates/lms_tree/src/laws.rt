//! Laws of the definitions that the contracts of this crate cite. Nobody calls these functions: the
//! contract of each states a law, and its proof is a lemma in proofs/.

ghost use Rattle.lms_tree.specs.Secret.{OwnSignaturesAreValid};

/// A secret's own signatures are valid under its public key.
pub fn own_signatures_are_valid()
    ensures { OwnSignaturesAreValid }
{}
