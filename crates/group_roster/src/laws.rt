//! Laws of the definitions that the contracts of this crate cite. Nobody calls these functions: the
//! contract of each states a law, and its proof is a lemma in proofs/.

ghost use Rattle.group_roster.specs.Binary.{SpelledExactly};
ghost use Rattle.group_roster.specs.Ids.{IdsDetermine};

/// Bytes have no offence exactly where they spell a roster, and they spell no other.
pub fn rosters_are_spelled()
    ensures { SpelledExactly }
{}

/// Two rosters of one id are equal, or the two strings of which the ids are hashes collide.
pub fn ids_determine_rosters()
    ensures { IdsDetermine }
{}
