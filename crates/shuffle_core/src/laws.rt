//! The laws of shuffles.

ghost use Rattle.shuffle_core.specs.Laws.{SeedsAreMessages, SeedsAreByLayer, DrawnOrderPermutes, EntriesArePermuted, EqualsAreFound, DistinctAreFound, PermutationKeeps, TurnPermutes, TurnSaysBodies, TurnAborts, OpensToWhatIsWrapped, OpensInParts, SubmissionOpens, SubmissionAdds, PlaceIsLeast, PlaceIsFound};

/// A member has a seed of 32 bytes for each layer, that of layer 1 first. This function does nothing.
pub fn seed_laws()
    ensures messages { SeedsAreMessages }
    ensures by_layer { SeedsAreByLayer }
{}

/// The drawn order names each place once, so entries in it are the entries in another order. This
/// function does nothing.
pub fn order_laws()
    ensures order { DrawnOrderPermutes }
    ensures entries { EntriesArePermuted }
{}

/// What a turn says: of distinct entries that are layers the bodies in another order, and Abort of
/// just the others. Another order has as many entries, the same ones, and distinct ones where they
/// were distinct. This function does nothing.
pub fn turn_laws()
    ensures equals { EqualsAreFound }
    ensures distinct { DistinctAreFound }
    ensures permutation { PermutationKeeps }
    ensures permutes { TurnPermutes }
    ensures bodies { TurnSaysBodies }
    ensures aborts { TurnAborts }
{}

/// What is submitted is opened again: a list of seeds opens an entry to just what stands in it under
/// layers of their keys, and so the outer key seeds open a submission to its inner ciphertext, and
/// the inner ones that to the item. This function does nothing.
pub fn opening_laws()
    ensures wrapped { OpensToWhatIsWrapped }
    ensures parts { OpensInParts }
    ensures submission { SubmissionOpens }
    ensures longer { SubmissionAdds }
{}

/// The place of an entry holds it and no place before does, and an entry without a place is not in
/// the list. This function does nothing.
pub fn place_laws()
    ensures least { PlaceIsLeast }
    ensures found { PlaceIsFound }
{}
