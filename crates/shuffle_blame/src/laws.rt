//! The laws of replays. Nobody calls these functions: the contract of each states a law.

ghost use Rattle.shuffle_blame.specs.Laws.{LastListHas, ListsAreStripped, NoSeedFault, NoSubmissionFault, NoViewFault, PermutationsAreFound, StrippedAreDistinct, UnlikeVotesBlame};

/// Where a vote says no, or two votes carry different views, the replay names somebody.
pub fn unlike_votes_blame()
    ensures { UnlikeVotesBlame }
{}

/// Where no view is at fault, every slot before the closing stage carries the view of its stage.
pub fn no_view_fault()
    ensures { NoViewFault }
{}

/// Where no outer seed is at fault, each member said keys, and the key of the seed that it shows is the outer one.
pub fn no_seed_fault()
    ensures { NoSeedFault }
{}

/// Where no submission is at fault, each opens through its first layers by the shown outer seeds, and each layer carries
/// the seed that the opening of the submitter gives.
pub fn no_submission_fault()
    ensures { NoSubmissionFault }
{}

/// After some turns, none of which is at fault, the list is the submissions with as many layers off, in some order.
pub fn lists_are_stripped()
    ensures order { PermutationsAreFound }
    ensures lists { ListsAreStripped }
{}

/// Where no submission is at fault and no two of the shown layer strings have one SHA-256, the submissions are distinct
/// with any number of layers off, the last excepted.
pub fn stripped_distinct()
    ensures { StrippedAreDistinct }
{}

/// Where no turn is at fault, the last list is the submissions with all outer layers off, in some order.
pub fn last_list_has()
    ensures { LastListHas }
{}
