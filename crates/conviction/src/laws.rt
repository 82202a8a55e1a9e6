//! That nobody honest is framed. Nobody calls these functions: the contract of each states a law.

ghost use Rattle.conviction.specs.Accepts.{Equivocates, ReplaysFault, RevealsWrongSeed, SaysMalformed, ShowsBadLog, ShowsBadPad};
ghost use Rattle.conviction.specs.Blame.{CommonLogIsOwn, NoGoNotOwn, PadSameLog, ReplayNotOwn, SeedNotOwn, ShuffleNotOwn, SubmissionNotOwn, ViewNotOwn};
ghost use Rattle.conviction.specs.Framing.{NobodyHonestIsConvicted, NoFraming, NotShown, NotShownUnlessCollide, TheRun};

/// A member that said one of the listed posts of a round has one run in this round, which sent all that is listed of it.
pub fn the_run()
    ensures { TheRun }
{}

/// No two posts show that a member of honest runs said two contents in one slot.
pub fn frame_equivocation()
    ensures { NotShown Equivocates }
{}

/// No post shows that a member of honest runs said a content outside the grammar.
pub fn frame_malformed()
    ensures { NotShown SaysMalformed }
{}

/// No two posts show that a member of honest runs revealed another seed than that of its inner key.
pub fn frame_wrong_seed()
    ensures { NotShown RevealsWrongSeed }
{}

/// No post shows that a member of honest runs said a closing content that is not justified.
pub fn frame_bad_log()
    ensures { NotShown ShowsBadLog }
{}

/// The log that the posts of a replay embed is what the run of the accused kept before the closing stage, and what the
/// accused shows is its own part.
pub fn common_log_is_own()
    ensures { CommonLogIsOwn }
{}

/// In what an honest member kept its own contents carry the views of their stages.
pub fn view_not_own()
    ensures { ViewNotOwn }
{}

/// The outer seed that an honest member shows is that of the outer key that it said.
pub fn seed_not_own()
    ensures { SeedNotOwn }
{}

/// Where all members show the seeds of their outer keys, the submission of an honest member opens through all outer
/// layers, and each carries the seed that its shown opening gives.
pub fn submission_not_own()
    ensures { SubmissionNotOwn }
{}

/// Where no submission is at fault, the turn of an honest member says the list before it with a layer off, in another
/// order.
pub fn shuffle_not_own()
    ensures { ShuffleNotOwn }
{}

/// Where nothing else is at fault, the vote of an honest member is yes.
pub fn no_go_not_own()
    ensures { NoGoNotOwn }
{}

/// The replay of what an honest member kept does not blame the member, whichever rule answers.
pub fn replay_not_own()
    ensures { ReplayNotOwn }
{}

/// No posts show that the replay of what all members embed blames a member of honest runs, where no two strings of the
/// runs and of the transcript have one hash.
pub fn frame_replay()
    ensures { NotShownUnlessCollide ReplaysFault }
{}

/// The log that a transcript of a bad pad lists is what the run of the accused kept before its pads.
pub fn pad_same_log()
    ensures { PadSameLog }
{}

/// No posts show that a member of honest runs sent a bad pad, where no two strings of the runs and of the transcript have
/// one hash.
pub fn frame_pad()
    ensures { NotShownUnlessCollide ShowsBadPad }
{}

/// Whoever is convicted by bytes: no honest runs said what they list of it, unless two strings of the runs and of the
/// bytes have one hash.
pub fn no_framing()
    ensures { NoFraming }
{}

/// Nobody honest is convicted, whoever wrote the bytes: whoever is convicted has a run in no list of honest runs, unless a
/// signature was forged among the posts that the bytes list, or two strings of the runs and of the bytes have one hash.
pub fn nobody_honest_is_convicted()
    ensures { NobodyHonestIsConvicted }
{}
