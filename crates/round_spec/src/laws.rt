//! Laws of rounds. Nobody calls these functions: the contract of each states a law.

ghost use Rattle.std.specs.Prelude.{ℕ, List};
ghost use Rattle.phase_message.specs.declared.stage.Slot.{Slot};
ghost use Rattle.round_spec.specs.Cases.{FinalBEnds, OneKind, SparingMeansAgreed, VerdictCases};
ghost use Rattle.round_spec.specs.Deliveries.{FirstPostsContained, FirstPostsGrow, IdleChangesNothing, LeastEndingGrows, WholeCourse};
ghost use Rattle.group_roster.specs.Roster.{Roster};
ghost use Rattle.transcript_form.specs.declared.transcript.Transcript.{Transcript};
ghost use Rattle.round_spec.specs.Runs.{Run};
ghost use Rattle.round_spec.specs.Strings.{KeptIsRead, RunHasStrings, TranscriptHasStrings};
ghost use Rattle.round_spec.specs.Honesty.{
  OwnPostsCheck,
  OwnPostsRead,
  RunAfterIsHonest,
  SettledIsLog,
  SettledPostsRead,
  SettledRunIsHonest,
  UnforgedIsSaid,
};
ghost use Rattle.round_spec.specs.Given.{
  FirstPostsDelivered,
  FirstPostsName,
  ListsAgree,
  MissingAreUnheard,
  VotesLookAtLists,
};
ghost use Rattle.round_spec.specs.Justified.{FirstBadIsTold, JustifiedExactly, PostsAreFound};
ghost use Rattle.round_spec.specs.Waiting.{InquiryIsOfLog, OpenRoundsWait};
ghost use Rattle.round_spec.specs.Settled.{OwnPostsSettled};
ghost use Rattle.round_spec.specs.Beginnings.{BeginningsAreHonest, KeysAreNotForged, ListsAreHonest, NothingIsForged};
ghost use Rattle.round_spec.specs.OwnRows.{OwnContentIsShort, OwnPostChecks, OwnPostReads, OwnRowOfGrammar, RowOfGrammar};
ghost use Rattle.round_spec.specs.Rows.{OnePerSlot, OwnRow, RowPast, RunOfContent, RunUnique};
ghost use Rattle.round_spec.specs.Say.{Configuration};
ghost use Rattle.round_spec.specs.Reached.{CourseStops, StandsAreReached};
ghost use Rattle.round_spec.specs.Laws.{CourseAdds, CourseGrows, CourseEndUnique, NotUnanimousBlames};

/// Some stages of a course and then others are all of them in one. With more posts of others a course comes through
/// each stand that it reaches with fewer, and ends where it ends with fewer.
pub fn course_laws()
    ensures adds { CourseAdds }
    ensures grows { CourseGrows }
    ensures end_unique { CourseEndUnique }
{}

/// Where the votes before a closing stage are not unanimous, the replay of what was said before it blames somebody.
pub fn not_unanimous_blames()
    ensures { NotUnanimousBlames }
{}

/// Why a verdict on a closing stage is what it is, and that nothing that is looked at before it was found. Where there is
/// no bad log and no equivocation, all closing contents are justified, embed what was kept and are of one kind. A
/// verdict that convicts nobody means that all agree, and the end of shuffle B always has one that ends the round.
pub fn verdict_laws()
    ensures cases { VerdictCases }
    ensures one_kind { OneKind }
    ensures agreed { SparingMeansAgreed }
    ensures final_b { FinalBEnds }
{}

/// A stand that a course reaches has the post of each slot before its stage: the member's own as it says it by the posts
/// before, and the others'. Its verdict is that of the last stage that was passed, and those before let the round go on.
pub fn stands_are_reached()
    ensures { StandsAreReached }
{}

/// The course of a whole round has ended, or it waits at a stage of the round that is not filled.
pub fn courses_stop()
    ensures { CourseStops }
{}

/// With one delivery more the first post of a slot stays the first, and the least number of deliveries that ends stays;
/// where there is none, the new string may give it. A string of which nothing is heard, or that says what its slot has,
/// changes nothing.
pub fn delivery_laws()
    ensures first_posts { (c : Configuration) (delivered : List (List ℕ)) (bytes : List ℕ) (slot : Slot) → FirstPostsGrow c delivered bytes slot }
    ensures contained { FirstPostsContained }
    ensures least_ending { (c : Configuration) (delivered : List (List ℕ)) (bytes : List ℕ) → LeastEndingGrows c delivered bytes }
    ensures idle { IdleChangesNothing }
{}

/// Where nobody is at fault, the result and the posts are read off from the course of all first posts as a whole.
pub fn whole_course()
    ensures { WholeCourse }
{}

/// What an honest run sent is what the member had to say by the posts before, of the grammar and under its header. The
/// past at a stage is the front of each later one. A member has at most one run in a round, which sent all contents of it
/// that its runs sent, and of these no two stand in one slot.
pub fn row_laws()
    ensures own { OwnRow }
    ensures past { RowPast }
    ensures run { RunOfContent }
    ensures one_run { RunUnique }
    ensures one_per_slot { OnePerSlot }
{}

/// Whatever a member has to say over a past of posts that read in their slots is of the grammar, with any bytes for its own
/// descriptor that are as many as in one of the group. If no verdict ended the round before, it has at most 11,539,924
/// bytes, and its post reads in its slot; where the member's key is the roster's, the post checks there.
pub fn own_row_laws()
    ensures grammar { OwnRowOfGrammar }
    ensures any { RowOfGrammar }
    ensures short { OwnContentIsShort }
    ensures reads { OwnPostReads }
    ensures checks { OwnPostChecks }
{}

/// The definitions are not empty. The run of a member that has said nothing is honest, and so is that of one that has
/// said its keys, for every configuration whose key is the roster's; lists of such runs are honest; and nothing is forged
/// where nothing is delivered, or the keys alone that such runs said.
pub fn beginning_laws()
    ensures runs { BeginningsAreHonest }
    ensures lists { ListsAreHonest }
    ensures nothing { NothingIsForged }
    ensures keys { KeysAreNotForged }
{}

/// In the log that a member keeps its own post at a stage is there exactly where all stages before are complete and no
/// closing stage before has a verdict that ends the round, and it is what the member has to say by the posts before.
pub fn own_posts_settled()
    ensures { OwnPostsSettled }
{}

/// Which strings are among those of a run and of a transcript: of the views up to each stage, of the seeds of layers that
/// are its own or shown, and of pads that are its own or sent.
pub fn string_laws()
    ensures run { (run : Run) → RunHasStrings run }
    ensures transcript { (roster : Roster) (t : Transcript) → TranscriptHasStrings roster t }
    ensures kept { KeptIsRead }
{}

/// Where a round is open, the member waits at the first stage of its log that is not complete, and for just those whose
/// posts are missing there.
pub fn open_rounds_wait()
    ensures { OpenRoundsWait }
{}

/// What a verdict replays is what a replay looks at of a log that has the posts before the closing stage.
pub fn inquiries_are_of_logs()
    ensures { InquiryIsOfLog }
{}

/// The first post of a slot was delivered, checks, and stands in the slot of another member; so first posts name their
/// slots. It is missing exactly where no delivered string is the post file of the slot.
pub fn first_posts_are_delivered()
    ensures delivered { FirstPostsDelivered }
    ensures name { FirstPostsName }
    ensures missing { MissingAreUnheard }
{}

/// The list after a turn is that which a replay at the end of its shuffle looks at, and a vote on the shuffle looks at
/// the lists after all its turns.
pub fn lists_agree()
    ensures replay { ListsAgree }
    ensures votes { VotesLookAtLists }
{}

/// A closing content counts as justified exactly where it embeds the post files of its slots and what it says of them is
/// so. The posts of strings are found exactly where each string is the post file of its slot, and else the first that is
/// not is told.
pub fn justified_laws()
    ensures exactly { JustifiedExactly }
    ensures posts { PostsAreFound }
    ensures first_bad { FirstBadIsTold }
{}

/// Where the others' posts check, all that a member keeps in a course reads in its slots, and what it has to say does. With
/// the roster's key for its own that checks too, and the run is honest that any deliveries make. Where nothing was forged,
/// what is listed of a member with a run was said by it.
pub fn honesty_laws()
    ensures read { SettledPostsRead }
    ensures own_reads { OwnPostsRead }
    ensures log { SettledIsLog }
    ensures own { OwnPostsCheck }
    ensures settled { SettledRunIsHonest }
    ensures after { RunAfterIsHonest }
    ensures said { UnforgedIsSaid }
{}
