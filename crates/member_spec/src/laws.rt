//! Laws of members. Nobody calls these functions: the contract of each states a law.

ghost use Rattle.member_spec.specs.Growing.{PostsGrow};
ghost use Rattle.member_spec.specs.Order.{OrderChangesNothing};
ghost use Rattle.member_spec.specs.Plain.{PlainComesToResult, PlainEndsOnce, PlainKeepsAtMost, PlainPostsAreSaid, PlainRunIsHonest};
ghost use Rattle.member_spec.specs.Replies.{IsPlain, plain_replies};
ghost use Rattle.member_spec.specs.Sizes.{GreatestOfEight};
ghost use Rattle.member_spec.specs.Standing.{OpenStandAtFirst};
ghost use Rattle.member_spec.specs.Taking.{IdleLeavesAll};

/// Where all that is heard has a body in the grammar and no two different strings are heard for one slot, every reordering
/// of deliveries has the same result and the same posts.
pub fn order_changes_nothing()
    ensures { OrderChangesNothing }
{}

/// The posts of a round of eight members have at most 412,837,544 bytes, one for each slot.
pub fn eight_keep_at_most()
    ensures { GreatestOfEight }
{}

/// A member of a plain conduct comes to the result of its deliveries, whatever key it signs with: how the round stands, the
/// posts that it has made and the log that it keeps, which has just these posts of its own. Among its posts at most one ends a
/// shuffle, and shows the inner seed, or the outer seed and the outer opening. What it keeps has at most the bytes of the
/// greatest post in each slot, and of all of these together. Where its key is the roster's, its run is honest.
pub fn plain_members()
    ensures result { PlainComesToResult }
    ensures honest { PlainRunIsHonest }
    ensures said { PlainPostsAreSaid }
    ensures ends_once { PlainEndsOnce }
    ensures room { PlainKeepsAtMost }
{}

/// The answers that `Honest` tells are those of a plain conduct.
pub fn honest_is_plain()
    ensures { IsPlain plain_replies }
{}

/// A delivery that is answered `Ignored`, `Own`, `Same` or `Finished` leaves the member as it was, whatever its conduct is.
pub fn idle_deliveries()
    ensures { IdleLeavesAll }
{}

/// With each delivery the posts that a member made stay, and others may come behind them, whatever its conduct is.
pub fn posts_only_grow()
    ensures { PostsGrow }
{}

/// As long as a member's round is open, it stands at the first stage of its log that is not complete, or behind the last one
/// where all are, and the bits of those for whom it waits are the bits of the posts that its log lacks there, whatever its
/// conduct is.
pub fn open_members_wait()
    ensures { OpenStandAtFirst }
{}
