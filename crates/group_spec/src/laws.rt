//! Laws of groups. Nobody calls these functions: the contract of each states a law.

ghost use Rattle.group_spec.specs.Delivered.{DeliveriesWerePosted};
ghost use Rattle.group_spec.specs.Driver.{QueuesEmpty, RunsEndAlike};
ghost use Rattle.group_spec.specs.Faulty.{HonestConductsArePlain};

/// A member without a fault says what the rules give it to say, and so does one of two votes.
pub fn honest_conducts()
    ensures { HonestConductsArePlain }
{}

/// The run of a group ends: within the greatest number of steps nothing is on its way any more, and further steps change
/// nothing.
pub fn queue_empties()
    ensures empty { QueuesEmpty }
    ensures alike { RunsEndAlike }
{}

/// All that is delivered to a member is the post of a member, or the second one that its fault makes of a post, and goes to
/// this member, where nothing was delivered at the start.
pub fn deliveries_posted()
    ensures { DeliveriesWerePosted }
{}
