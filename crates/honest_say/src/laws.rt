//! Laws of what a member reads of the past. Nobody calls this function: its contract states the laws.

ghost use Rattle.honest_say.specs.Stays.{ItemsStay, KeysStay, SlotsStay};

/// Keys, opened lists and the states of slots that were read at one stage are those of the past at each later stage that
/// is reached. So a member reads them once and carries them forward. This function does nothing.
pub fn what_was_said_stays()
    ensures keys { KeysStay }
    ensures items { ItemsStay }
    ensures slots { SlotsStay }
{}
