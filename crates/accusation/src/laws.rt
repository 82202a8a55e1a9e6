//! Laws of accusations. Nobody calls this function: its contract states the laws.

ghost use Rattle.accusation.specs.Laws.{HoldsExactly, HoldsLooksAtOne, EmptyItemRefused, ItemHolds, StatesNameMembers};

/// An accusation holds exactly by its five conditions, and of the pads only those of the accused are looked at. 34 zero
/// bytes accuse nobody. What the maker of a descriptor accuses holds, unless it names itself. The states of slots
/// name members alone.
pub fn accusation_laws()
    ensures exactly { HoldsExactly }
    ensures looks_at_one { HoldsLooksAtOne }
    ensures empty_refused { EmptyItemRefused }
    ensures item_holds { ItemHolds }
    ensures names { StatesNameMembers }
{}
