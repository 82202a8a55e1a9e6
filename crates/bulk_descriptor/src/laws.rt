//! Laws of descriptors and pads. Nobody calls these functions: the contract of each states laws.

ghost use Rattle.bulk_descriptor.specs.Laws.{DescriptorsAreSpelled, SpelledDescriptorsAreRead, SpellingDetermines, MadeIsOfGrammar, PadsGiveMessage, OwnPadFits, OtherPadsFit, HonestPadFits, FitsDetermines, AllFitMessage};

/// What is read was spelled so, what is spelled is read, no two descriptors have one spelling, and what is made
/// is of the grammar.
pub fn descriptor_laws()
    ensures spelled { DescriptorsAreSpelled }
    ensures read { SpelledDescriptorsAreRead }
    ensures determines { SpellingDetermines }
    ensures made { MadeIsOfGrammar }
{}

/// The pads of all members give the message; the own pad and the pads of the others fit, and so does whatever an
/// honest member sends.
pub fn pad_laws()
    ensures pads_give_message { PadsGiveMessage }
    ensures own_fits { OwnPadFits }
    ensures other_fits { OtherPadsFit }
    ensures honest_fits { HonestPadFits }
{}

/// Where no two strings of a list have one SHA-256: of the pads whose strings are in it at most one fits a
/// member's place, and pads that all fit a made descriptor give its message.
pub fn fitting_laws()
    ensures fits_determines { FitsDetermines }
    ensures all_fit_message { AllFitMessage }
{}
