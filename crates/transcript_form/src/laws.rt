//! Laws of transcripts. Nobody calls these functions: the contract of each states a law.

ghost use Rattle.transcript_form.specs.Accusation.{AccusationsAreSpelled};
ghost use Rattle.transcript_form.specs.Claim.{NumbersAreClaims};
ghost use Rattle.transcript_form.specs.Form.{ListedExactly};

/// A number is that of a claim exactly where it stands for it.
pub fn claims_have_numbers()
    ensures { NumbersAreClaims }
{}

/// 34 bytes spell one accusation, and no others spell it.
pub fn accusations_are_spelled()
    ensures { AccusationsAreSpelled }
{}

/// Bytes fail none of the checks of the form exactly where they spell a transcript, and they spell no
/// other.
pub fn transcripts_are_listed()
    ensures { ListedExactly }
{}
