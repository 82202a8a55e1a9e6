//! What single words spell.
ghost use Rattle.std.specs.Prelude.{◌≡◌, ◌&&◌, nat_le};
ghost use Rattle.dissent_words.specs.Numbers.{number_of, number_within, height_of, width_of};

use lm_ots::OtsType;
use lms_tree::MadeHeight;

/// The number that a word spells, where it is from `least` to `most`.
pub(crate) fn read_number(word: &str, least: u64, most: u64) -> Option<u64>
    ensures { result ≡ number_within least most word.now }
{
    let number = decimal(word)?;
    if is_within(number, least, most) {
        Some(number)
    } else {
        None
    }
}

// Whether a number is from `least` to `most`.
fn is_within(number: u64, least: u64, most: u64) -> bool
    ensures { result ≡ (nat_le least number && nat_le number most) }
{
    least <= number && number <= most
}

// The number that a word spells in decimal digits, without a sign or a leading 0.
fn decimal(word: &str) -> Option<u64>
    ensures { result ≡ number_of word.now }
{
    match word.as_bytes() {
        b"0" => Some(0),
        [first, ..] if *first > b'0' => word.parse().ok(),
        _ => None,
    }
}

/// The height that a word spells.
pub(crate) fn read_height(word: &str) -> Option<MadeHeight>
    ensures { result ≡ height_of word.now }
{
    match word {
        "5" => Some(MadeHeight::H5),
        "10" => Some(MadeHeight::H10),
        _ => None,
    }
}

/// The width that a word spells.
pub(crate) fn read_width(word: &str) -> Option<OtsType>
    ensures { result ≡ width_of word.now }
{
    match word {
        "1" => Some(OtsType::W1),
        "2" => Some(OtsType::W2),
        "4" => Some(OtsType::W4),
        "8" => Some(OtsType::W8),
        _ => None,
    }
}
