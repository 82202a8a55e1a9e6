//! What is wrong with bytes that spell no content.

ghost use Rattle.std.specs.Prelude.{◌≡◌};

use wire_core::Short;

/// The first rule that the bytes of a content break, as `decode` numbers the rules.
#[derive(Clone, Copy, Debug, PartialEq, Eq)]
pub struct Offence {
    /// Where they break it: an offset in bytes, from 0.
    pub at: u32,
    pub rule: u32,
}

// A field that ends after the content breaks rule 2.
impl From<Short> for Offence {
    ghost from_gives = { λ short offence. offence ≡ record { at = short.at; rule = 2 } };

    fn from(short: Short) -> Offence {
        Offence {
            at: short.at,
            rule: 2,
        }
    }
}
