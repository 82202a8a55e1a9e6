//! The parameter sets of LM-OTS (RFC 8554, section 4.1, table 1).

/// A parameter set of LM-OTS with SHA-256 and 32-byte hashes, named for the bits of a digit.
#[derive(Clone, Copy, Debug, PartialEq, Eq)]
pub enum OtsType {
    W1,
    W2,
    W4,
    W8,
}

impl OtsType {
    ghost use Rattle.std.specs.Prelude.{◌≡◌, ◌-◌, ◌^◌};
    ghost use Rattle.lm_ots.specs.OneTime.{checksum_shift, chain_count, digit_bits, signature_bytes, type_number, type_of_number};

    /// The type of a number, or `None` where the number is none of 1 to 4.
    pub fn of_number(number: u32) -> Option<OtsType>
        ensures { result ≡ type_of_number number }
    {
        match number {
            1 => Some(OtsType::W1),
            2 => Some(OtsType::W2),
            3 => Some(OtsType::W4),
            4 => Some(OtsType::W8),
            _ => None,
        }
    }

    /// The number that stands for the type in keys and signatures, 1 to 4.
    pub fn number(self) -> u32
        ensures { result ≡ type_number self }
    {
        match self {
            OtsType::W1 => 1,
            OtsType::W2 => 2,
            OtsType::W4 => 3,
            OtsType::W8 => 4,
        }
    }

    /// w of the RFC: the bits of a digit.
    pub fn w(self) -> u32
        ensures { result ≡ digit_bits self }
    {
        match self {
            OtsType::W1 => 1,
            OtsType::W2 => 2,
            OtsType::W4 => 4,
            OtsType::W8 => 8,
        }
    }

    /// p of the RFC: the chains of a key.
    pub fn p(self) -> u16
        ensures { result ≡ chain_count self }
    {
        match self {
            OtsType::W1 => 265,
            OtsType::W2 => 133,
            OtsType::W4 => 67,
            OtsType::W8 => 34,
        }
    }

    // 2^w - 1: the last place of a chain, and the greatest digit.
    pub(crate) fn last_place(self) -> u8
        ensures { result ≡ 2 ^ digit_bits self - 1 }
    {
        match self {
            OtsType::W1 => 1,
            OtsType::W2 => 3,
            OtsType::W4 => 15,
            OtsType::W8 => 255,
        }
    }

    /// ls of the RFC: how many bits the checksum is shifted to the left.
    pub fn ls(self) -> u32
        ensures { result ≡ checksum_shift self }
    {
        match self {
            OtsType::W1 => 7,
            OtsType::W2 => 6,
            OtsType::W4 => 4,
            OtsType::W8 => 0,
        }
    }

    /// The bytes of a signature: 8,516, 4,292, 2,180 or 1,124.
    pub fn signature_length(self) -> u32
        ensures { result ≡ signature_bytes self }
    {
        4 + 32 + 32 * u32::from(self.p())
    }
}
