//! Coefficients in bytes: four coefficients of 14 bits in seven bytes.

ghost use Rattle.std.specs.Prelude.{◌≡◌, ◌*◌, ◌%◌, ◌^◌, ◌<◌, ◌+◌, ℕ, All, IfOk, OnOk, length, MatchResult, IsTrue, ◌↔◌, None, Some, slice_index};
ghost use Rattle.ring_poly.specs.Product.{IsPolynomial};
ghost use Rattle.ring_poly.specs.Packing.{packed, unpacked, read_packed, first_too_large, spelled_number};

use crate::polynomials::Poly;
use crate::{DEGREE, MODULUS, PACKED_BYTES};

/// The least coefficient that is 12289 or more, and where it stands.
#[derive(Clone, Copy, Debug, PartialEq, Eq)]
pub struct CoefficientTooLarge {
    /// Its place, from 0.
    pub place: u32,
    /// The number that the bytes spell there, of at most 14 bits.
    pub value: u32,
}

/// The 1,792 bytes of a polynomial: for every four coefficients c0 to c3 the seven bytes of the number
/// c0 + c1 * 2^14 + c2 * 2^28 + c3 * 2^42, the lowest byte first.
pub fn pack(p: &Poly) -> [u8; PACKED_BYTES]
    ensures value { result ≡ packed p.now }
    ensures length { length result ≡ PACKED_BYTES }
{
    let mut bytes = [0; PACKED_BYTES];
    pack_groups(p.coefficients(), &mut bytes);
    bytes
}

/// The 448 bytes of 256 coefficients, packed as those of a polynomial.
pub fn pack_short(coefficients: &[u16; 256]) -> [u8; 448]
    requires { All (λ c. c < MODULUS) coefficients.now }
    ensures value { result ≡ packed coefficients.now }
    ensures length { length result ≡ 448 }
{
    let mut bytes = [0; 448];
    pack_groups(coefficients, &mut bytes);
    bytes
}

/// The polynomial that 1,792 bytes spell. A coefficient of 12289 or more is refused, the least place first, so each
/// polynomial has one spelling, that of `pack`.
pub fn unpack(bytes: &[u8]) -> Result<Poly, CoefficientTooLarge>
    requires { length bytes.now ≡ PACKED_BYTES }
    ensures value { result ≡ read_packed bytes.now }
    ensures polynomial { IfOk result IsPolynomial }
{
    let mut coefficients = [0; DEGREE];
    unpack_groups(bytes, &mut coefficients);
    refuse_too_large(&coefficients)?;
    Ok(Poly::of(coefficients))
}

/// The 256 coefficients that 448 bytes spell, with the refusal of `unpack`.
pub fn unpack_short(bytes: &[u8]) -> Result<[u16; 256], CoefficientTooLarge>
    requires { length bytes.now ≡ 448 }
    ensures value { result ≡ read_packed bytes.now }
    ensures length { IfOk result (λ c. length c ≡ 256) }
    ensures reduced { IfOk result (All (λ c. c < MODULUS)) }
{
    let mut coefficients = [0; 256];
    unpack_groups(bytes, &mut coefficients);
    refuse_too_large(&coefficients)?;
    Ok(coefficients)
}

/// Writes seven bytes for every four coefficients.
fn pack_groups(coefficients: &[u16], bytes: &mut [u8])
    requires whole { length coefficients.now % 4 ≡ 0 }
    requires room { 4 * length bytes.old ≡ 7 * length coefficients.now }
    requires reduced { All (λ c. c < MODULUS) coefficients.now }
    ensures { bytes.new ≡ packed coefficients.now }
{
    for group in 0..coefficients.len() / 4 {
        let from = &coefficients[4 * group..4 * group + 4];
        pack_group(from, &mut bytes[7 * group..7 * group + 7]);
    }
}

/// Writes the seven bytes of four coefficients.
fn pack_group(coefficients: &[u16], bytes: &mut [u8])
    requires coefficients { length coefficients.now ≡ 4 }
    requires bytes { length bytes.old ≡ 7 }
    requires reduced { All (λ c. c < MODULUS) coefficients.now }
    ensures { bytes.new ≡ packed coefficients.now }
{
    let number = u64::from(coefficients[0])
        + (u64::from(coefficients[1]) << 14)
        + (u64::from(coefficients[2]) << 28)
        + (u64::from(coefficients[3]) << 42);
    bytes.copy_from_slice(&number.to_le_bytes()[..7]);
}

/// Writes four numbers of 14 bits for every seven bytes.
fn unpack_groups(bytes: &[u8], coefficients: &mut [u16])
    requires whole { length coefficients.old % 4 ≡ 0 }
    requires room { 4 * length bytes.now ≡ 7 * length coefficients.old }
    ensures { coefficients.new ≡ unpacked bytes.now }
{
    for group in 0..coefficients.len() / 4 {
        let from = &bytes[7 * group..7 * group + 7];
        unpack_group(from, &mut coefficients[4 * group..4 * group + 4]);
    }
}

/// Writes the four numbers of 14 bits that seven bytes spell.
fn unpack_group(bytes: &[u8], coefficients: &mut [u16])
    requires bytes { length bytes.now ≡ 7 }
    requires coefficients { length coefficients.old ≡ 4 }
    ensures { coefficients.new ≡ unpacked bytes.now }
{
    let number = number_of(bytes);
    coefficients[0] = (number % 0x4000) as u16;
    coefficients[1] = ((number >> 14) % 0x4000) as u16;
    coefficients[2] = ((number >> 28) % 0x4000) as u16;
    coefficients[3] = ((number >> 42) % 0x4000) as u16;
}

/// The number that seven bytes spell, the lowest first.
fn number_of(bytes: &[u8]) -> u64
    requires { length bytes.now ≡ 7 }
    ensures { let b = slice_index bytes.now in
        result ≡ spelled_number (b 0) (b 1) (b 2) (b 3) (b 4) (b 5) (b 6) }
{
    u64::from_le_bytes([
        bytes[0], bytes[1], bytes[2], bytes[3], bytes[4], bytes[5], bytes[6], 0,
    ])
}

/// Refuses the first number that is 12289 or more.
fn refuse_too_large(coefficients: &[u16]) -> Result<(), CoefficientTooLarge>
    requires { length coefficients.now < 2 ^ 32 }
    ensures value { MatchResult result (λ _. first_too_large 0 coefficients.now ≡ None) (λ e. first_too_large 0 coefficients.now ≡ Some e) }
    ensures reduced { OnOk result (All (λ c. c < MODULUS) coefficients.now) }
{
    for (place, coefficient) in coefficients.iter().enumerate() {
        if !is_coefficient(*coefficient) {
            return Err(CoefficientTooLarge {
                place: place as u32,
                value: u32::from(*coefficient),
            });
        }
    }
    Ok(())
}

/// Whether a number is below 12289.
fn is_coefficient(number: u16) -> bool
    ensures { IsTrue result ↔ (number < MODULUS) }
{
    number < MODULUS
}
