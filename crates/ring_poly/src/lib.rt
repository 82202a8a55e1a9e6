//! Polynomials of 1,024 coefficients modulo 12289, where x^1024 = -1.
#![tactic(auto)]

mod arithmetic;
mod laws;
mod packing;
mod polynomials;

pub use arithmetic::{add, mul, sub};
pub use laws::{factors_commute, mask_cancels, packing_undone, product_of_small, product_of_sum};
pub use packing::{CoefficientTooLarge, pack, pack_short, unpack, unpack_short};
pub use polynomials::{Poly, Ternary, is_ternary, residue_of};

/// The modulus of the coefficients.
pub const MODULUS: u16 = 12289;

/// How many coefficients a polynomial has.
pub const DEGREE: usize = 1024;

/// How many bytes a packed polynomial has.
pub const PACKED_BYTES: usize = 1792;

/// How many bytes a public key has: 32, from which a polynomial is drawn, and a packed polynomial.
pub const KEY_BYTES: usize = 1824;
