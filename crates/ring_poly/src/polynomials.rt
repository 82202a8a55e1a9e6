//! The two kinds of polynomials.

ghost use Rattle.std.specs.Prelude.{◌≡◌, ◌<◌, ◌≤◌, ◌↔◌, All, IsTrue, map, slice_index, slice_index_or, pos};
ghost use Rattle.ring_poly.specs.Residue.{residue};
ghost use Rattle.ring_poly.specs.Product.{IsPolynomial, IsTernary, IsTrit, coefficient};

use crate::{DEGREE, MODULUS};
use std::marker::Model;

/// A polynomial: 1,024 coefficients below 12289, the lowest first.
#[derive(Clone, Copy, Debug, PartialEq, Eq)]
pub struct Poly {
    coefficients: [u16; DEGREE],
}

impl Model for Poly {
    ghost use Rattle.std.specs.Prelude.{List, ℕ};
    ghost use Rattle.ring_poly.specs.Product.{IsPolynomial};

    ghost Value = { List ℕ };

    ghost view = { λ p. p.coefficients };

    ghost invariant = { λ p. IsPolynomial p.coefficients };

    ghost inverse = { λ v. record { coefficients = v } };
}

impl Poly {
    /// The polynomial with these coefficients.
    pub fn of(coefficients: [u16; DEGREE]) -> Poly
        requires { All (λ c. c < MODULUS) coefficients }
        ensures value { result ≡ coefficients }
        ensures polynomial { IsPolynomial result }
    {
        Poly { coefficients }
    }

    /// The coefficient at `x^place`, for a place below 1,024.
    pub fn get(&self, place: usize) -> u16
        requires { place < DEGREE }
        ensures value { result ≡ slice_index self.now place }
        ensures reduced { result < MODULUS }
        ensures polynomial { IsPolynomial self.now }
    {
        self.coefficients[place]
    }

    /// The 1,024 coefficients, the lowest first.
    pub fn coefficients(&self) -> &[u16; DEGREE]
        ensures value { result.now ≡ self.now }
        ensures polynomial { IsPolynomial self.now }
    {
        &self.coefficients
    }
}

/// A polynomial of 1,024 coefficients of -1, 0 and 1, the lowest first.
#[derive(Clone, Copy, Debug, PartialEq, Eq)]
pub struct Ternary {
    coefficients: [i8; DEGREE],
}

impl Model for Ternary {
    ghost use Rattle.std.specs.Prelude.{List, ℤ};
    ghost use Rattle.ring_poly.specs.Product.{IsTernary};

    ghost Value = { List ℤ };

    ghost view = { λ t. t.coefficients };

    ghost invariant = { λ t. IsTernary t.coefficients };

    ghost inverse = { λ v. record { coefficients = v } };
}

impl Ternary {
    /// The polynomial with these coefficients, which `is_ternary` tests.
    pub fn of(coefficients: [i8; DEGREE]) -> Ternary
        requires { All IsTrit coefficients }
        ensures value { result ≡ coefficients }
        ensures ternary { IsTernary result }
    {
        Ternary { coefficients }
    }

    /// The coefficient at `x^place`, for a place below 1,024.
    pub fn get(&self, place: usize) -> i8
        requires { place < DEGREE }
        ensures value { result ≡ coefficient self.now place }
        ensures trit { IsTrit result }
        ensures ternary { IsTernary self.now }
    {
        self.coefficients[place]
    }

    /// The 1,024 coefficients, the lowest first.
    pub fn coefficients(&self) -> &[i8; DEGREE]
        ensures value { result.now ≡ self.now }
        ensures ternary { IsTernary self.now }
    {
        &self.coefficients
    }

    /// The same polynomial modulo 12289, where -1 is 12288.
    pub fn to_poly(&self) -> Poly
        ensures value { result ≡ map residue self.now }
        ensures polynomial { IsPolynomial result }
        ensures ternary { IsTernary self.now }
    {
        let own = self.coefficients();
        let mut residues = [0; DEGREE];
        for place in 0..DEGREE {
            residues[place] = residue_of(i32::from(own[place]));
        }
        Poly::of(residues)
    }
}

/// The number from 0 to 12288 that differs from `number` by a multiple of 12289.
pub fn residue_of(number: i32) -> u16
    ensures value { result ≡ residue number }
    ensures reduced { result < MODULUS }
{
    number.rem_euclid(MODULUS as i32) as u16
}

/// Whether all of 1,024 numbers are -1, 0 or 1.
pub fn is_ternary(coefficients: &[i8; DEGREE]) -> bool
    ensures { IsTrue result ↔ All IsTrit coefficients.now }
{
    coefficients.iter().all(|c| *c >= -1 && *c <= 1)
}
