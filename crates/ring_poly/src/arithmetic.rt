//! Sums, differences and products.

ghost use Rattle.std.specs.Prelude.{◌≡◌, ◌+◌, ◌^◌, ◌<◌, ◌≤◌, ℕ, length, map, slice_index, slice_index_or, All, EachIndex, unsigned_abs, neg_ℤ, pos, ◌+ℤ◌};
ghost use Rattle.std.proofs.Math.IntN.{◌*ℤ◌};
ghost use Rattle.ring_poly.specs.Residue.{residue};
ghost use Rattle.ring_poly.specs.Product.{IsPolynomial, IsTernary, IsTrit, product_of, sum_of, difference_of, coefficient, product_at, turned};

use crate::polynomials::{Poly, Ternary, residue_of};
use crate::{DEGREE, MODULUS};

/// The sum of two polynomials, place by place modulo 12289.
pub fn add(a: &Poly, b: &Poly) -> Poly
    ensures value { result ≡ sum_of a.now b.now }
    ensures polynomial { IsPolynomial result }
{
    let a = a.coefficients();
    let b = b.coefficients();
    let mut sum = [0; DEGREE];
    for place in 0..DEGREE {
        sum[place] = (a[place] + b[place]) % MODULUS;
    }
    Poly::of(sum)
}

/// The difference of two polynomials, place by place modulo 12289.
pub fn sub(a: &Poly, b: &Poly) -> Poly
    ensures value { result ≡ difference_of a.now b.now }
    ensures polynomial { IsPolynomial result }
{
    let a = a.coefficients();
    let b = b.coefficients();
    let mut difference = [0; DEGREE];
    for place in 0..DEGREE {
        difference[place] = (a[place] + MODULUS - b[place]) % MODULUS;
    }
    Poly::of(difference)
}

/// The product of two polynomials modulo 12289, where x^1024 = -1: place k is the sum of `a[j] * b[i]` over i + j = k,
/// less that over i + j = k + 1024.
pub fn mul(a: &Poly, b: &Ternary) -> Poly
    ensures value { result ≡ product_of a.now b.now }
    ensures polynomial { IsPolynomial result }
{
    reduced(&product_sums(a.coefficients(), b.coefficients()))
}

/// The product before it is reduced, by one row for each coefficient of `b`.
fn product_sums(a: &[u16; DEGREE], b: &[i8; DEGREE]) -> [i32; DEGREE]
    requires polynomial { IsPolynomial a.now }
    requires ternary { IsTernary b.now }
    ensures { EachIndex result (λ k. coefficient result k ≡ product_at (map pos a.now) b.now k) }
{
    let mut sums = [0; DEGREE];
    for row in 0..DEGREE {
        add_row(&mut sums, a, row, i32::from(b[row]));
    }
    sums
}

/// Adds `factor * x^row * a`.
fn add_row(sums: &mut [i32; DEGREE], a: &[u16; DEGREE], row: usize, factor: i32)
    requires row { row < DEGREE }
    requires sums { All (λ s. unsigned_abs s ≤ 2 ^ 30) sums.old }
    requires polynomial { IsPolynomial a.now }
    requires factor { IsTrit factor }
    ensures { EachIndex sums.new (λ k. coefficient sums.new k ≡ coefficient sums.old k +ℤ (turned (map pos a.now) row k *ℤ factor)) }
{
    add_multiple(&mut sums[row..], &a[..DEGREE - row], factor);
    add_multiple(&mut sums[..row], &a[DEGREE - row..], past_the_top(factor));
}

/// The factor of what is pushed past the top, where x^1024 = -1.
fn past_the_top(factor: i32) -> i32
    requires { IsTrit factor }
    ensures value { result ≡ neg_ℤ factor }
    ensures trit { IsTrit result }
{
    -factor
}

/// Adds `factor` times each term to the sum at its place.
fn add_multiple(sums: &mut [i32], terms: &[u16], factor: i32)
    requires lengths { length sums.old ≡ length terms.now }
    requires sums { All (λ s. unsigned_abs s ≤ 2 ^ 30) sums.old }
    requires terms { All (λ c. c < MODULUS) terms.now }
    requires factor { IsTrit factor }
    ensures { EachIndex sums.new (λ k. coefficient sums.new k ≡ coefficient sums.old k +ℤ (pos (slice_index terms.now k) *ℤ factor)) }
{
    for place in 0..terms.len() {
        sums[place] += i32::from(terms[place]) * factor;
    }
}

/// The polynomial with these coefficients modulo 12289.
fn reduced(sums: &[i32; DEGREE]) -> Poly
    ensures value { EachIndex result (λ k. slice_index result k ≡ residue (coefficient sums.now k)) }
    ensures polynomial { IsPolynomial result }
{
    let mut coefficients = [0; DEGREE];
    for place in 0..DEGREE {
        coefficients[place] = residue_of(sums[place]);
    }
    Poly::of(coefficients)
}
