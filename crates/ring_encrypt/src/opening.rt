//! Reading the bits of a capsule.

ghost use Rattle.std.specs.Prelude.{◌≡◌, ◌<◌, ◌≤◌, ◌+◌, ◌*◌, All, length, slice_index, pos, ◌-ℤ◌};
ghost use Rattle.ring_poly.specs.Residue.{residue};
ghost use Rattle.ring_encrypt.specs.Opening.{message_of, number_of_bits, opened_bit, bit_of_coefficient};

use ring_poly::{MODULUS, Poly};

/// The 32 bytes that the coefficients of v - u s stand for, where `us` is the product u s.
pub(crate) fn read_message(v: &[u16; 256], us: &Poly) -> [u8; 32]
    requires { All (λ c. c < MODULUS) v.now }
    ensures { result ≡ message_of v.now us.now }
{
    let mut m = [0; 32];
    for j in 0..32 {
        m[j] = read_byte(v, us, j);
    }
    m
}

// Byte j of the message.
fn read_byte(v: &[u16; 256], us: &Poly, j: usize) -> u8
    requires reduced { All (λ c. c < MODULUS) v.now }
    requires place { j < 32 }
    ensures { result ≡ number_of_bits (λ i. opened_bit v.now us.now (8 * j + i)) 8 }
{
    let mut byte = 0;
    for i in 0..8 {
        let c = 8 * j + i;
        byte += read_bit(v[c], us.get(c)) << i;
    }
    byte
}

// The bit that a coefficient of the difference stands for.
fn read_bit(v: u16, us: u16) -> u8
    requires v { v < MODULUS }
    requires us { us < MODULUS }
    ensures value { result ≡ bit_of_coefficient (residue (pos v -ℤ pos us)) }
    ensures bit { result ≤ 1 }
{
    let w = (v + MODULUS - us) % MODULUS;
    u8::from(3073 <= w && w <= 9216)
}
