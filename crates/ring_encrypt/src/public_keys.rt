//! Public keys.

ghost use Rattle.std.specs.Prelude.{◌≡◌, IfOk, IfErr, IsOk, ◌↔◌, ◌++◌, length, take, drop, Some, None};
ghost use Rattle.ring_poly.specs.Product.{IsPolynomial};
ghost use Rattle.ring_poly.specs.Packing.{packed, unpacked, first_too_large};
ghost use Rattle.ring_encrypt.specs.PublicKey.{IsPublicKey};

use crate::bytes::join;
use ring_poly::{CoefficientTooLarge, KEY_BYTES, Poly, pack, unpack};
use std::marker::Model;

/// A public key: 32 bytes from which a polynomial a is drawn, and 1,792 bytes that spell a
/// polynomial b, of which each coefficient is below 12289. It may be the key of no seed.
#[derive(Clone, Copy)]
pub struct PublicKey {
    bytes: [u8; KEY_BYTES],
}

impl Model for PublicKey {
    ghost use Rattle.std.specs.Prelude.{List, ℕ};
    ghost use Rattle.ring_encrypt.specs.PublicKey.{IsPublicKey};

    ghost Value = { List ℕ };

    ghost view = { λ key. key.bytes };

    ghost invariant = { λ key. IsPublicKey key.bytes };

    ghost inverse = { λ bytes. record { bytes = bytes } };
}

impl PublicKey {
    ghost use Rattle.ring_encrypt.specs.PublicKey.{IsPublicKey};

    // The key of these 32 bytes and this polynomial b.
    pub(crate) fn of(rho: &[u8; 32], b: &Poly) -> PublicKey
        requires { IsPolynomial b.now }
        ensures { result ≡ rho.now ++ packed b.now }
    {
        let mut bytes = [0; KEY_BYTES];
        join(rho, &pack(b), &mut bytes);
        PublicKey { bytes }
    }

    /// The 1,824 bytes of the key.
    pub fn bytes(&self) -> &[u8; KEY_BYTES]
        ensures value { result.now ≡ self.now }
        ensures key { IsPublicKey self.now }
    {
        &self.bytes
    }

    // The 32 bytes from which the polynomial a is drawn.
    pub(crate) fn rho(&self) -> [u8; 32]
        ensures { result ≡ take 32 self.now }
    {
        let mut rho = [0; 32];
        rho.copy_from_slice(&self.bytes[..32]);
        rho
    }

    // The polynomial b.
    pub(crate) fn polynomial(&self) -> Poly
        ensures { result ≡ unpacked (drop 32 self.now) }
    {
        match unpack(&self.bytes[32..]) {
            Ok(polynomial) => polynomial,
            Err(_) => unreachable!(),
        }
    }
}

/// The public key that 1,824 bytes spell. Refused where a coefficient is 12289 or more, by the
/// least such coefficient, whose place is counted from 0.
pub fn read_key(b: &[u8]) -> Result<PublicKey, CoefficientTooLarge>
    requires { length b.now ≡ KEY_BYTES }
    ensures ok { IsOk result ↔ IsPublicKey b.now }
    ensures value { IfOk result (λ key. key ≡ b.now) }
    ensures refusal { IfErr result (λ e. first_too_large 0 (unpacked (drop 32 b.now)) ≡ Some e) }
{
    if let Err(refusal) = unpack(&b[32..]) {
        return Err(refusal);
    }
    let mut bytes = [0; KEY_BYTES];
    bytes.copy_from_slice(b);
    Ok(PublicKey { bytes })
}
