//! Opening a layer.

ghost use Rattle.std.specs.Prelude.{◌≡◌, ◌<◌, ◌^◌, ◌↔◌, length, IfOk, IsTrue};
ghost use Rattle.layer_cipher.specs.Layer.{peeled};
ghost use Rattle.layer_cipher.specs.Peeling.{returned, Finds};

use crate::mask::{check_value, mask};
use crate::sealing::LAYER_BYTES;
use ring_encrypt::{CAPSULE_BYTES, KeySeed, read_capsule};
use std::alloc::{AllocError, Global};
use wire_core::List;

// How many bytes of a layer are its check value.
const CHECK_BYTES: usize = 32;

/// What a seed finds in bytes.
#[derive(Debug, Drop)]
pub enum Peeled {
    /// The bytes are the layer of this m and this body under the key of the seed.
    Layer {
        /// What the layer carries sealed.
        m: [u8; 32],
        /// The body, 2,272 bytes shorter than the layer.
        body: List<u8>,
    },
    /// The bytes are the layer of no m and body under the key of the seed.
    NoLayer,
}

/// Opens a layer of fewer than 2^32 bytes by a seed.
pub fn peel(alloc: Global, seed: &[u8; 32], ct: &[u8]) -> Result<Peeled, AllocError>
    requires { length ct.now < 2 ^ 32 }
    ensures value { IfOk result (λ found. found ≡ returned (peeled seed.now ct.now)) }
    ensures finds { IfOk result (λ found. Finds found seed.now ct.now) }
{
    let key = KeySeed::new(*seed);
    let found = peel_with(alloc, &key, ct);
    key.destroy();
    found
}

// Whether bytes are fewer than those of a layer of no body.
fn is_too_short(ct: &[u8]) -> bool
    ensures { IsTrue result ↔ (length ct.now < LAYER_BYTES) }
{
    ct.len() < LAYER_BYTES
}

/// Opens a layer of fewer than 2^32 bytes by a seed that is in use.
pub fn peel_with(alloc: Global, seed: &KeySeed, ct: &[u8]) -> Result<Peeled, AllocError>
    requires { length ct.now < 2 ^ 32 }
    ensures value { IfOk result (λ found. found ≡ returned (peeled seed.now ct.now)) }
    ensures finds { IfOk result (λ found. Finds found seed.now ct.now) }
{
    if is_too_short(ct) {
        return Ok(Peeled::NoLayer);
    }
    let (capsule, rest) = ct.split_at(CAPSULE_BYTES);
    let (check, masked) = rest.split_at(CHECK_BYTES);
    let Some(m) = seed.open_with(&read_capsule(capsule)) else {
        return Ok(Peeled::NoLayer);
    };
    if check_value(&m, masked).as_slice() != check {
        return Ok(Peeled::NoLayer);
    }
    let body = mask(alloc, &m, masked)?;
    Ok(Peeled::Layer {
        m,
        body: List::of(body),
    })
}
