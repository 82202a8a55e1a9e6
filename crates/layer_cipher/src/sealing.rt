//! Sealing a body in a layer, and in many.

ghost use Rattle.std.specs.Prelude.{◌≡◌, ◌<◌, ◌+◌, ◌*◌, ◌^◌, length, vec_len, IfOk};
ghost use Rattle.layer_cipher.specs.Layer.{layer_of, wrapping_of};

use crate::mask::{check_value, mask};
use ring_encrypt::{PublicKey, seal_seed};
use std::alloc::{AllocError, Global};
use wire_core::put_bytes;

/// How many bytes a layer adds to its body.
pub const LAYER_BYTES: usize = 2272;

/// Hides a body of fewer than 2^32 bytes in a layer under a key: the capsule of m, a check value,
/// and the body under the mask that is drawn from m.
pub fn seal(
    alloc: Global,
    key: &PublicKey,
    m: &[u8; 32],
    body: &[u8],
) -> Result<Vec<u8>, AllocError>
    requires { length body.now < 2 ^ 32 }
    ensures { IfOk result (λ layer. layer.items ≡ layer_of key.now m.now body.now) }
{
    let masked = mask(alloc, m, body)?;
    let mut layer = Vec::with_capacity(alloc, body.len() + LAYER_BYTES)?;
    put_bytes(&mut layer, seal_seed(key, m).bytes())?;
    put_bytes(&mut layer, &check_value(m, &masked))?;
    put_bytes(&mut layer, &masked)?;
    Ok(layer)
}

/// Hides a blob in as many layers as there are keys, the first key outermost. Layer k is that of
/// key k and seed k. The whole has fewer than 2^32 bytes.
pub fn wrap(
    alloc: Global,
    keys: &Vec<PublicKey>,
    seeds: &Vec<[u8; 32]>,
    blob: &[u8],
) -> Result<Vec<u8>, AllocError>
    requires as_many { vec_len keys.now ≡ vec_len seeds.now }
    requires length { length blob.now + LAYER_BYTES * vec_len keys.now < 2 ^ 32 }
    ensures { IfOk result (λ layers. layers.items ≡ wrapping_of keys.now.items seeds.now.items blob.now) }
{
    let mut layers = Vec::from_slice(alloc, blob)?;
    let mut k = keys.len();
    while k > 0 {
        k -= 1;
        layers = seal(alloc, &keys[k], &seeds[k], &layers)?;
    }
    Ok(layers)
}
