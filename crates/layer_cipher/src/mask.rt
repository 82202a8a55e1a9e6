//! The mask and the check value of a layer.

ghost use Rattle.std.specs.Prelude.{◌≡◌, ◌<◌, ◌^◌, ◌∷◌, [], length, IfOk};
ghost use Rattle.wire_core.specs.declared.tag.Tag.TheVariants.{LayerStream, LayerTag};
ghost use Rattle.wire_core.specs.Hash.{hash_of};
ghost use Rattle.layer_cipher.specs.Layer.{masked};

use pad_stream::{stream, xor_into};
use std::alloc::{AllocError, Global};
use wire_core::{Register, Tag};

/// A body under the mask that is drawn from m, or out from under it.
pub(crate) fn mask(alloc: Global, m: &[u8; 32], body: &[u8]) -> Result<Vec<u8>, AllocError>
    requires { length body.now < 2 ^ 32 }
    ensures { IfOk result (λ bytes. bytes.items ≡ masked m.now body.now) }
{
    let mut masked = stream(alloc, &mask_key(m), body.len() as u32)?;
    xor_into(&mut masked, body);
    Ok(masked)
}

/// The check value of m and a masked body.
pub(crate) fn check_value(m: &[u8; 32], masked: &[u8]) -> [u8; 32]
    requires { length masked.now < 2 ^ 32 }
    ensures { result ≡ hash_of LayerTag (m.now ∷ masked.now ∷ []) }
{
    let mut register = Register::new(Tag::LayerTag);
    register.piece(m);
    register.piece(masked);
    register.end()
}

// What the mask is drawn from.
fn mask_key(m: &[u8; 32]) -> [u8; 32]
    ensures { result ≡ hash_of LayerStream (m.now ∷ []) }
{
    let mut register = Register::new(Tag::LayerStream);
    register.piece(m);
    register.end()
}
