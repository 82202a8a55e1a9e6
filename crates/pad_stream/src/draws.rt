//! Bytes that are drawn from a key.

ghost use Rattle.std.specs.Prelude.{◌≡◌, ◌*◌, length, IfOk};
ghost use Rattle.pad_stream.specs.Stream.{stream_of, bytes_from, StreamIsAsLong};

use rand_chacha::ChaCha20Rng;
use rand_core::{Rng, SeedableRng};
use std::alloc::{AllocError, Global};

/// The first `length` bytes that are drawn from a key: the words of ChaCha20 (RFC 8439, with a
/// counter of 64 bits) for this key and a nonce of zeros, each as four bytes, low byte first.
pub fn stream(alloc: Global, key: &[u8; 32], length: u32) -> Result<Vec<u8>, AllocError>
    ensures { IfOk result (λ bytes. bytes.items ≡ stream_of key.now length) }
{
    let mut bytes = vec![in alloc; 0; length as usize]?;
    draw(key, 0, &mut bytes);
    Ok(bytes)
}

/// Fills `out` with the bytes that are drawn from a key, from word `place` on.
pub(crate) fn draw(key: &[u8; 32], place: u32, out: &mut [u8])
    ensures { out.new ≡ bytes_from key.now (4 * place) (length out.old) }
{
    let mut generator = ChaCha20Rng::from_seed(*key);
    generator.set_word_pos(u128::from(place));
    generator.fill_bytes(out);
}

/// The law of what is drawn: it is as long as was asked for. This function does nothing.
pub fn stream_laws()
    ensures { StreamIsAsLong }
{}
