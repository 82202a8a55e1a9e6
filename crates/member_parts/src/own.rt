//! What a member made of its own.

use std::alloc::Global;
use wire_core::List;

/// What a member made of its own, as far as it did: the bytes of its descriptor, the pad that it sends itself, and the inner
/// ciphertext of what it submitted last.
#[derive(Drop)]
pub struct Own {
    pub descriptor: List<u8>,
    pub pad: List<u8>,
    pub inner_ciphertext: List<u8>,
}

impl Own {
    ghost use Rattle.std.specs.Prelude.{◌≡◌, []};

    /// Nothing yet. It takes no memory.
    pub fn new(alloc: Global) -> Own
        ensures descriptor { result.descriptor ≡ [] }
        ensures pad { result.pad ≡ [] }
        ensures inner_ciphertext { result.inner_ciphertext ≡ [] }
    {
        Own {
            descriptor: List::of(Vec::new(alloc)),
            pad: List::of(Vec::new(alloc)),
            inner_ciphertext: List::of(Vec::new(alloc)),
        }
    }
}
