//! What a member submits to a shuffle.

use wire_core::List;

/// An item in its layers.
#[derive(Debug, Drop)]
pub struct Submission {
    /// The item in the layers of the inner keys. It is what a member looks for in the last list.
    pub inner_ciphertext: List<u8>,
    /// That in the layers of the outer keys. It is what a member submits.
    pub ciphertext: List<u8>,
}
