//! Hashing a tag with its pieces.

ghost use Rattle.std.specs.Prelude.{◌≡◌, ◌<◌, ◌^◌, ◌++◌, ◌∷◌, ℕ, List, [], length};
ghost use Rattle.std.specs.Int.{w32, to_be_bytes};
ghost use Rattle.wire_core.specs.declared.tag.Tag.{Tag};
ghost use Rattle.wire_core.specs.Hash.{hash_of};
ghost use Rattle.wire_core.specs.Register.{Holds};

use crate::tag::Tag;
use sha2::{Digest, Sha256};

/// A hash that is being taken: the SHA-256 (FIPS 180-4) of "DSNT1", the byte of a tag, and for
/// each piece its length in four bytes and its bytes. The tag and the pieces are determined by
/// what is hashed.
#[derive(Debug, Drop)]
pub struct Register {
    hasher: Sha256,
}

impl Register {
    /// A register of this tag, with no pieces.
    pub fn new(tag: Tag) -> Register
        ensures { Holds result tag [] }
    {
        let mut hasher = Sha256::new();
        hasher.update(b"DSNT1");
        hasher.update([tag.number()]);
        Register { hasher }
    }

    /// Adds a piece of fewer than 2^32 bytes.
    pub fn piece(&mut self, b: &[u8])
        requires { length b.now < 2 ^ 32 }
        ensures { (tag : Tag) (pieces : List (List ℕ)) →
            Holds self.old tag pieces → Holds self.new tag (pieces ++ b.now ∷ []) }
    {
        self.hasher.update(length_bytes(b));
        self.hasher.update(b);
    }

    /// The hash of the tag and the pieces in the order in which they came.
    pub fn end(self) -> [u8; 32]
        ensures { (tag : Tag) (pieces : List (List ℕ)) → Holds self tag pieces → result ≡ hash_of tag pieces }
    {
        self.hasher.finalize()
    }
}

// The length of a piece, as it is hashed before it.
fn length_bytes(b: &[u8]) -> [u8; 4]
    requires { length b.now < 2 ^ 32 }
    ensures { result ≡ to_be_bytes w32 (length b.now) }
{
    (b.len() as u32).to_be_bytes()
}
