//! The parameter sets of LMS and its public keys (RFC 8554, sections 5.1 and 5.3).

use lm_ots::{OtsType, head_word, u32str};

/// A parameter set of LMS with SHA-256 and 32-byte nodes, named for the height of the tree.
#[derive(Clone, Copy, Debug, PartialEq, Eq)]
pub enum LmsType {
    H5,
    H10,
    H15,
    H20,
    H25,
}

impl LmsType {
    ghost use Rattle.std.specs.Prelude.{◌≡◌};
    ghost use Rattle.lms_tree.specs.Tree.{height, tree_number, tree_of_number};

    /// The type of a number, or `None` where the number is none of 5 to 9.
    pub fn of_number(number: u32) -> Option<LmsType>
        ensures { result ≡ tree_of_number number }
    {
        match number {
            5 => Some(LmsType::H5),
            6 => Some(LmsType::H10),
            7 => Some(LmsType::H15),
            8 => Some(LmsType::H20),
            9 => Some(LmsType::H25),
            _ => None,
        }
    }

    /// The number that stands for the type in keys and signatures, 5 to 9.
    pub fn number(self) -> u32
        ensures { result ≡ tree_number self }
    {
        match self {
            LmsType::H5 => 5,
            LmsType::H10 => 6,
            LmsType::H15 => 7,
            LmsType::H20 => 8,
            LmsType::H25 => 9,
        }
    }

    /// h of the RFC: the levels of nodes above the leaves, of which there are 2^h.
    pub fn height(self) -> u32
        ensures { result ≡ height self }
    {
        match self {
            LmsType::H5 => 5,
            LmsType::H10 => 10,
            LmsType::H15 => 15,
            LmsType::H20 => 20,
            LmsType::H25 => 25,
        }
    }
}

/// Why 56 bytes are no public key.
#[derive(Clone, Copy, Debug, PartialEq, Eq)]
pub enum KeyRefusal {
    /// The first word is no LMS type.
    LmsKind { found: u32 },
    /// The second word is no LM-OTS type.
    OtsKind { found: u32 },
}

/// A public key of LMS: its types, the tree's identifier I and the tree's root T[1].
#[derive(Clone, Copy, Debug, PartialEq, Eq)]
pub struct LmsPublic {
    pub lms_type: LmsType,
    pub ots_type: OtsType,
    pub identifier: [u8; 16],
    pub root: [u8; 32],
}

impl LmsPublic {
    ghost use Rattle.std.specs.Prelude.{◌≡◌, IfOk, Ok};
    ghost use Rattle.lms_tree.specs.Tree.{key_bytes, key_read, lms_bytes};

    /// The key that 56 bytes stand for (RFC 8554, section 5.3). The LMS type's word is tested first,
    /// then the LM-OTS type's; nothing else is refused.
    pub fn read(b: &[u8; 56]) -> Result<LmsPublic, KeyRefusal>
        ensures value { result ≡ key_read b.now }
        ensures written { IfOk result (λ key. key_bytes key ≡ b.now) }
    {
        let found = head_word(b);
        let Some(lms_type) = LmsType::of_number(found) else {
            return Err(KeyRefusal::LmsKind { found });
        };
        let found = head_word(&b[4..]);
        let Some(ots_type) = OtsType::of_number(found) else {
            return Err(KeyRefusal::OtsKind { found });
        };
        let mut identifier = [0; 16];
        identifier.copy_from_slice(&b[8..24]);
        let mut root = [0; 32];
        root.copy_from_slice(&b[24..]);
        Ok(LmsPublic {
            lms_type,
            ots_type,
            identifier,
            root,
        })
    }

    /// The key's 56 bytes, which `read` reads back.
    pub fn bytes(&self) -> [u8; 56]
        ensures value { result ≡ key_bytes self.now }
        ensures read_back { key_read result ≡ Ok self.now }
    {
        let mut b = [0; 56];
        self.write_into(&mut b);
        b
    }

    // Writes the key's bytes over `b`.
    fn write_into(&self, b: &mut [u8; 56])
        ensures { b.new ≡ key_bytes self.now }
    {
        b[..4].copy_from_slice(&u32str(self.lms_type.number()));
        b[4..8].copy_from_slice(&u32str(self.ots_type.number()));
        b[8..24].copy_from_slice(&self.identifier);
        b[24..].copy_from_slice(&self.root);
    }

    /// The bytes of a signature under the key, at most 9,324: 8, those of an LM-OTS signature, and 32
    /// for each level of the tree.
    pub fn signature_length(&self) -> u32
        ensures { result ≡ lms_bytes self.now }
    {
        8 + self.ots_type.signature_length() + 32 * self.lms_type.height()
    }
}
