//! The verification of a signature (RFC 8554, section 5.4.2).

ghost use Rattle.std.specs.Prelude.{◌≡◌, ◌<◌, ◌≤◌, ◌^◌, ◌↔◌, IfErr, IsOk, IsTrue, length};
ghost use Rattle.lms_tree.specs.Tree.{AcceptsValid, IsOtsKind, LmsValid, lms_bytes, lms_check, ots_part, path_part, type_part};
ghost use Rattle.lm_ots.specs.OneTime.{head_word};

use crate::keys::LmsPublic;
use crate::nodes::climb;
use lm_ots::{OtsRefusal, candidate, head_word};

/// Why a byte string is no valid signature of a message, in the order of the tests.
#[derive(Clone, Copy, Debug, PartialEq, Eq)]
pub enum LmsRefusal {
    /// It has `have` bytes in place of `need`.
    Length { have: u32, need: u32 },
    /// Its one-time signature has not the key's LM-OTS type: always an `OtsRefusal::Kind`.
    Ots(OtsRefusal),
    /// The word after the one-time signature is `found`, and not the key's LMS type `expected`.
    Kind { found: u32, expected: u32 },
    /// It names leaf `q`, of a tree with 2^`height` leaves.
    Leaf { q: u32, height: u32 },
    /// It leads to the root `computed`, and the key has `kept`.
    Root { computed: [u8; 32], kept: [u8; 32] },
}

// The parts of a signature: the leaf's number, the one-time signature, the LMS type's word and the
// nodes beside the way from the leaf to the root, the lowest first.
#[derive(Drop)]
struct Parts<'a> {
    q: u32,
    ots: &'a [u8],
    kind: u32,
    path: &'a [u8],
}

// The parts of a byte string of a signature's length.
fn parts_of<'a>(key: &LmsPublic, sig: &'a [u8]) -> Parts<'a>
    requires { length sig.now ≡ lms_bytes key.now }
    ensures q { result.q ≡ head_word sig.now }
    ensures ots { result.ots.now ≡ ots_part key.now sig.now }
    ensures kind { result.kind ≡ type_part key.now sig.now }
    ensures path { result.path.now ≡ path_part key.now sig.now }
{
    let (ots, rest) = sig[4..].split_at(key.ots_type.signature_length() as usize);
    Parts {
        q: head_word(sig),
        ots,
        kind: head_word(rest),
        path: &rest[4..],
    }
}

// Whether a tree of this height has a leaf `q`.
fn is_leaf(height: u32, q: u32) -> bool
    requires { height ≤ 25 }
    ensures { IsTrue result ↔ (q < 2 ^ height) }
{
    q < 1 << height
}

// Whether a climb led to the root of a key.
fn is_root(key: &LmsPublic, computed: &[u8; 32]) -> bool
    ensures { IsTrue result ↔ (computed.now ≡ key.now.root) }
{
    *computed == key.root
}

/// Verifies a signature of a message under a key (RFC 8554, section 5.4.2, algorithm 6). Its length
/// is tested first, then the LM-OTS type, the LMS type, the leaf's number and the root.
pub fn verify(key: &LmsPublic, message: &[u8], sig: &[u8]) -> Result<(), LmsRefusal>
    requires { length sig.now < 2 ^ 32 }
    ensures answer { result ≡ lms_check key.now message.now sig.now }
    ensures valid { IsOk result ↔ LmsValid key.now message.now sig.now }
    ensures ots_kind { IfErr result IsOtsKind }
{
    let need = key.signature_length();
    let have = sig.len() as u32;
    if have != need {
        return Err(LmsRefusal::Length { have, need });
    }
    let parts = parts_of(key, sig);
    let q = parts.q;
    let k = match candidate(key.ots_type, key.identifier, q, message, parts.ots) {
        Ok(k) => k,
        Err(refusal) => return Err(LmsRefusal::Ots(refusal)),
    };
    let expected = key.lms_type.number();
    if parts.kind != expected {
        return Err(LmsRefusal::Kind {
            found: parts.kind,
            expected,
        });
    }
    let height = key.lms_type.height();
    if !is_leaf(height, q) {
        return Err(LmsRefusal::Leaf { q, height });
    }
    let computed = climb(&key.identifier, height, q, &k, parts.path);
    if !is_root(key, &computed) {
        return Err(LmsRefusal::Root {
            computed,
            kept: key.root,
        });
    }
    Ok(())
}

/// A law over definitions: the check of a byte string answers Ok exactly where it is a valid signature.
pub fn check_decides_validity()
    ensures { AcceptsValid }
{}
