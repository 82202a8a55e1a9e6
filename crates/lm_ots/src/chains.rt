//! Chains of hashes, and the key that a signature leads to (RFC 8554, sections 4.3 to 4.6).

ghost use Rattle.std.specs.Prelude.{◌≡◌, ℕ, ◌+◌, ◌<◌, ◌≤◌, ◌^◌, ◌++◌, ◌∷◌, length, take};
ghost use Rattle.sha2.specs.Sha256.{sha256};
ghost use Rattle.lm_ots.specs.OneTime.{candidate, chain, chain_count, chain_ends, digit_bits, key_string, message_hash, signature_bytes};
ghost use Rattle.lm_ots.specs.Walks.{signature_walk, values, walk_at};

use crate::digits::{coef, signed_string};
use crate::step_strings::{set_head, set_step};
use crate::strings::{head_word, u16str, u32str};
use crate::types::OtsType;
use crate::walks::{Walk, Walks, walk_to_ends, walks_to};
use sha2::{Digest, Sha256};

// D_PBLC and D_MESG of the RFC.
pub(crate) const D_PBLC: u16 = 0x8080;

const D_MESG: u16 = 0x8181;

/// Why a byte string is no signature of its type.
#[derive(Clone, Copy, Debug, PartialEq, Eq)]
pub enum OtsRefusal {
    /// It has `have` bytes in place of `need`.
    Length { have: u32, need: u32 },
    /// Its first word is `found`, and not the type's number `expected`.
    Kind { found: u32, expected: u32 },
}

/// Q of the RFC: the hash of a message under a signature's randomizer C (RFC 8554, section 4.5).
pub fn message_hash(identifier: &[u8; 16], q: u32, randomizer: &[u8], message: &[u8]) -> [u8; 32]
    ensures { result ≡ message_hash identifier.now q randomizer.now message.now }
{
    let mut hasher = Sha256::new();
    hasher.update(identifier);
    hasher.update(u32str(q));
    hasher.update(u16str(D_MESG));
    hasher.update(randomizer);
    hasher.update(message);
    hasher.finalize()
}

/// The value `x` of chain `i`, stepped from place `from` to place `to` (RFC 8554, sections 4.3 and
/// 4.6). Where `to` is not above `from` it is `x`.
pub fn chain(identifier: &[u8; 16], q: u32, i: u16, from: u8, to: u8, x: [u8; 32]) -> [u8; 32]
    ensures { result ≡ chain identifier.now q i from to x }
{
    let mut block = [0; 55];
    set_head(&mut block, identifier, u32str(q), u16str(i));
    let mut tmp = x;
    for j in from..to {
        set_step(&mut block, j, &tmp);
        tmp = Sha256::digest(&block);
    }
    tmp
}

/// K over the values of the chains of a key.
pub(crate) fn key_over(width: OtsType, identifier: &[u8; 16], q: u32, walks: &Walks) -> [u8; 32]
    ensures { result ≡ sha256 (key_string identifier.now q (values walks.now (chain_count width))) }
{
    let mut hasher = Sha256::new();
    hasher.update(identifier);
    hasher.update(u32str(q));
    hasher.update(u16str(D_PBLC));
    for i in 0..width.p() {
        hasher.update(walks[usize::from(i)].value);
    }
    hasher.finalize()
}

// The values of the signature `sig`, each at its digit of `signed`, on their way to the ends of their chains.
fn walks_of_signature(width: OtsType, signed: &[u8; 34], sig: &[u8]) -> Walks
    requires { length sig.now ≡ signature_bytes width }
    ensures { (i : ℕ) → i < chain_count width → walk_at result i ≡ signature_walk width signed.now sig.now i }
{
    let w = width.w();
    let end = width.last_place();
    let mut walks = walks_to(end);
    for i in 0..width.p() {
        let place = coef(signed, u32::from(i), w) as u8;
        let at = 36 + 32 * usize::from(i);
        let mut value = [0; 32];
        value.copy_from_slice(&sig[at..at + 32]);
        walks[usize::from(i)] = Walk { place, end, value };
    }
    walks
}

// K over the ends of the chains of the signature `sig`, whose digits are those of `signed`.
fn key_of_ends(
    width: OtsType,
    identifier: &[u8; 16],
    q: u32,
    signed: &[u8; 34],
    sig: &[u8],
) -> [u8; 32]
    requires { length sig.now ≡ signature_bytes width }
    ensures { result ≡ sha256 (key_string identifier.now q
        (chain_ends width identifier.now q signed.now sig.now (chain_count width))) }
{
    let mut walks = walks_of_signature(width, signed, sig);
    walk_to_ends(identifier, q, width.p(), &mut walks);
    key_over(width, identifier, q, &walks)
}

/// The public key K that a signature of `message` leads to, for leaf `q` of the tree `identifier`
/// (RFC 8554, section 4.6, algorithm 4b). A signature has a word for the type, 32 bytes and 32
/// bytes for each chain.
///
/// Its length is tested first, then its type.
pub fn candidate(
    width: OtsType,
    identifier: [u8; 16],
    q: u32,
    message: &[u8],
    sig: &[u8],
) -> Result<[u8; 32], OtsRefusal>
    requires { length sig.now < 2 ^ 32 }
    ensures { result ≡ candidate width identifier q message.now sig.now }
{
    let need = width.signature_length();
    let have = sig.len() as u32;
    if have != need {
        return Err(OtsRefusal::Length { have, need });
    }
    let found = head_word(sig);
    let expected = width.number();
    if found != expected {
        return Err(OtsRefusal::Kind { found, expected });
    }
    let digest = message_hash(&identifier, q, &sig[4..36], message);
    let signed = signed_string(width, &digest);
    Ok(key_of_ends(width, &identifier, q, &signed, sig))
}
