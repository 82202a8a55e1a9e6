//! One-time keys: each signs one message (RFC 8554, sections 4.3 and 4.5, and appendix A).

ghost use Rattle.std.specs.Prelude.{◌≡◌, ℕ, ◌+◌, ◌-◌, ◌^◌, ◌++◌, ◌<◌, ◌≤◌, [], slice_index_or, Ok, IfOk, IfErr};
ghost use Rattle.sha2.specs.Sha256.{sha256};
ghost use Rattle.lm_ots.specs.OneTime.{chain, chain_count, coef, digit_bits};
ghost use Rattle.lm_ots.specs.Walks.{own_walk, walk_at};
ghost use Rattle.lm_ots.specs.Signing.{LeadsToKey, chain_start, ots_public, ots_signature, own_values, parts_of, seed_string};

use crate::chains::{key_over, message_hash};
use crate::digits::{coef, signed_string};
use crate::step_strings::step_string;
use crate::strings::u32str;
use crate::types::OtsType;
use crate::walks::{Walk, Walks, walk_to_ends, walks_to};
use sha_lanes::four_digests;
use sha2::{Digest, Sha256};
use std::alloc::{AllocError, Global};

// The place of the randomizer among the secrets of a leaf, above all chains.
const RANDOMIZER: u16 = 0xfffd;

/// A one-time key. It can be neither copied nor dropped: it signs one message, or is retired.
pub struct OtsKey {
    width: OtsType,
    identifier: [u8; 16],
    q: u32,
    seed: [u8; 32],
}

/// The key of leaf `q` of the tree with this identifier I and this SEED.
pub fn make(width: OtsType, identifier: [u8; 16], q: u32, seed: [u8; 32]) -> OtsKey
    ensures { parts_of result ≡ record { width = width; identifier = identifier; q = q; seed = seed } }
{
    OtsKey {
        width,
        identifier,
        q,
        seed,
    }
}

impl OtsKey {
    /// K of the RFC, the public key (section 4.3).
    pub fn public(&self) -> [u8; 32]
        ensures { result ≡ ots_public (parts_of self.now) }
    {
        let mut walks = walks_to(self.width.last_place());
        self.walk(&mut walks);
        key_over(self.width, &self.identifier, self.q, &walks)
    }

    /// The signature of a message (section 4.5), after which the key is gone: 36 bytes and 32 for each
    /// chain. Out of memory nothing was signed, and the key comes back.
    pub fn sign(self, alloc: Global, message: &[u8]) -> Result<Vec<u8>, (OtsKey, AllocError)>
        ensures signed { IfOk result (λ signature. signature.items ≡ ots_signature (parts_of self) message.now) }
        ensures kept { IfErr result (λ e. e.0 ≡ self) }
    {
        match self.signature(alloc, message) {
            Ok(signature) => {
                self.retire();
                Ok(signature)
            }
            Err(error) => Err((self, error)),
        }
    }

    /// Ends the use of a key that signed nothing.
    pub fn retire(self) {
        let OtsKey {
            width: _,
            identifier: _,
            q: _,
            seed: _,
        } = self;
    }

    fn signature(&self, alloc: Global, message: &[u8]) -> Result<Vec<u8>, AllocError>
        ensures { IfOk result (λ signature. signature.items ≡ ots_signature (parts_of self.now) message.now) }
    {
        let randomizer = self.secret(RANDOMIZER);
        let digest = message_hash(&self.identifier, self.q, &randomizer, message);
        let signed = signed_string(self.width, &digest);
        let mut signature = Vec::new(alloc);
        signature.extend_from_slice(&u32str(self.width.number()))?;
        signature.extend_from_slice(&randomizer)?;
        self.put_values(&signed, &mut signature)?;
        Ok(signature)
    }

    // Each chain as far as its digit of the string that is signed.
    fn put_values(&self, signed: &[u8; 34], to: &mut Vec<u8>) -> Result<(), AllocError>
        ensures { IfOk result (λ _. to.new.items ≡ to.old.items ++ own_values (parts_of self.now) signed.now (chain_count self.now.width)) }
    {
        let mut walks = walks_to_digits(self.width, signed);
        self.walk(&mut walks);
        for i in 0..self.width.p() {
            to.extend_from_slice(&walks[usize::from(i)].value)?;
        }
        Ok(())
    }

    // Takes each chain from its start to the end that the table has for it.
    fn walk(&self, walks: &mut Walks)
        ensures { (i : ℕ) → i < chain_count self.now.width → (walk_at walks.new i).value
            ≡ chain self.now.identifier self.now.q i 0 (walk_at walks.old i).end (chain_start (parts_of self.now) i) }
    {
        self.begin(walks);
        walk_to_ends(&self.identifier, self.q, self.width.p(), walks);
    }

    // Puts each chain at its start.
    fn begin(&self, walks: &mut Walks)
        ensures { (i : ℕ) → i < chain_count self.now.width → walk_at walks.new i
            ≡ own_walk (parts_of self.now) (walk_at walks.old i).end i }
    {
        let groups = self.width.p().div_ceil(4);
        for group in 0..groups {
            self.begin_four(4 * group, walks);
        }
    }

    // Puts four chains from `first` on at their starts.
    fn begin_four(&self, first: u16, walks: &mut Walks)
        requires { first + 4 ≤ 268 }
        ensures before { (i : ℕ) → i < first → walk_at walks.new i ≡ walk_at walks.old i }
        ensures begun { (i : ℕ) → first ≤ i → i < first + 4
            → walk_at walks.new i ≡ own_walk (parts_of self.now) (walk_at walks.old i).end i }
        ensures behind { (i : ℕ) → first + 4 ≤ i → walk_at walks.new i ≡ walk_at walks.old i }
    {
        let starts = self.four_starts(first);
        for i in first..first + 4 {
            let at = usize::from(i);
            let end = walks[at].end;
            let value = starts[usize::from(i - first)];
            walks[at] = Walk {
                place: 0,
                end,
                value,
            };
        }
    }

    // The starts of four chains from `first` on.
    fn four_starts(&self, first: u16) -> [[u8; 32]; 4]
        requires { first + 4 ≤ 268 }
        ensures { (k : ℕ) → k < 4 → slice_index_or result k [] ≡ chain_start (parts_of self.now) (first + k) }
    {
        let strings = [
            self.seed_string(first),
            self.seed_string(first + 1),
            self.seed_string(first + 2),
            self.seed_string(first + 3),
        ];
        four_digests(&strings)
    }

    // The string of the secret of the leaf at a place.
    fn seed_string(&self, i: u16) -> [u8; 55]
        ensures { result ≡ seed_string self.now.identifier self.now.q i self.now.seed }
    {
        step_string(&self.identifier, self.q, i, 0xff, &self.seed)
    }

    // The secret of the leaf at a place: the start of a chain, or C.
    fn secret(&self, i: u16) -> [u8; 32]
        ensures { result ≡ sha256 (seed_string self.now.identifier self.now.q i self.now.seed) }
    {
        Sha256::digest(&self.seed_string(i))
    }
}

// No values yet, to be walked to the digits of the string that is signed.
fn walks_to_digits(width: OtsType, signed: &[u8; 34]) -> Walks
    ensures { (i : ℕ) → i < chain_count width → (walk_at result i).end ≡ coef signed.now i (digit_bits width) }
{
    let mut walks = walks_to(0);
    for i in 0..width.p() {
        let at = usize::from(i);
        let end = coef(signed, u32::from(i), width.w()) as u8;
        walks[at] = Walk { end, ..walks[at] };
    }
    walks
}

/// The candidate of a key's own signature is the key's K.
pub fn own_signatures_lead_to_their_key()
    ensures { LeadsToKey }
{}
