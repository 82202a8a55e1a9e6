//! Secrets of trees: each gives its leaves away once, in runs.

ghost use Rattle.std.specs.Prelude.{◌≡◌, ◌+◌, ◌<◌, ◌≤◌, ◌^◌, ◌∷◌, [], IfOk, IfErr, Err, take};
ghost use Rattle.wire_core.specs.Hash.{hash_of};
ghost use Rattle.wire_core.specs.declared.tag.Tag.TheVariants.{LmsIdentifier, LmsSeed};
ghost use Rattle.lms_tree.specs.declared.secrets.ReserveRefusal.TheVariants.{Exhausted, Memory};
ghost use Rattle.lms_tree.specs.Secret.{leaves, own_public, parts_of_master};
ghost use Rattle.lms_tree.specs.States.{made_leaves, made_type};
ghost use Rattle.lms_tree.specs.Tree.{height};

use crate::keys::{LmsPublic, LmsType};
use crate::leaf_runs::LeafRun;
use crate::own_trees::{OwnTree, TreeParts};
use lm_ots::OtsType;
use std::alloc::{AllocError, Global};
use std::marker::Model;
use wire_core::{Register, Tag};

/// The heights of which keys are made: 32 or 1,024 leaves.
#[derive(Clone, Copy, Debug, PartialEq, Eq)]
pub enum MadeHeight {
    H5,
    H10,
}

impl MadeHeight {
    ghost use Rattle.std.specs.Prelude.{◌≡◌};
    ghost use Rattle.lms_tree.specs.States.{made_type};

    /// The LMS type of this height.
    pub fn lms_type(self) -> LmsType
        ensures { result ≡ made_type self }
    {
        match self {
            MadeHeight::H5 => LmsType::H5,
            MadeHeight::H10 => LmsType::H10,
        }
    }
}

/// Why a secret gives no leaves.
#[derive(Clone, Copy, Debug, PartialEq, Eq)]
pub enum ReserveRefusal {
    /// Fewer leaves are left: they begin at `next`, and the tree has 2^`height`.
    Exhausted { next: u32, height: u32 },
    /// Memory is wanting.
    Memory,
}

impl From<AllocError> for ReserveRefusal {
    ghost use Rattle.std.specs.Prelude.{◌≡◌};
    ghost use Rattle.lms_tree.specs.declared.secrets.ReserveRefusal.TheVariants.{Memory};

    ghost from_gives = { λ _ e. e ≡ Memory };

    fn from(_error: AllocError) -> ReserveRefusal {
        ReserveRefusal::Memory
    }
}

/// The secret of a tree, and its least leaf that no run has had. It holds all nodes of the tree, 32
/// bytes for each of twice the leaves.
#[derive(Drop)]
pub struct LmsSecret {
    tree: OwnTree,
    next: u32,
}

impl Model for LmsSecret {
    ghost use Rattle.std.specs.Prelude.{◌≤◌};
    ghost use Rattle.lms_tree.specs.Secret.{leaves};
    ghost use Rattle.lms_tree.specs.States.{SecretState};

    ghost Value = { SecretState };

    ghost view = { λ s. record { parts = s.tree; next = s.next } };

    ghost invariant = { λ s. s.next ≤ leaves s.tree };
}

impl LmsSecret {
    /// The secret of a master: its identifier I is the first 16 bytes of one hash of the master, and
    /// its SEED is another. Leaves below `next` are never given. Its only error is out of memory.
    pub fn make(
        alloc: Global,
        height: MadeHeight,
        width: OtsType,
        master: &[u8; 32],
        next: u32,
    ) -> Result<LmsSecret, AllocError>
        requires { next ≤ made_leaves height }
        ensures { IfOk result (λ s. s ≡ record {
          parts = parts_of_master (made_type height) width master.now;
          next = next;
        }) }
    {
        let (identifier, seed) = parts_of_master(master);
        LmsSecret::from_parts(alloc, height, width, identifier, seed, next)
    }

    /// The secret with this identifier I and this SEED (RFC 8554, appendix A). Leaves below `next` are
    /// never given. Its only error is out of memory.
    pub fn from_parts(
        alloc: Global,
        height: MadeHeight,
        width: OtsType,
        identifier: [u8; 16],
        seed: [u8; 32],
        next: u32,
    ) -> Result<LmsSecret, AllocError>
        requires { next ≤ made_leaves height }
        ensures { IfOk result (λ s. s ≡ record {
          parts = record { lms_type = made_type height; ots_type = width; identifier = identifier; seed = seed };
          next = next;
        }) }
    {
        let tree = OwnTree::grow(
            alloc,
            TreeParts {
                lms_type: height.lms_type(),
                ots_type: width,
                identifier,
                seed,
            },
        )?;
        Ok(LmsSecret { tree, next })
    }

    /// The public key (RFC 8554, section 5.3).
    pub fn public(&self) -> LmsPublic
        ensures { result ≡ own_public self.now.parts }
    {
        self.tree.public()
    }

    /// The least leaf that no run has had, or the number of leaves where none is left.
    pub fn next(&self) -> u32
        ensures value { result ≡ self.now.next }
        ensures within { self.now.next ≤ leaves self.now.parts }
    {
        self.next
    }

    /// Gives the next `n` leaves away, with a copy of the tree's nodes. `Exhausted` comes exactly where
    /// fewer are left, and `Memory` only where enough are. After a refusal the secret is what it was.
    pub fn reserve(&mut self, alloc: Global, n: u32) -> Result<LeafRun, ReserveRefusal>
        ensures exhausted { leaves self.old.parts < self.old.next + n
            → result ≡ Err (Exhausted self.old.next (height self.old.parts.lms_type)) }
        ensures enough { self.old.next + n ≤ leaves self.old.parts → IfErr result (λ e. e ≡ Memory) }
        ensures reserved { IfOk result (λ run. run ≡ record { parts = self.old.parts; first = self.old.next; left = n }) }
        ensures risen { IfOk result (λ _. self.new ≡ record { parts = self.old.parts; next = self.old.next + n }) }
        ensures kept { IfErr result (λ _. self.new ≡ self.old) }
    {
        let left = self.tree.leaves() - self.next;
        if left < n {
            return Err(ReserveRefusal::Exhausted {
                next: self.next,
                height: self.tree.lms_type().height(),
            });
        }
        let run = LeafRun::of(self.tree.copy(alloc)?, self.next, n);
        self.next += n;
        Ok(run)
    }
}

/// The identifier I and the SEED of a master: the first 16 bytes of one hash of it, and another hash.
pub fn parts_of_master(master: &[u8; 32]) -> ([u8; 16], [u8; 32])
    ensures identifier { result.0 ≡ take 16 (hash_of LmsIdentifier (master.now ∷ [])) }
    ensures seed { result.1 ≡ hash_of LmsSeed (master.now ∷ []) }
{
    let mut identifier = [0; 16];
    identifier.copy_from_slice(&hash_of(Tag::LmsIdentifier, master)[..16]);
    (identifier, hash_of(Tag::LmsSeed, master))
}

// The hash of a master under a tag.
fn hash_of(tag: Tag, master: &[u8; 32]) -> [u8; 32]
    ensures { result ≡ hash_of tag (master.now ∷ []) }
{
    let mut register = Register::new(tag);
    register.piece(master);
    register.end()
}
