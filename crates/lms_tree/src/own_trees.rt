//! The tree of a secret, with all its nodes (RFC 8554, section 5.3).

ghost use Rattle.std.specs.Prelude.{◌≡◌, ◌+◌, ◌*◌, ◌<◌, ◌≤◌, ◌^◌, ◌++◌, IfOk, length};
ghost use Rattle.lm_ots.specs.Signing.{ots_public, parts_of};
ghost use Rattle.lms_tree.specs.Secret.{leaf_key, leaves, lms_signature, own_path, own_public, sibling};
ghost use Rattle.lms_tree.specs.States.{OwnNodes, secret_parts};
ghost use Rattle.lms_tree.specs.Tree.{height};

use crate::keys::{LmsPublic, LmsType};
use crate::nodes::{leaf_hash, node_hash};
use lm_ots::{OtsKey, OtsType, make, u32str};
use std::alloc::{AllocError, Global};
use std::marker::Model;

// What a secret is made of.
#[derive(Clone, Copy)]
pub(crate) struct TreeParts {
    pub lms_type: LmsType,
    pub ots_type: OtsType,
    pub identifier: [u8; 16],
    pub seed: [u8; 32],
}

impl TreeParts {
    fn leaves(&self) -> u32
        ensures number { result ≡ leaves (secret_parts self.now) }
        ensures small { result ≤ 2 ^ 25 }
    {
        1u32 << self.lms_type.height()
    }

    fn leaf_key(&self, q: u32) -> OtsKey
        ensures { parts_of result ≡ leaf_key (secret_parts self.now) q }
    {
        make(self.ots_type, self.identifier, q, self.seed)
    }

    // K of a leaf.
    fn leaf_public(&self, q: u32) -> [u8; 32]
        ensures { result ≡ ots_public (leaf_key (secret_parts self.now) q) }
    {
        let key = self.leaf_key(q);
        let k = key.public();
        key.retire();
        k
    }
}

// A secret's tree. Node r stands at place r, node 1 the root; place 0 holds zeros.
#[derive(Drop)]
pub(crate) struct OwnTree {
    parts: TreeParts,
    nodes: Vec<[u8; 32]>,
}

impl Model for OwnTree {
    ghost use Rattle.std.specs.Prelude.{◌≡◌, ◌*◌, length};
    ghost use Rattle.lms_tree.specs.Secret.{SecretParts, leaves};
    ghost use Rattle.lms_tree.specs.States.{OwnNodes, secret_parts};

    ghost Value = { SecretParts };

    ghost view = { λ tree. secret_parts tree.parts };

    ghost invariant = { λ tree. (length tree.nodes.items ≡ 2 * leaves (secret_parts tree.parts))
        × OwnNodes (secret_parts tree.parts) tree.nodes.items 1 };
}

impl OwnTree {
    pub(crate) fn grow(alloc: Global, parts: TreeParts) -> Result<OwnTree, AllocError>
        ensures { IfOk result (λ tree. tree ≡ secret_parts parts) }
    {
        let mut nodes = vec![in alloc; [0; 32]; 2 * parts.leaves() as usize]?;
        put_leaves(&parts, &mut nodes);
        put_inner(&parts, &mut nodes);
        Ok(OwnTree { parts, nodes })
    }

    pub(crate) fn copy(&self, alloc: Global) -> Result<OwnTree, AllocError>
        ensures { IfOk result (λ tree. tree ≡ self.now) }
    {
        let nodes = Vec::from_slice(alloc, &self.nodes)?;
        Ok(OwnTree {
            parts: self.parts,
            nodes,
        })
    }

    pub(crate) fn leaves(&self) -> u32
        ensures { result ≡ leaves self.now }
    {
        self.parts.leaves()
    }

    pub(crate) fn lms_type(&self) -> LmsType
        ensures { result ≡ self.now.lms_type }
    {
        self.parts.lms_type
    }

    pub(crate) fn public(&self) -> LmsPublic
        ensures { result ≡ own_public self.now }
    {
        LmsPublic {
            lms_type: self.parts.lms_type,
            ots_type: self.parts.ots_type,
            identifier: self.parts.identifier,
            root: self.nodes[1],
        }
    }

    // The signature of a message with leaf `q`. The caller sees to it that no leaf signs twice.
    pub(crate) fn signature(
        &self,
        alloc: Global,
        q: u32,
        message: &[u8],
    ) -> Result<Vec<u8>, AllocError>
        requires { q < leaves self.now }
        ensures { IfOk result (λ sig. sig.items ≡ lms_signature self.now q message.now) }
    {
        signature(alloc, &self.parts, &self.nodes, q, message)
    }
}

// Writes the leaves.
fn put_leaves(parts: &TreeParts, nodes: &mut [[u8; 32]])
    requires { length nodes.old ≡ 2 * leaves (secret_parts parts.now) }
    ensures { OwnNodes (secret_parts parts.now) nodes.new (leaves (secret_parts parts.now)) }
{
    let leaves = parts.leaves();
    for q in 0..leaves {
        let r = leaves + q;
        nodes[r as usize] = leaf_hash(&parts.identifier, r, &parts.leaf_public(q));
    }
}

// Writes the inner nodes above the leaves.
fn put_inner(parts: &TreeParts, nodes: &mut [[u8; 32]])
    requires whole { length nodes.old ≡ 2 * leaves (secret_parts parts.now) }
    requires leaves { OwnNodes (secret_parts parts.now) nodes.old (leaves (secret_parts parts.now)) }
    ensures { OwnNodes (secret_parts parts.now) nodes.new 1 }
{
    let leaves = parts.leaves();
    for i in 1..leaves {
        let r = leaves - i;
        let at = 2 * r as usize;
        nodes[r as usize] = node_hash(&parts.identifier, r, &nodes[at], &nodes[at + 1]);
    }
}

// The other child of a node's parent.
fn sibling(node: u32) -> u32
    requires { node + 1 < 2 ^ 32 }
    ensures { result ≡ sibling node }
{
    if node % 2 == 0 { node + 1 } else { node - 1 }
}

// Appends the nodes beside the way from leaf `q` to the root.
fn put_path(
    parts: &TreeParts,
    nodes: &[[u8; 32]],
    q: u32,
    to: &mut Vec<u8>,
) -> Result<(), AllocError>
    requires whole { length nodes.now ≡ 2 * leaves (secret_parts parts.now) }
    requires own { OwnNodes (secret_parts parts.now) nodes.now 1 }
    requires leaf { q < leaves (secret_parts parts.now) }
    ensures { IfOk result (λ _. to.new.items
        ≡ to.old.items ++ own_path (secret_parts parts.now) q (height parts.now.lms_type)) }
{
    let mut node = parts.leaves() + q;
    for _level in 0..parts.lms_type.height() {
        to.extend_from_slice(&nodes[sibling(node) as usize])?;
        node /= 2;
    }
    Ok(())
}

// The signature of a message with leaf `q` (RFC 8554, section 5.4.1).
fn signature(
    alloc: Global,
    parts: &TreeParts,
    nodes: &[[u8; 32]],
    q: u32,
    message: &[u8],
) -> Result<Vec<u8>, AllocError>
    requires whole { length nodes.now ≡ 2 * leaves (secret_parts parts.now) }
    requires own { OwnNodes (secret_parts parts.now) nodes.now 1 }
    requires leaf { q < leaves (secret_parts parts.now) }
    ensures { IfOk result (λ sig. sig.items ≡ lms_signature (secret_parts parts.now) q message.now) }
{
    let one_time = match parts.leaf_key(q).sign(alloc, message) {
        Ok(one_time) => one_time,
        Err((key, error)) => {
            key.retire();
            return Err(error);
        }
    };
    let mut sig = Vec::new(alloc);
    sig.extend_from_slice(&u32str(q))?;
    sig.extend_from_slice(&one_time)?;
    sig.extend_from_slice(&u32str(parts.lms_type.number()))?;
    put_path(parts, nodes, q, &mut sig)?;
    Ok(sig)
}
