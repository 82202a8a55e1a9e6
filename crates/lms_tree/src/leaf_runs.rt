//! Runs of leaves: each leaf signs one message.

ghost use Rattle.std.specs.Prelude.{◌≡◌, ◌+◌, ◌-◌, ◌<◌, ◌≤◌, IfOk, IfErr};
ghost use Rattle.lms_tree.specs.Secret.{leaves, lms_signature, own_public};
ghost use Rattle.lms_tree.specs.Tree.{LmsValid};

use crate::own_trees::OwnTree;
use std::alloc::{AllocError, Global};
use std::marker::Model;

/// Leaves of a tree that may sign, each once, the least first. It can be neither copied nor dropped: what
/// is left of it is retired.
pub struct LeafRun {
    tree: OwnTree,
    first: u32,
    left: u32,
}

impl Model for LeafRun {
    ghost use Rattle.std.specs.Prelude.{◌+◌, ◌≤◌};
    ghost use Rattle.lms_tree.specs.Secret.{leaves};
    ghost use Rattle.lms_tree.specs.States.{RunState};

    ghost Value = { RunState };

    ghost view = { λ run. record { parts = run.tree; first = run.first; left = run.left } };

    ghost invariant = { λ run. run.first + run.left ≤ leaves run.tree };
}

impl LeafRun {
    // The run of `left` leaves from `first` on. The caller sees to it that no other run has any of them.
    pub(crate) fn of(tree: OwnTree, first: u32, left: u32) -> LeafRun
        requires { first + left ≤ leaves tree }
        ensures { result ≡ record { parts = tree; first = first; left = left } }
    {
        LeafRun { tree, first, left }
    }

    /// How many leaves are left.
    pub fn left(&self) -> u32
        ensures { result ≡ self.now.left }
    {
        self.left
    }

    /// The least leaf that is left, which signs next.
    pub fn next(&self) -> u32
        ensures value { result ≡ self.now.first }
        ensures within { self.now.first + self.now.left ≤ leaves self.now.parts }
    {
        self.first
    }

    /// The signature of a message with the least leaf, which is spent by it (RFC 8554, section 5.4.1). Its
    /// bytes are as many as `LmsPublic::signature_length` says. Out of memory no signature was
    /// given out, and the run is what it was.
    pub fn sign(&mut self, alloc: Global, message: &[u8]) -> Result<Vec<u8>, AllocError>
        requires { 0 < self.old.left }
        ensures signed { IfOk result (λ sig. sig.items ≡ lms_signature self.old.parts self.old.first message.now) }
        ensures valid { IfOk result (λ sig. LmsValid (own_public self.old.parts) message.now sig.items) }
        ensures spent { IfOk result (λ _. self.new ≡ record {
          parts = self.old.parts;
          first = self.old.first + 1;
          left = self.old.left - 1;
        }) }
        ensures kept { IfErr result (λ _. self.new ≡ self.old) }
    {
        let sig = self.tree.signature(alloc, self.first, message)?;
        self.first += 1;
        self.left -= 1;
        Ok(sig)
    }

    /// Ends the run. What is left of it signs nothing.
    pub fn retire(self) {
        let LeafRun {
            tree: _,
            first: _,
            left: _,
        } = self;
    }
}
