//! The secrets that a member still needs.

ghost use Rattle.std.specs.Prelude.{◌≡◌, IfOk, IsSome, Some};
ghost use Rattle.round_spec.specs.Say.{Configuration, shape_in};
ghost use Rattle.member_parts.specs.Secrets.{AreAll, AreSecretsOf, no_secrets, shuffle_secrets, without_bulk, without_shuffle};

use honest_say::{BulkSecrets, ShuffleSecrets};
use std::alloc::Global;
use wire_core::Mem;

/// The secrets that a member still needs: of shuffle A, of the messages, and of shuffle B. They can be neither dropped nor
/// copied.
pub struct Secrets {
    pub first: Option<ShuffleSecrets>,
    pub bulk: Option<BulkSecrets>,
    pub second: Option<ShuffleSecrets>,
}

impl Secrets {
    /// All secrets of a round of so many members, from the member's 32 fresh bytes.
    pub fn derive(alloc: Global, fresh: &[u8; 32], round: u64, members: u8) -> Mem<Secrets>
        ensures own { IfOk result (λ secrets. (c : Configuration) → c.fresh ≡ fresh.now → c.round ≡ round →
            (shape_in c).members ≡ members → AreSecretsOf c secrets) }
        ensures all { IfOk result AreAll }
    {
        let bulk = BulkSecrets::derive(alloc, fresh, round, members)?;
        let first = ShuffleSecrets::derive(fresh, round, 1);
        let second = ShuffleSecrets::derive(fresh, round, 2);
        Ok(Secrets {
            first: Some(first),
            bulk: Some(bulk),
            second: Some(second),
        })
    }

    /// The secrets of a shuffle.
    pub fn of_shuffle(&self, shuffle: u8) -> &ShuffleSecrets
        requires { IsSome (shuffle_secrets self.now shuffle) }
        ensures { shuffle_secrets self.now shuffle ≡ Some result.now }
    {
        if shuffle == 1 {
            held(&self.first)
        } else {
            held(&self.second)
        }
    }

    /// The secrets of a shuffle, which are no longer held.
    pub fn take_shuffle(&mut self, shuffle: u8) -> Option<ShuffleSecrets>
        ensures taken { result ≡ shuffle_secrets self.old shuffle }
        ensures left { self.new ≡ without_shuffle self.old shuffle }
    {
        if shuffle == 1 {
            self.first.take()
        } else {
            self.second.take()
        }
    }

    /// Ends the secrets of the messages.
    pub fn end_bulk(&mut self)
        ensures { self.new ≡ without_bulk self.old }
    {
        if let Some(bulk) = self.bulk.take() {
            bulk.destroy();
        }
    }

    /// Ends all secrets.
    pub fn end(&mut self)
        ensures { self.new ≡ no_secrets }
    {
        self.end_bulk();
        if let Some(first) = self.first.take() {
            first.destroy();
        }
        if let Some(second) = self.second.take() {
            second.destroy();
        }
    }

    /// Gives up what is left.
    pub fn destroy(self) {
        let Secrets {
            first,
            bulk,
            second,
        } = self;
        if let Some(first) = first {
            first.destroy();
        }
        if let Some(bulk) = bulk {
            bulk.destroy();
        }
        if let Some(second) = second {
            second.destroy();
        }
    }
}

// Secrets that are held.
fn held(secrets: &Option<ShuffleSecrets>) -> &ShuffleSecrets
    requires { IsSome secrets.now }
    ensures { secrets.now ≡ Some result.now }
{
    let Some(secrets) = secrets else {
        unreachable!()
    };
    secrets
}
