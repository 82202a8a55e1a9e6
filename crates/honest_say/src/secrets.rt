//! A member's own secrets of a round, each of which is held as long as it is needed.

ghost use Rattle.std.specs.Prelude.{◌≡◌, ◌≤◌, ◌<◌, ◌+◌, IfOk, map};
ghost use Rattle.std.specs.List.{range_with_len};
ghost use Rattle.wire_core.specs.Hash.{derived};
ghost use Rattle.shuffle_blame.specs.Replay.{outer_place};
ghost use Rattle.round_spec.specs.Slots.{inner_place};

use ring_encrypt::KeySeed;
use std::alloc::Global;
use wire_core::{List, Mem, Register, Tag};

/// A member's secrets of one shuffle, which it needs until the shuffle's end.
pub struct ShuffleSecrets {
    /// The seed of its inner key, which is revealed at the end if all agree.
    pub inner: KeySeed,
    /// The seed of its outer key, by which it strips a layer in its turn.
    pub outer: KeySeed,
    /// The seed of the order in which it says what it stripped.
    pub order_seed: [u8; 32],
    /// What the seeds of the inner layers of its own submission are made of.
    pub inner_opening: [u8; 32],
    /// The same of the outer layers.
    pub outer_opening: [u8; 32],
}

impl ShuffleSecrets {
    ghost use Rattle.std.specs.Prelude.{◌≡◌, ◌≤◌};
    ghost use Rattle.round_spec.specs.Say.{Configuration};
    ghost use Rattle.honest_say.specs.Own.{AreShuffleSecrets};

    /// The secrets of shuffle 1 or 2 in a round, from the member's 32 fresh bytes.
    pub fn derive(fresh: &[u8; 32], round: u64, shuffle: u8) -> ShuffleSecrets
        requires { shuffle ≤ 2 }
        ensures { (c : Configuration) → c.fresh ≡ fresh.now → c.round ≡ round → AreShuffleSecrets c shuffle result }
    {
        let inner_seed = derived(fresh, round, inner_place(shuffle) + 1, 0);
        let outer_seed = derived(fresh, round, outer_place(shuffle) + 1, 0);
        let order_seed = derived(fresh, round, 5 + shuffle, 0);
        let inner_opening = derived(fresh, round, 5 + 2 * shuffle + 1, 0);
        let outer_opening = derived(fresh, round, 5 + 2 * shuffle + 2, 0);
        let inner = KeySeed::new(inner_seed);
        let outer = KeySeed::new(outer_seed);
        ShuffleSecrets {
            inner,
            outer,
            order_seed,
            inner_opening,
            outer_opening,
        }
    }

    /// Gives the secrets up. Their memory is not wiped.
    pub fn destroy(self) {
        let ShuffleSecrets {
            inner,
            outer,
            order_seed: _,
            inner_opening: _,
            outer_opening: _,
        } = self;
        inner.destroy();
        outer.destroy();
    }
}

/// A member's secrets of the messages, which it needs until it has said what it accuses of.
pub struct BulkSecrets {
    /// The seed of its bulk key, under which the others seal the seeds of the pads that they ask of it.
    pub key: KeySeed,
    /// The seeds of the pads that it asks of all members, by member.
    pub pad_seeds: List<[u8; 32]>,
}

impl BulkSecrets {
    ghost use Rattle.std.specs.Prelude.{◌≡◌, IfOk, length};
    ghost use Rattle.round_spec.specs.Say.{Configuration, shape_in};
    ghost use Rattle.honest_say.specs.Own.{AreBulkSecrets};

    /// The secrets of a round of so many members, from the member's 32 fresh bytes.
    pub fn derive(alloc: Global, fresh: &[u8; 32], round: u64, members: u8) -> Mem<BulkSecrets>
        ensures own { IfOk result (λ secrets. (c : Configuration) → c.fresh ≡ fresh.now → c.round ≡ round →
            (shape_in c).members ≡ members → AreBulkSecrets c secrets) }
        ensures count { IfOk result (λ secrets. length secrets.pad_seeds ≡ members) }
    {
        let seeds = pad_seeds(alloc, fresh, round, members)?;
        let key_seed = derived(fresh, round, 3, 0);
        let pad_seeds = List::of(seeds);
        let key = KeySeed::new(key_seed);
        Ok(BulkSecrets { key, pad_seeds })
    }

    /// Gives the secrets up. Their memory is not wiped.
    pub fn destroy(self) {
        let BulkSecrets { key, pad_seeds: _ } = self;
        key.destroy();
    }
}

// The seeds of the pads that a member asks of all members.
fn pad_seeds(alloc: Global, fresh: &[u8; 32], round: u64, members: u8) -> Mem<Vec<[u8; 32]>>
    ensures { IfOk result (λ seeds. seeds.items ≡ map (derived fresh.now round 12) (range_with_len 1 members)) }
{
    let mut seeds = Vec::with_capacity(alloc, usize::from(members))?;
    for place in 0..members {
        seeds.push(derived(fresh, round, 12, place + 1))?;
    }
    Ok(seeds)
}

// Which of five keys is the inner one of a shuffle, from 0.
pub(crate) fn inner_place(shuffle: u8) -> u8
    ensures value { result ≡ inner_place shuffle }
    ensures within { result < 5 }
{
    if shuffle == 1 { 0 } else { 3 }
}

// Which of them is its outer one.
pub(crate) fn outer_place(shuffle: u8) -> u8
    ensures value { result ≡ outer_place shuffle }
    ensures within { result < 5 }
{
    if shuffle == 1 { 1 } else { 4 }
}

// A secret of a round, by its label and an index.
fn derived(fresh: &[u8; 32], round: u64, label: u8, index: u8) -> [u8; 32]
    ensures { result ≡ derived fresh.now round label index }
{
    let mut register = Register::new(Tag::Derive);
    register.piece(fresh);
    register.piece(&round.to_be_bytes());
    register.piece(&[label]);
    register.piece(&[index]);
    register.end()
}
