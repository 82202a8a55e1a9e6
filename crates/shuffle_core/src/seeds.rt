//! The seeds of a member's layers.

ghost use Rattle.std.specs.Prelude.{◌≡◌, IfOk};
ghost use Rattle.wire_core.specs.Hash.{layer_seed};
ghost use Rattle.shuffle_core.specs.Shuffle.{layer_seeds_of};

use std::alloc::Global;
use wire_core::{Mem, Register, Tag};

/// The seeds of a member's n layers on one side of a shuffle, layer 1 first, each a hash of the
/// opening of that side, the round, the shuffle, the side, the member and the layer.
pub fn layer_seeds(
    alloc: Global,
    opening: &[u8; 32],
    round: u64,
    shuffle: u8,
    side: u8,
    member: u8,
    n: u8,
) -> Mem<Vec<[u8; 32]>>
    ensures { IfOk result (λ seeds. seeds.items ≡ layer_seeds_of opening.now round shuffle side member n) }
{
    let mut seeds = Vec::with_capacity(alloc, usize::from(n))?;
    for k in 0..n {
        seeds.push(layer_seed(opening, round, shuffle, side, member, k + 1))?;
    }
    Ok(seeds)
}

// The seed of one layer.
fn layer_seed(
    opening: &[u8; 32],
    round: u64,
    shuffle: u8,
    side: u8,
    member: u8,
    layer: u8,
) -> [u8; 32]
    ensures { result ≡ layer_seed opening.now round shuffle side member layer }
{
    let mut register = Register::new(Tag::LayerSeed);
    register.piece(opening);
    register.piece(&round.to_be_bytes());
    register.piece(&[shuffle]);
    register.piece(&[side]);
    register.piece(&[member]);
    register.piece(&[layer]);
    register.end()
}
