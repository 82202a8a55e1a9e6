//! The row of keys.

ghost use Rattle.std.specs.Prelude.{◌≡◌};
ghost use Rattle.round_spec.specs.Say.{Configuration, keys_row};
ghost use Rattle.honest_say.specs.Own.{AreBulkSecrets, AreShuffleSecrets};

use crate::secrets::{BulkSecrets, ShuffleSecrets};
use phase_message::Body;

/// The five keys of a member: the inner and the outer one of shuffle A, the bulk key, and those of shuffle B. It takes
/// no memory.
pub fn keys_body(first: &ShuffleSecrets, bulk: &BulkSecrets, second: &ShuffleSecrets) -> Body
    ensures { (c : Configuration) → AreShuffleSecrets c 1 first.now → AreBulkSecrets c bulk.now →
        AreShuffleSecrets c 2 second.now → result ≡ keys_row c }
{
    Body::Keys {
        keys: [
            *first.inner.public().bytes(),
            *first.outer.public().bytes(),
            *bulk.key.public().bytes(),
            *second.inner.public().bytes(),
            *second.outer.public().bytes(),
        ],
    }
}
