//! What members show, ready for use.

ghost use Rattle.std.specs.Prelude.{◌≡◌};

use crate::fault::Shown;
use ring_encrypt::KeySeed;

// What a member shows, with its outer seed in use. All have seen the seed, so it may be dropped.
pub(crate) struct Part {
    pub(crate) shown: Shown,
    pub(crate) key: KeySeed,
    ghost same: { key ≡ shown.outer_seed },
}

impl Drop for Part {
    fn drop(self) {
        let Part { shown: _, key } = self;
        key.destroy();
    }
}
