//! Leaf runs that a list can hold.

ghost use Rattle.std.specs.Prelude.{◌≡◌};

use lms_tree::LeafRun;
use std::marker::Model;

/// A leaf run that is retired where it is let go.
pub struct Leaves {
    pub run: LeafRun,
}

impl Drop for Leaves {
    fn drop(self) {
        let Leaves { run } = self;
        run.retire();
    }
}

impl Model for Leaves {
    ghost use Rattle.lms_tree.specs.States.{RunState};

    ghost Value = { RunState };

    ghost view = { λ leaves. leaves.run };
}

impl Leaves {
    /// The run.
    pub fn into_run(self) -> LeafRun
        ensures { result ≡ self }
    {
        let Leaves { run } = self;
        run
    }
}
