//! A conduct that runs out of memory once.

ghost use Rattle.std.specs.Prelude.{◌≡◌, Ok};
ghost use Rattle.member_spec.specs.Replies.{plain_replies};

use bulk_descriptor::Descriptor;
use member_core::{Conduct, Honest, Speech};
use stage_log::StageLog;
use std::alloc::{AllocError, Global};
use wire_core::Mem;

// Says what it is given, but is out of memory the second time.
#[derive(Drop)]
pub(crate) struct Forgetful {
    pub(crate) asked: u8,
}

impl Conduct for Forgetful {
    ghost replies = { λ _. plain_replies };

    fn descriptor(&mut self, _alloc: Global, own: Descriptor) -> Mem<Descriptor>
        ensures same { result ≡ Ok own }
    {
        Ok(own)
    }

    fn content(&mut self, alloc: Global, stage: u8, bytes: Vec<u8>, log: &StageLog) -> Mem<Speech> {
        self.asked = self.asked.saturating_add(1);
        if self.asked == 2 {
            return Err(AllocError);
        }
        let mut honest = Honest;
        honest.content(alloc, stage, bytes, log)
    }
}
