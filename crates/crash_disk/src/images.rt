//! What a crash may leave of a disk in memory, as those of its images that can be picked.
use crate::room::Room;
use crate::steps_taken::{Pick, Step};
use std::alloc::{AllocError, Global};

/// The file as it was at the last sync, as a read gives it, and with ones in all ranges that were written since.
#[derive(Debug, Drop)]
pub struct Images {
    pub durable: Room,
    pub file: Room,
    pub ones: Room,
}

impl Images {
    ghost use Rattle.std.specs.Prelude.{◌≡◌, ◌≤◌, length, IfOk};
    ghost use Rattle.crash_disk.specs.Memory.{StepFits};
    ghost use Rattle.crash_disk.specs.Picks.{after_step_of, image_in, same_images};

    /// Of a file of these bytes, which is on the disk.
    pub fn new(alloc: Global, bytes: &[u8]) -> Result<Images, AllocError>
        requires { length bytes.now ≤ 128 }
        ensures { IfOk result (λ images. images ≡ same_images bytes.now) }
    {
        Ok(Images {
            durable: Room::new(alloc, bytes)?,
            file: Room::new(alloc, bytes)?,
            ones: Room::new(alloc, bytes)?,
        })
    }

    /// The image that is picked.
    pub fn picked(&self, pick: Pick) -> &[u8]
        ensures value { result.now ≡ image_in self.now pick }
        ensures within { length result.now ≤ 128 }
    {
        match pick {
            Pick::Old => self.durable.bytes(),
            Pick::New => self.file.bytes(),
            Pick::Ones => self.ones.bytes(),
        }
    }

    /// Does a step to the file.
    pub fn step(&mut self, step: &Step)
        requires fits { StepFits self.old.file step.now }
        requires alike { length self.old.ones ≡ length self.old.file }
        ensures { self.new ≡ after_step_of self.old step.now }
    {
        match step {
            Step::Wrote { at, size, bytes } => {
                self.file.write(*at, &bytes[..*size as usize]);
                self.ones.write(*at, &[255; 128][..*size as usize]);
            }
            Step::Synced => {
                self.durable.copy(&self.file);
                self.ones.copy(&self.file);
            }
            Step::Emptied => {
                self.durable.clear();
                self.file.clear();
                self.ones.clear();
            }
        }
    }
}
