//! What one connection may still bring.
ghost use Rattle.std.specs.Prelude.{◌≡◌, IsTrue, IsFalse};
ghost use Rattle.tcp_link.specs.Frames.{Allows, after_frame};

use crate::frame::FRAME_LIMIT;

/// The bytes that a connection may bring in all, each frame counted as `FRAME_COST` bytes more than it has. The posts of
/// an honest member's round have fewer than 40,000,000 bytes: three closing contents of at most 11,539,924 bytes each,
/// keys, two submissions, two turns and pads of less than 2,000,000 bytes together, and signatures of at most 9,324
/// bytes on 13 posts.
pub const ALLOWANCE: u32 = 67_108_864;

/// What a frame counts for beside its bytes: it bounds how many frames a connection brings by 16,384.
pub const FRAME_COST: u32 = 4096;

/// How many bytes a connection may still bring. Contracts see the number.
#[derive(Debug, Drop)]
pub struct Allowance {
    pub left: u32,
}

impl Allowance {
    /// Of a connection that has brought nothing yet.
    pub fn full() -> Allowance
        ensures { result.left ≡ 67108864 }
    {
        Allowance { left: ALLOWANCE }
    }

    /// Whether a frame of so many bytes may still come: it has at most `FRAME_LIMIT` bytes, and with `FRAME_COST` it is
    /// within what is left. It is charged where it may.
    pub fn spend(&mut self, length: u32) -> bool
        ensures yes { IsTrue result → Allows self.old.left length }
        ensures no { IsFalse result → Allows self.old.left length → ⊥ }
        ensures charged { IsTrue result → self.new.left ≡ after_frame self.old.left length }
        ensures kept { IsFalse result → self.new.left ≡ self.old.left }
    {
        if !is_allowed(self.left, length) {
            return false;
        }
        self.left -= FRAME_COST + length;
        true
    }
}

fn is_allowed(left: u32, length: u32) -> bool
    ensures yes { IsTrue result → Allows left length }
    ensures no { IsFalse result → Allows left length → ⊥ }
{
    length <= FRAME_LIMIT && FRAME_COST + length <= left
}
