//! A link to the other members of a group. What a clause says of frames and posts it says of links that tell them; an
//! adapter over real connections tells nothing.
ghost use Rattle.std.specs.Prelude.{◌≡◌, ◌^◌, ◌<◌, ◌≤◌, ℕ, length, Option};
ghost use Rattle.outside.specs.Faults.{Rose};
ghost use Rattle.round_link.specs.Traffic.{IfFrame, Makes, Receives, Traffic, ends_after, frames_after};

use wire_core::List;

/// What `begin` and `post` answer.
#[derive(Clone, Copy, Debug, PartialEq, Eq)]
pub enum LinkAnswer {
    Done,
    /// The link failed, and counted the fault.
    Failed,
    OutOfMemory,
}

/// What `recv` answers.
#[derive(Debug, Drop)]
pub enum Arrival {
    /// The bytes of a post that came, fewer than 2^32.
    Frame(List<u8>),
    /// Nothing comes any more.
    End,
    /// The link failed, and counted the fault.
    Failed,
    OutOfMemory,
}

/// A link of one member to all others. Where it tells its traffic, it goes on telling it.
pub trait Link {
    /// How often a call has failed. The count stays at 2^64 - 1.
    ghost faults: { Self → ℕ };

    /// How many frames `recv` has answered. The count stays at 2^64 - 1.
    ghost frames: { Self → ℕ };

    /// How often `recv` has answered that nothing comes any more. The count stays at 2^64 - 1.
    ghost ends: { Self → ℕ };

    /// The frames that have still to come, and the calls that were made, where the link tells them.
    ghost told: { Self → Option Traffic };

    /// Brings the member of this number, from 1, in touch with the others: the addresses of all, by number, and for how
    /// many seconds it waits for them. It neither takes a frame nor makes a post.
    fn begin(&mut self, number: u8, addresses: &Vec<String>, wait: u32) -> LinkAnswer
        ensures kept { told self.new ≡ told self.old }
        ensures frames { frames self.new ≡ frames self.old }
        ensures ends { ends self.new ≡ ends self.old }
        ensures failed { result ≡ LinkAnswer.Failed → Rose (faults self.old) (faults self.new) }
        ensures no_fall { faults self.old ≤ faults self.new };

    /// Takes the next frame. Once it has answered `End`, it always does.
    fn recv(&mut self) -> Arrival
        ensures received { Receives (told self.old) (told self.new) result }
        ensures short { IfFrame result (λ frame. length frame < 2 ^ 32) }
        ensures ended { 0 < ends self.old → result ≡ Arrival.End }
        ensures frames { frames self.new ≡ frames_after result (frames self.old) }
        ensures ends { ends self.new ≡ ends_after result (ends self.old) }
        ensures failed { result ≡ Arrival.Failed → Rose (faults self.old) (faults self.new) }
        ensures no_fall { faults self.old ≤ faults self.new };

    /// Sends bytes to all others. The post is made where the answer is `Done`, and not else.
    fn post(&mut self, bytes: &Vec<u8>) -> LinkAnswer
        ensures made { Makes (told self.old) (told self.new) bytes.now.items result }
        ensures frames { frames self.new ≡ frames self.old }
        ensures ends { ends self.new ≡ ends self.old }
        ensures failed { result ≡ LinkAnswer.Failed → Rose (faults self.old) (faults self.new) }
        ensures no_fall { faults self.old ≤ faults self.new };
}
