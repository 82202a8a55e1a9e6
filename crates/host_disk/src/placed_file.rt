//! A file with a place, at which the next read or write takes place.
ghost use Rattle.std.specs.Prelude.{◌≡◌, ◌≤◌, Option, OnOk, OnErr, IfOk, length, option_map};
ghost use Rattle.host_disk.specs.Placed.{FileState, moved_to, ReadsSome, synced, WritesSome};

use std::io;

/// A file and the place in it. A call that fails, as one that is interrupted does, changes nothing that the file tells.
pub trait PlacedFile {
    /// The bytes, the place and the number of syncs, where the file tells them.
    ghost told: { Self → Option FileState };

    /// Goes to the place `at`, which may lie past the end.
    fn seek_to(&mut self, at: u32) -> io::Result<()>
        ensures moved { OnOk result (told self.new ≡ option_map (moved_to at) (told self.old)) }
        ensures kept { OnErr result (told self.new ≡ told self.old) };

    /// Reads bytes from the place on into the first of `into`, and goes behind them. It may be fewer bytes than `into`
    /// has room for, and none only at the end.
    fn read_some(&mut self, into: &mut [u8]) -> io::Result<usize>
        ensures bounded { IfOk result (λ taken. taken ≤ length into.old) }
        ensures read { ReadsSome (told self.old) (told self.new) into.old into.new result };

    /// Writes first bytes of `bytes` from the place on, over what is there and past the end, and goes behind them. What
    /// lies between the end and the place is then zeros.
    fn write_some(&mut self, bytes: &[u8]) -> io::Result<usize>
        ensures bounded { IfOk result (λ count. count ≤ length bytes.now) }
        ensures written { WritesSome (told self.old) (told self.new) bytes.now result };

    /// Brings what was written onto the disk.
    fn sync(&mut self) -> io::Result<()>
        ensures synced { OnOk result (told self.new ≡ option_map synced (told self.old)) }
        ensures kept { OnErr result (told self.new ≡ told self.old) };
}
