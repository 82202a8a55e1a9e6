//! A disk with one file, as a key file is written on it. What a clause says of the file's bytes it says of disks that
//! tell them; an adapter over a real file tells nothing.
ghost use Rattle.std.specs.Prelude.{◌≡◌, ◌⊎◌, ℕ, ◌<◌, ◌≤◌, List, [], length, Option, None, IsSome, IfSome, option_map, IsTrue, Bool, false, string_bytes};
ghost use Rattle.outside.specs.Faults.{Rose};
ghost use Rattle.crash_disk.specs.Names.{Chooses, IsOfChosen, IsUnchosen, Names, StaysBeside};
ghost use Rattle.crash_disk.specs.Disk.{Elapses, IfRead, ImagesTear, IsFilled, Only, Tears, Writes};

/// What a call answers.
#[derive(Clone, Copy, Debug, PartialEq, Eq)]
pub enum DiskAnswer {
    Done,
    /// The disk failed, and counted the fault.
    Failed,
}

/// What a read answers.
#[derive(Clone, Copy, Debug, PartialEq, Eq)]
pub enum DiskRead {
    /// The number of bytes that were read: at most as many as were asked for, and 0 only at the file's end.
    Read { taken: u32 },
    /// The disk failed, and counted the fault.
    Failed,
}

/// One file, which a crash may leave in one of several images. Where none is chosen, a read, a write and a sync fail.
/// What stands under other names than the chosen one, no call touches. No call takes memory.
pub trait Disk {
    /// How often a call has failed. The count stays at 2^64 - 1.
    ghost faults: { Self → ℕ };

    /// The bytes of the file, as a read gives them, where the disk tells them.
    ghost file: { Self → Option (List ℕ) };

    /// Which name is chosen, and what stands under each, where the disk tells it.
    ghost names: { Self → Option Names };

    /// The images of the file that a crash at this moment may leave. A missing file is one without bytes.
    ghost may_leave: { Self → List ℕ → Type 0 };

    /// The moment, as a number that never falls.
    ghost moment: { Self → ℕ };

    /// The images that a crash at some moment from that one on might have left, during a call or between two.
    ghost left_since: { Self → ℕ → List ℕ → Type 0 };

    /// Chooses the file of this name for all further calls. A fresh one is empty, and fails where the name stands; else
    /// it fails where the name is missing, and the file stays. What stands under other names stays. Where the choice
    /// fails, no file is chosen, and what stood under the name stays.
    fn choose(&mut self, name: &String, fresh: bool) -> DiskAnswer
        ensures names { Chooses (names self.old) (names self.new) (string_bytes name.now) fresh result }
        ensures emptied { result ≡ DiskAnswer.Done → IsTrue fresh
            → file self.new ≡ option_map (λ _. []) (file self.old) }
        ensures untold { file self.old ≡ None → file self.new ≡ None }
        ensures told { IsSome (file self.old) → IsSome (file self.new) }
        ensures kept { fresh ≡ false → file self.new ≡ file self.old }
        ensures images { fresh ≡ false → (image : List ℕ) → may_leave self.new image → may_leave self.old image }
        ensures time { Elapses (moment self.old) (moment self.new) (left_since self.old) (left_since self.new) (may_leave self.new) }
        ensures failed { result ≡ DiskAnswer.Failed → Rose (faults self.old) (faults self.new) }
        ensures no_fall { faults self.old ≤ faults self.new };

    /// Reads bytes from `at` on into the first of `into`, maybe fewer than it has room for.
    fn read_at(&mut self, at: u32, into: &mut [u8]) -> DiskRead
        ensures bounded { IfRead result (λ taken. taken ≤ length into.old) }
        ensures filled { IfRead result (λ taken. IfSome (file self.old) (λ bytes.
            IsFilled bytes at taken into.old into.new)) }
        ensures ended { result ≡ DiskRead.Read 0
            → (length into.old ≡ 0) ⊎ IfSome (file self.old) (λ bytes. length bytes ≤ at) }
        ensures kept { file self.new ≡ file self.old }
        ensures images { (image : List ℕ) → may_leave self.new image → may_leave self.old image }
        ensures beside { StaysBeside (names self.old) (names self.new) }
        ensures unchosen { IsUnchosen (names self.old) → result ≡ DiskRead.Failed }
        ensures time { Elapses (moment self.old) (moment self.new) (left_since self.old) (left_since self.new) (may_leave self.new) }
        ensures failed { result ≡ DiskRead.Failed → Rose (faults self.old) (faults self.new) }
        ensures no_fall { faults self.old ≤ faults self.new };

    /// Writes bytes from `at` on, over what is there and past the end. A write that begins past the end fails. Where
    /// it fails, any bytes may stand in the range, and those past the old end may be missing. Until a sync that is
    /// Done, whether the write was Done or failed, so may a crash leave it.
    fn write_at(&mut self, at: u32, bytes: &[u8]) -> DiskAnswer
        ensures written { result ≡ DiskAnswer.Done → Writes (file self.old) (file self.new) at bytes.now }
        ensures torn { result ≡ DiskAnswer.Failed → Tears (file self.old) (file self.new) at (length bytes.now) }
        ensures images { ImagesTear (may_leave self.old) (may_leave self.new) at (length bytes.now) }
        ensures beside { StaysBeside (names self.old) (names self.new) }
        ensures unchosen { IsUnchosen (names self.old) → result ≡ DiskAnswer.Failed }
        ensures time { Elapses (moment self.old) (moment self.new) (left_since self.old) (left_since self.new) (may_leave self.new) }
        ensures failed { result ≡ DiskAnswer.Failed → Rose (faults self.old) (faults self.new) }
        ensures no_fall { faults self.old ≤ faults self.new };

    /// Brings what was written onto the disk: where it is Done, a crash leaves what a read gives.
    fn sync(&mut self) -> DiskAnswer
        ensures durable { result ≡ DiskAnswer.Done → IfSome (file self.old) (λ bytes. Only bytes (may_leave self.new)) }
        ensures kept { file self.new ≡ file self.old }
        ensures images { (image : List ℕ) → may_leave self.new image → may_leave self.old image }
        ensures beside { StaysBeside (names self.old) (names self.new) }
        ensures unchosen { IsUnchosen (names self.old) → result ≡ DiskAnswer.Failed }
        ensures time { Elapses (moment self.old) (moment self.new) (left_since self.old) (left_since self.new) (may_leave self.new) }
        ensures failed { result ≡ DiskAnswer.Failed → Rose (faults self.old) (faults self.new) }
        ensures no_fall { faults self.old ≤ faults self.new };

    /// The file is what stands under the chosen name.
    ghost names_show_file: { (disk : Self) → IsOfChosen (names disk) (file disk) };

    /// What a read gives is one of the images.
    ghost read_is_image: { (disk : Self) → IfSome (file disk) (may_leave disk) };

    /// This moment is one of those since an earlier one.
    ghost counts_now: { (disk : Self) (start : ℕ) (image : List ℕ) → start ≤ moment disk → may_leave disk image → left_since disk start image };

    /// Since this moment there is no other.
    ghost only_now: { (disk : Self) (image : List ℕ) → left_since disk (moment disk) image → may_leave disk image };
}
