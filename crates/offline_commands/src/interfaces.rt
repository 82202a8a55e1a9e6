//! The outside as the program sees it: files by name, and a sink for what it prints. What a clause says of
//! content it says of outside objects that tell it; an adapter over the real thing tells nothing.
ghost use Rattle.std.specs.Prelude.{◌≡◌, ◌⊎◌, ℕ, ◌≤◌, ◌<◌, List as Items, length, Option, None, Some, IfSome, IsSomeAnd, string_bytes};
ghost use Rattle.outside.specs.Faults.{Rose};
ghost use Rattle.offline_commands.specs.Outside.{IsMissing, Shows, IfBytes, HoldsNow, OthersStay, Gains, GainsFirstOf};

use wire_core::List;

/// What a read of a file answers.
#[derive(Debug, Drop)]
pub enum FileRead {
    /// All bytes of the file, which are at most the limit.
    Bytes(List<u8>),
    /// The file has more bytes than the limit.
    TooLong,
    /// The file could not be read, or is missing.
    Failed,
    OutOfMemory,
}

/// What a write of a file answers.
#[derive(Clone, Copy, Debug, PartialEq, Eq)]
pub enum FileWrite {
    Written,
    /// The name may hold any bytes now, or be missing.
    Failed,
    /// As after `Failed`.
    OutOfMemory,
}

/// What a write to a sink answers.
#[derive(Clone, Copy, Debug, PartialEq, Eq)]
pub enum SinkAnswer {
    Written,
    /// A first part of the piece may have been written.
    Failed,
    /// As after `Failed`.
    OutOfMemory,
}

/// Files by name. Where they tell what they hold, they go on telling it.
pub trait Files {
    /// How often reading or writing has failed. The count stays at 2^64 - 1.
    ghost faults: { Self → ℕ };

    /// The bytes of each name, where the files tell them.
    ghost told: { Self → Option (Items ℕ → Option (Items ℕ)) };

    /// Reads a file of at most `limit` bytes. A missing file is `Failed`, and no fault where the files tell.
    fn read(&mut self, name: &String, limit: u32) -> FileRead
        ensures bounded { IfBytes result (λ bytes. length bytes ≤ limit) }
        ensures bytes { IfBytes result (λ bytes. Shows (told self.old) (string_bytes name.now) (Some bytes)) }
        ensures too_long { result ≡ FileRead.TooLong → IfSome (told self.old) (λ held.
            IsSomeAnd (held (string_bytes name.now)) (λ bytes. limit < length bytes)) }
        ensures failed { result ≡ FileRead.Failed → Rose (faults self.old) (faults self.new)
            ⊎ IsMissing (told self.old) (string_bytes name.now) }
        ensures missing { result ≡ FileRead.Failed → IsMissing (told self.old) (string_bytes name.now)
            → faults self.new ≡ faults self.old }
        // Out of memory hides neither of the two.
        ensures memory { result ≡ FileRead.OutOfMemory → IfSome (told self.old) (λ held.
            IsSomeAnd (held (string_bytes name.now)) (λ bytes. length bytes ≤ limit)) }
        ensures no_fall { faults self.old ≤ faults self.new }
        ensures kept { told self.new ≡ told self.old };

    /// Puts bytes in the place of whatever the name held.
    fn write(&mut self, name: &String, bytes: &Vec<u8>) -> FileWrite
        ensures written { result ≡ FileWrite.Written
            → HoldsNow (told self.old) (told self.new) (string_bytes name.now) bytes.now.items }
        ensures others { OthersStay (told self.old) (told self.new) (string_bytes name.now) }
        ensures failed { result ≡ FileWrite.Failed → Rose (faults self.old) (faults self.new) }
        ensures no_fall { faults self.old ≤ faults self.new };
}

/// What is printed goes in here, piece by piece. A sink that tells what was written goes on telling it.
pub trait Sink {
    /// How often writing has failed. The count stays at 2^64 - 1.
    ghost faults: { Self → ℕ };

    /// All bytes written so far, where the sink tells them.
    ghost told: { Self → Option (Items ℕ) };

    /// Writes a piece.
    fn write(&mut self, piece: &Vec<u8>) -> SinkAnswer
        ensures written { result ≡ SinkAnswer.Written → Gains (told self.old) (told self.new) piece.now.items }
        ensures part { GainsFirstOf (told self.old) (told self.new) piece.now.items }
        ensures failed { result ≡ SinkAnswer.Failed → Rose (faults self.old) (faults self.new) }
        ensures no_fall { faults self.old ≤ faults self.new };
}
