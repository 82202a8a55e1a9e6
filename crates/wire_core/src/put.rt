//! Appending bytes to a list.

ghost use Rattle.std.specs.Prelude.{◌≡◌, ◌++◌, ◌∷◌, [], OnOk, OnErr};
ghost use Rattle.std.specs.Int.{w16, w32, w64, to_be_bytes};

use std::alloc::AllocError;

/// A value, or out of memory.
pub type Mem<T> = Result<T, AllocError>;

/// Appends a byte. Without memory the list stays.
pub fn put_u8(out: &mut Vec<u8>, v: u8) -> Mem<()>
    ensures ok { OnOk result (out.new.items ≡ out.old.items ++ v ∷ []) }
    ensures err { OnErr result (out.new.items ≡ out.old.items) }
{
    out.extend_from_slice(&[v])
}

/// Appends the two bytes of a number, high byte first. Without memory the list stays.
pub fn put_u16(out: &mut Vec<u8>, v: u16) -> Mem<()>
    ensures ok { OnOk result (out.new.items ≡ out.old.items ++ to_be_bytes w16 v) }
    ensures err { OnErr result (out.new.items ≡ out.old.items) }
{
    out.extend_from_slice(&u16::to_be_bytes(v))
}

/// Appends the four bytes of a number, high byte first. Without memory the list stays.
pub fn put_u32(out: &mut Vec<u8>, v: u32) -> Mem<()>
    ensures ok { OnOk result (out.new.items ≡ out.old.items ++ to_be_bytes w32 v) }
    ensures err { OnErr result (out.new.items ≡ out.old.items) }
{
    out.extend_from_slice(&u32::to_be_bytes(v))
}

/// Appends the eight bytes of a number, high byte first. Without memory the list stays.
pub fn put_u64(out: &mut Vec<u8>, v: u64) -> Mem<()>
    ensures ok { OnOk result (out.new.items ≡ out.old.items ++ to_be_bytes w64 v) }
    ensures err { OnErr result (out.new.items ≡ out.old.items) }
{
    out.extend_from_slice(&u64::to_be_bytes(v))
}

/// Appends bytes as they are. Without memory the list stays.
pub fn put_bytes(out: &mut Vec<u8>, b: &[u8]) -> Mem<()>
    ensures ok { OnOk result (out.new.items ≡ out.old.items ++ b.now) }
    ensures err { OnErr result (out.new.items ≡ out.old.items) }
{
    out.extend_from_slice(b)
}
