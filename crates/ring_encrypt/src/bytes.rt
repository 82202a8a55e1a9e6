//! Byte strings one after the other.

ghost use Rattle.std.specs.Prelude.{◌≡◌, ◌+◌, ◌++◌, length};

/// Writes two byte strings, one after the other, which are together as long as `bytes`.
pub(crate) fn join(front: &[u8], back: &[u8], bytes: &mut [u8])
    requires { length front.now + length back.now ≡ length bytes.old }
    ensures { bytes.new ≡ front.now ++ back.now }
{
    bytes[..front.len()].copy_from_slice(front);
    bytes[front.len()..].copy_from_slice(back);
}
