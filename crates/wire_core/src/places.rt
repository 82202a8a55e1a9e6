//! Bytes at their places.

ghost use Rattle.std.specs.Prelude.{◌≡◌, ◌+◌, ◌≤◌, ◌<◌, ◌^◌, length};
ghost use Rattle.wire_core.specs.Places.{first_unlike, long_at, part, word_at};

/// The first place at which `bytes` do not begin with `front`: a byte there is missing or another.
pub fn first_unlike(front: &[u8], bytes: &[u8]) -> Option<u32>
    requires { length front.now < 2 ^ 32 }
    ensures { result ≡ first_unlike front.now bytes.now }
{
    for (p, b) in front.iter().enumerate() {
        if bytes.get(p) != Some(b) {
            return Some(p as u32);
        }
    }
    None
}

/// Copies the bytes from `at` on, as many as `into` has room for.
pub fn copy_part(bytes: &[u8], at: usize, into: &mut [u8])
    requires { at + length into.old ≤ length bytes.now }
    ensures { into.new ≡ part bytes.now at (length into.old) }
{
    into.copy_from_slice(&bytes[at..at + into.len()]);
}

/// The number of the four bytes from `at` on, high byte first.
#[tactic(auto, unfolding(crate::specs::Places::word_at))]
pub fn word_at(bytes: &[u8], at: usize) -> u32
    requires { at + 4 ≤ length bytes.now }
    ensures { result ≡ word_at bytes.now at }
{
    let mut word = [0; 4];
    copy_part(bytes, at, &mut word);
    u32::from_be_bytes(word)
}

/// The number of the eight bytes from `at` on, high byte first.
#[tactic(auto, unfolding(crate::specs::Places::long_at))]
pub fn long_at(bytes: &[u8], at: usize) -> u64
    requires { at + 8 ≤ length bytes.now }
    ensures { result ≡ long_at bytes.now at }
{
    let mut long = [0; 8];
    copy_part(bytes, at, &mut long);
    u64::from_be_bytes(long)
}
