//! Numbers in byte strings, the high byte first (RFC 8554, section 3.1).

ghost use Rattle.std.specs.Prelude.{◌≡◌, ◌≤◌, length};
ghost use Rattle.lm_ots.specs.OneTime.{head_word, u16str, u32str};

/// The two bytes of a number.
pub fn u16str(number: u16) -> [u8; 2]
    ensures { result ≡ u16str number }
{
    number.to_be_bytes()
}

/// The four bytes of a number.
pub fn u32str(number: u32) -> [u8; 4]
    ensures { result ≡ u32str number }
{
    number.to_be_bytes()
}

/// The number whose bytes are the first four of `s`.
pub fn head_word(s: &[u8]) -> u32
    requires { 4 ≤ length s.now }
    ensures { result ≡ head_word s.now }
{
    u32::from_be_bytes([s[0], s[1], s[2], s[3]])
}
