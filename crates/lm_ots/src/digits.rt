//! The digits of a string and the checksum of a hash (RFC 8554, sections 3.1.3 and 4.4).

ghost use Rattle.std.specs.Prelude.{◌≡◌, ℕ, ◌+◌, ◌*◌, ◌<◌, ◌≤◌, ◌^◌, length};
ghost use Rattle.lm_ots.specs.OneTime.{IsDigitSize, checksum, coef, signed_string};

use crate::strings::u16str;
use crate::types::OtsType;

/// Digit `i` of `s`, whose digits have `w` bits, the highest bits of a byte first (RFC 8554,
/// section 3.1.3).
pub fn coef(s: &[u8], i: u32, w: u32) -> u32
    requires digit_size { IsDigitSize w }
    requires in_string { i * w < 8 * length s.now }
    ensures { result ≡ coef s.now i w }
{
    let byte = u32::from(s[i as usize * w as usize / 8]);
    let shift = 8 - (w * (i % (8 / w)) + w);
    (byte >> shift) & ((1 << w) - 1)
}

/// The checksum of the hash `digest`: the sum of what each digit lacks of its greatest value,
/// shifted to the left, as 16 bits, high byte first (RFC 8554, section 4.4).
pub fn checksum(width: OtsType, digest: &[u8; 32]) -> [u8; 2]
    ensures { result ≡ checksum width digest.now }
{
    let w = width.w();
    let greatest = (1 << w) - 1;
    let mut sum: u32 = 0;
    for i in 0..256 / w {
        sum += greatest - coef(digest, i, w);
    }
    u16str((sum << width.ls()) as u16)
}

/// The hash and its checksum, 34 bytes whose first p digits a signature stands for (RFC 8554, section
/// 4.5).
pub fn signed_string(width: OtsType, digest: &[u8; 32]) -> [u8; 34]
    ensures { result ≡ signed_string width digest.now }
{
    let mut signed = [0; 34];
    signed[..32].copy_from_slice(digest);
    signed[32..].copy_from_slice(&checksum(width, digest));
    signed
}
