//! Keys that read, and the bytes of a roster of them.

ghost use Rattle.std.specs.Prelude.{◌≡◌, ◌≤◌, ◌+◌, ◌*◌, ◌↔◌, IsTrue, All, length, take};
ghost use Rattle.group_roster.specs.Roster.{IsKey, roster_spelling};

use lms_tree::LmsPublic;

/// Whether an LMS public key is read from each.
pub(crate) fn all_read(keys: &[[u8; 56]]) -> bool
    ensures { IsTrue result ↔ All IsKey keys.now }
{
    for key in keys {
        if LmsPublic::read(key).is_err() {
            return false;
        }
    }
    true
}

/// The bytes of a roster of at most 8 keys, at the front of an array, and how many they are.
pub(crate) fn spelled(version: u8, keys: &[[u8; 56]]) -> ([u8; 454], usize)
    requires { length keys.now ≤ 8 }
    ensures size { result.1 ≡ 6 + 56 * length keys.now }
    ensures bytes { take result.1 result.0 ≡ roster_spelling (record { version = version; keys = keys.now }) }
{
    let mut bytes = [0; 454];
    bytes[..4].copy_from_slice(b"DSRO");
    bytes[4] = version;
    bytes[5] = keys.len() as u8;
    for (k, key) in keys.iter().enumerate() {
        let at = 6 + 56 * k;
        bytes[at..at + 56].copy_from_slice(key);
    }
    (bytes, 6 + 56 * keys.len())
}
