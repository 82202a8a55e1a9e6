//! Reading the bytes of a roster file.

ghost use Rattle.std.specs.Prelude.{◌≡◌, ◌≤◌, ◌<◌, ◌+◌, bytes_eq, length, Some, Ok, Err, IfOk, IsOk};
ghost use Rattle.wire_core.specs.Answers.{Gives, value_unless};
ghost use Rattle.group_roster.specs.Roster.{Roster as Listed, IsRosterFile, roster_spelling};
ghost use Rattle.group_roster.specs.Rules.{offence_told};
ghost use Rattle.group_roster.specs.Given.{roster_of};
ghost use Rattle.group_roster.specs.Binary.{roster_read, roster_offence, head_offence, keys_offence, key_offence, size_of, key_place, key_at, keys_at, repeats};

use crate::refusal::RosterRefusal;
use crate::roster::Roster;
use crate::rule::{Offence, Rule};
use lms_tree::{KeyRefusal, LmsPublic};
use std::alloc::Global;
use wire_core::{List, Mem, first_unlike};

/// The roster that the bytes of a file spell, all of the bytes. `Bad` names the first offence.
pub fn decode(alloc: Global, bytes: &[u8]) -> Result<Roster, RosterRefusal>
    // What is read is spelled so.
    ensures found { IfOk result (λ r. IsRosterFile (roster_of r) × (bytes.now ≡ roster_spelling (roster_of r))) }
    // What is spelled so is read, unless memory runs out.
    ensures only { (r : Listed) → IsRosterFile r → bytes.now ≡ roster_spelling r →
        Gives offence_told roster_of result (Ok r) }
    // Which offence it is.
    ensures exact { Gives offence_told roster_of result (roster_read bytes.now) }
    // Memory runs out only where there is none.
    ensures memory { result ≡ Err RosterRefusal.Memory → IsOk (roster_read bytes.now) }
{
    read(alloc, bytes)
}

/// The same, of which `decode` says more.
pub(crate) fn read(alloc: Global, bytes: &[u8]) -> Result<Roster, RosterRefusal>
    ensures exact { Gives offence_told roster_of result (roster_read bytes.now) }
    ensures memory { result ≡ Err RosterRefusal.Memory → IsOk (roster_read bytes.now) }
{
    let size = whole_size(bytes)?;
    let keys = keys(alloc, bytes, size)?;
    Ok(Roster {
        version: 1,
        keys: List::of(keys),
    })
}

// How many keys bytes without an offence spell.
#[tactic(auto, unfolding(crate::specs::Binary::roster_offence))]
fn whole_size(bytes: &[u8]) -> Result<u8, Offence>
    ensures { Gives (λ e. Some e) (λ n. n) result (value_unless (roster_offence bytes.now) (size_of bytes.now)) }
{
    let size = size(bytes)?;
    check_keys(bytes, size)?;
    let at = 6 + 56 * u32::from(size);
    if bytes.len() > at as usize {
        return Err(Offence {
            at,
            rule: Rule::Trailing,
        });
    }
    Ok(size)
}

// The number of keys, behind the magic and the version.
fn size(bytes: &[u8]) -> Result<u8, Offence>
    ensures read { Gives (λ e. Some e) (λ n. n) result (value_unless (head_offence bytes.now) (size_of bytes.now)) }
    ensures bound { IfOk result (λ n. n ≤ 8) }
{
    if let Some(at) = first_unlike(b"DSRO", bytes) {
        return Err(Offence {
            at,
            rule: Rule::Magic,
        });
    }
    if bytes.get(4) != Some(&1) {
        return Err(Offence {
            at: 4,
            rule: Rule::Version,
        });
    }
    match bytes.get(5) {
        Some(&size) if 2 <= size && size <= 8 => Ok(size),
        _ => Err(Offence {
            at: 5,
            rule: Rule::Size,
        }),
    }
}

// The keys have no offence.
fn check_keys(bytes: &[u8], size: u8) -> Result<(), Offence>
    requires { size ≤ 8 }
    ensures { Gives (λ e. Some e) (λ u. u) result (value_unless (keys_offence bytes.now size) tt) }
{
    for k in 0..size {
        check_key(bytes, k)?;
    }
    Ok(())
}

// Key k has no offence.
fn check_key(bytes: &[u8], k: u8) -> Result<(), Offence>
    requires { k < 8 }
    ensures { Gives (λ e. Some e) (λ u. u) result (value_unless (key_offence bytes.now k) tt) }
{
    let at = 6 + 56 * u32::from(k);
    if bytes.len() < at as usize + 56 {
        return Err(Offence {
            at,
            rule: Rule::Short,
        });
    }
    match LmsPublic::read(&key_at(bytes, k)) {
        Err(KeyRefusal::LmsKind { .. }) => Err(Offence {
            at,
            rule: Rule::LmsKind,
        }),
        Err(KeyRefusal::OtsKind { .. }) => Err(Offence {
            at: at + 4,
            rule: Rule::OtsKind,
        }),
        Ok(_) if repeats(bytes, k) => Err(Offence {
            at,
            rule: Rule::Duplicate,
        }),
        Ok(_) => Ok(()),
    }
}

// Whether key k equals an earlier one.
fn repeats(bytes: &[u8], k: u8) -> bool
    requires few { k < 8 }
    requires whole { key_place (k + 1) ≤ length bytes.now }
    ensures { result ≡ repeats bytes.now k }
{
    let key = key_at(bytes, k);
    for j in 0..k {
        if are_equal(&key_at(bytes, j), &key) {
            return true;
        }
    }
    false
}

fn are_equal(key: &[u8; 56], other: &[u8; 56]) -> bool
    ensures { result ≡ bytes_eq key.now other.now }
{
    key == other
}

// The bytes of key k.
fn key_at(bytes: &[u8], k: u8) -> [u8; 56]
    requires few { k < 8 }
    requires whole { key_place (k + 1) ≤ length bytes.now }
    ensures { result ≡ key_at bytes.now k }
{
    let at = 6 + 56 * usize::from(k);
    let mut key = [0; 56];
    key.copy_from_slice(&bytes[at..at + 56]);
    key
}

// The keys, in memory of their own.
fn keys(alloc: Global, bytes: &[u8], size: u8) -> Mem<Vec<[u8; 56]>>
    requires few { size ≤ 8 }
    requires whole { key_place size ≤ length bytes.now }
    ensures { IfOk result (λ keys. keys.items ≡ keys_at bytes.now size) }
{
    let mut keys = Vec::with_capacity(alloc, usize::from(size))?;
    for k in 0..size {
        keys.push(key_at(bytes, k))?;
    }
    Ok(keys)
}
