//! Rosters in TOML.

ghost use Rattle.std.specs.Prelude.{◌≡◌, ◌≤◌, IfOk, IfSome, Some, Ok, codes, length, map, option_and_then, option_map, bytes_eq, nat_le, ◌&&◌};
ghost use Rattle.std.specs.List.{list_any};
ghost use Rattle.std.specs.Result.{result_ok};
ghost use Rattle.hex.specs.Hex.{decode_sized};
ghost use Rattle.toml.specs.Data.{as_str, as_integer, as_array, get_member};
ghost use Rattle.toml.specs.View.{view, table_view, array_view};
ghost use Rattle.wire_core.specs.Answers.{Gives};
ghost use Rattle.group_roster.specs.declared.rule.Rule.TheVariants.{NotToml};
ghost use Rattle.group_roster.specs.Roster.{IsRosterFile};
ghost use Rattle.group_roster.specs.Rules.{broken, offence_told};
ghost use Rattle.group_roster.specs.Given.{roster_of};
ghost use Rattle.group_roster.specs.Toml.{document_in, entries_in, has_key_beside, has_version_1, is_one, key_in, key_of_entry, keys_from, list_of, toml_keys, toml_read, value_or};

use crate::binary::decode;
use crate::refusal::RosterRefusal;
use crate::roster::Roster;
use crate::rule::Rule;
use crate::spelling::spelled;
use hex::FromHex;
use std::alloc::Global;
use toml::value::Array;
use toml::{Table, Value};

/// The roster that a TOML document stands for: `version = 1`, and an array of tables `member`, each
/// with the one key `key`, the 112 hexadecimal digits of a member's public key, by number of member.
///
/// `Bad` names the first rule that is broken: 9 `toml` refuses the bytes, or they are no text (at 0);
/// 10 a further key stands at the top (at 0); 11 `version` is missing or not the integer 1 (at 0);
/// 12 `member` is missing, no array, or has not 2 to 8 entries (at 0); 13 an entry is not as said
/// (at its number, from 1); and then the rules 6, 7 and 8 of `decode`, at the offsets that the keys
/// have in a roster's bytes.
#[tactic(auto, unfolding(crate::specs::Toml::toml_read))]
pub fn from_toml(alloc: Global, bytes: &[u8]) -> Result<Roster, RosterRefusal>
    ensures exact { Gives offence_told roster_of result (toml_read bytes.now) }
    ensures found { IfOk result (λ r. IsRosterFile (roster_of r)) }
{
    let keys = document_keys(alloc, bytes)?;
    let (bytes, size) = spelled(1, &keys);
    decode(alloc, &bytes[..size])
}

// The keys of a document.
#[tactic(auto, unfolding(crate::specs::Toml::toml_keys))]
fn document_keys(alloc: Global, bytes: &[u8]) -> Result<Vec<[u8; 56]>, RosterRefusal>
    ensures keys { Gives offence_told (λ keys. keys.items) result (toml_keys bytes.now) }
    ensures some { IfOk result (λ keys. (2 ≤ length keys.items) × (length keys.items ≤ 8)) }
{
    let top = document(alloc, bytes)?;
    if has_key_beside(&top, &["version", "member"]) {
        return Err(RosterRefusal::of(0, Rule::FurtherKey));
    }
    if !is_version_1(&top) {
        return Err(RosterRefusal::of(0, Rule::TomlVersion));
    }
    match entries(&top) {
        Some(entries) => entry_keys(alloc, entries),
        None => Err(RosterRefusal::of(0, Rule::TomlMembers)),
    }
}

// What a document has at its top.
#[tactic(auto, unfolding(crate::specs::Toml::document_in))]
fn document(alloc: Global, bytes: &[u8]) -> Result<Table, RosterRefusal>
    ensures { Gives offence_told (λ top. table_view top) result (value_or (broken 0 NotToml) (document_in bytes.now)) }
{
    match toml::table_from_slice(alloc, bytes) {
        Ok(top) => Ok(top),
        Err(error) => {
            if error.is_memory() {
                Err(RosterRefusal::Memory)
            } else {
                Err(RosterRefusal::of(0, Rule::NotToml))
            }
        }
    }
}

// Whether a table has a key beside these names.
fn has_key_beside(table: &Table, names: &[&str]) -> bool
    ensures { result ≡ has_key_beside (map (λ name. name.now) names.now) (table_view table.now) }
{
    for key in table.keys() {
        if !is_among(key, names) {
            return true;
        }
    }
    false
}

fn is_among(key: &str, names: &[&str]) -> bool
    ensures { result ≡ list_any (λ name. bytes_eq key.now name.now) names.now }
{
    names.iter().any(|name| *name == key)
}

// The value of a name.
fn value_at<'a>(table: &'a Table, name: &str) -> Option<&'a Value>
    ensures { option_map (λ value. view value.now) result ≡ get_member name.now (table_view table.now) }
{
    table.get(name)
}

fn is_version_1(top: &Table) -> bool
    ensures { result ≡ has_version_1 (table_view top.now) }
{
    match value_at(top, "version") {
        Some(version) => is_one(version),
        None => false,
    }
}

fn is_one(value: &Value) -> bool
    ensures { result ≡ is_one (as_integer (view value.now)) }
{
    match value.as_integer() {
        Some(number) => number == 1,
        None => false,
    }
}

// The entries of `member`, where there are as many as a group may have members.
fn entries(top: &Table) -> Option<&Array>
    ensures entries { option_map (λ entries. list_of (array_view entries.now)) result ≡ entries_in (table_view top.now) }
    ensures some { IfSome result (λ entries. (2 ≤ length entries.now.items) × (length entries.now.items ≤ 8)) }
{
    let entries = member_array(top)?;
    if is_group(entries) {
        Some(entries)
    } else {
        None
    }
}

// Whether a group may have as many members.
fn is_group(entries: &Array) -> bool
    ensures { result ≡ nat_le 2 (length entries.now.items) && nat_le (length entries.now.items) 8 }
{
    2 <= entries.len() && entries.len() <= 8
}

// The array under `member`.
fn member_array(top: &Table) -> Option<&Array>
    ensures { option_map (λ entries. array_view entries.now) result
        ≡ option_and_then as_array (get_member (codes "member") (table_view top.now)) }
{
    match value_at(top, "member") {
        Some(value) => value.as_array(),
        None => None,
    }
}

// The keys of the entries, by number of member.
fn entry_keys(alloc: Global, entries: &Vec<Value>) -> Result<Vec<[u8; 56]>, RosterRefusal>
    requires { length entries.now.items ≤ 8 }
    ensures keys { Gives offence_told (λ keys. keys.items) result (keys_from 1 (list_of (array_view entries.now))) }
    ensures all { IfOk result (λ keys. length keys.items ≡ length entries.now.items) }
{
    let mut keys = Vec::new(alloc);
    for (k, entry) in entries.iter().enumerate() {
        match entry_key(entry) {
            Some(key) => keys.push(key)?,
            None => {
                return Err(RosterRefusal::of(k as u32 + 1, Rule::Entry));
            }
        }
    }
    Ok(keys)
}

// The key of an entry: a table with the one key `key`, a string of 112 hexadecimal digits.
#[tactic(auto, unfolding(crate::specs::Toml::key_of_entry))]
fn entry_key(entry: &Value) -> Option<[u8; 56]>
    ensures { result ≡ key_of_entry (view entry.now) }
{
    table_key(entry.as_table()?)
}

fn table_key(entry: &Table) -> Option<[u8; 56]>
    ensures { result ≡ key_in (table_view entry.now) }
{
    if has_key_beside(entry, &["key"]) {
        return None;
    }
    key_of_digits(digits_at(entry)?)
}

// The text under `key`.
fn digits_at(entry: &Table) -> Option<&str>
    ensures { option_map (λ digits. digits.now) result ≡ option_and_then as_str (get_member (codes "key") (table_view entry.now)) }
{
    match value_at(entry, "key") {
        Some(value) => value.as_str(),
        None => None,
    }
}

fn key_of_digits(digits: &str) -> Option<[u8; 56]>
    ensures { result ≡ result_ok (decode_sized digits.now 56) }
{
    <[u8; 56] as FromHex>::from_hex(digits).ok()
}
