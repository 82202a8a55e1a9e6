//! Reading the fields of a body.

ghost use Rattle.std.specs.Prelude.{◌≡◌, ◌<◌, length, IfSome};
ghost use Rattle.wire_core.specs.Reading.{Reads, ReadsOr};
ghost use Rattle.phase_message.specs.Offence.{bad_group, fault, flag_at, item_at, items_at, key_at, length_at, passed};

use crate::content::DecodeRefusal;
use crate::form::ItemForm;
use crate::offence::Offence;
use ring_poly::unpack;
use std::alloc::Global;
use wire_core::{Cursor, List};

// The greatest length of a pad.
const PAD_LIMIT: u32 = 65_536;

// A flag is 1 for yes and 0 for no.
#[tactic(auto, unfolding(crate::specs::Offence::flag_at))]
pub(crate) fn flag(cursor: &mut Cursor) -> Result<bool, Offence>
    ensures { Reads (λ x. x) result cursor.new (flag_at cursor.old) }
{
    let at = cursor.place();
    let flag = cursor.u8()?;
    if flag > 1 {
        return Err(Offence { at, rule: 5 });
    }
    Ok(flag == 1)
}

// A public key: 32 bytes, and a packed polynomial.
#[tactic(auto, unfolding(crate::specs::Offence::key_at))]
pub(crate) fn key(cursor: &mut Cursor) -> Result<[u8; 1824], Offence>
    ensures { Reads (λ x. x) result cursor.new (key_at cursor.old) }
{
    let bytes = cursor.bytes(1824)?;
    let (_, packed) = bytes.split_at(32);
    if let Some(group) = bad_group(packed) {
        let at = cursor.place() - 1792 + group;
        return Err(Offence { at, rule: 4 });
    }
    let mut key = [0; 1824];
    key.copy_from_slice(bytes);
    Ok(key)
}

// Where the first group of seven bytes begins that has a coefficient of 12289 or more.
#[tactic(auto, unfolding(crate::specs::Offence::bad_group))]
fn bad_group(packed: &[u8]) -> Option<u32>
    requires { length packed.now ≡ 1792 }
    ensures group { result ≡ bad_group packed.now }
    ensures within { IfSome result (λ group. group < 1792) }
{
    match unpack(packed) {
        Ok(_) => None,
        Err(large) => Some(7 * (large.place / 4)),
    }
}

// How many bytes the next item has.
#[tactic(auto, unfolding(crate::specs::Offence::length_at))]
fn item_length(cursor: &mut Cursor, form: ItemForm) -> Result<u32, Offence>
    ensures { Reads (λ x. x) result cursor.new (length_at form cursor.old) }
{
    match form {
        ItemForm::Entry { length } => Ok(length),
        ItemForm::Post => Ok(cursor.u32()?),
        ItemForm::Pad => pad_length(cursor),
    }
}

#[tactic(auto, unfolding(crate::specs::Offence::length_at))]
fn pad_length(cursor: &mut Cursor) -> Result<u32, Offence>
    ensures { Reads (λ x. x) result cursor.new (length_at ItemForm.Pad cursor.old) }
{
    let at = cursor.place();
    let length = cursor.u32()?;
    if length > PAD_LIMIT {
        return Err(Offence { at, rule: 6 });
    }
    Ok(length)
}

// The bytes of an item of a list, which are not copied.
#[tactic(auto, unfolding(crate::specs::Offence::item_at))]
pub(crate) fn item_bytes<'a>(cursor: &mut Cursor<'a>, form: ItemForm) -> Result<&'a [u8], Offence>
    ensures { Reads (λ x. x.now) result cursor.new (item_at form cursor.old) }
{
    let length = item_length(cursor, form)?;
    Ok(cursor.bytes(length)?)
}

// An item of a list.
pub(crate) fn item(
    alloc: Global,
    cursor: &mut Cursor,
    form: ItemForm,
) -> Result<List<u8>, DecodeRefusal>
    ensures { ReadsOr fault (λ x. x) result cursor.new (item_at form cursor.old) }
{
    let bytes = item_bytes(cursor, form)?;
    Ok(List::of(Vec::from_slice(alloc, bytes)?))
}

// A list of so many items.
pub(crate) fn items(
    alloc: Global,
    cursor: &mut Cursor,
    form: ItemForm,
    count: u32,
) -> Result<List<List<u8>>, DecodeRefusal>
    ensures { ReadsOr fault (λ x. x) result cursor.new (items_at form count cursor.old) }
{
    let mut items = Vec::new(alloc);
    for _ in 0..count {
        items.push(item(alloc, cursor, form)?)?;
    }
    Ok(List::of(items))
}

// Past so many items, of which none is kept.
pub(crate) fn pass_items(cursor: &mut Cursor, form: ItemForm, count: u32) -> Result<(), Offence>
    ensures { Reads (λ x. x) result cursor.new (passed (items_at form count cursor.old)) }
{
    for _ in 0..count {
        let _bytes = item_bytes(cursor, form)?;
    }
    Ok(())
}
