//! A look at the bytes of a content, which takes no memory and keeps nothing of them.

ghost use Rattle.std.specs.Prelude.{◌≡◌, ◌<◌, ◌^◌, length};
ghost use Rattle.std.specs.Result.{result_err};
ghost use Rattle.wire_core.specs.Reading.{Reads};
ghost use Rattle.phase_message.specs.Stages.{shape_of};
ghost use Rattle.phase_message.specs.Offence.{body_at, content_read, first_offence, passed};

use crate::content::{read_head, read_keys};
use crate::field::{flag, item_bytes, pass_items};
use crate::form::{BodyForm, ItemForm};
use crate::header::hash;
use crate::offence::Offence;
use crate::shape::Shape;
use wire_core::Cursor;

/// The first offence of bytes as a content in a round of a shape, as `decode` tells it: `None` exactly where they
/// spell one. It takes no memory.
pub fn first_offence(shape: Shape, bytes: &[u8]) -> Option<Offence>
    requires { length bytes.now < 2 ^ 32 }
    ensures { result ≡ first_offence (shape_of shape) bytes.now }
{
    pass_content(shape, bytes).err()
}

#[tactic(auto, unfolding(crate::specs::Offence::content_read))]
fn pass_content(shape: Shape, bytes: &[u8]) -> Result<(), Offence>
    requires { length bytes.now < 2 ^ 32 }
    ensures { result_err result ≡ first_offence (shape_of shape) bytes.now }
{
    let mut cursor = Cursor::new(bytes);
    if cursor.left() < 76 {
        let at = cursor.left();
        return Err(Offence { at, rule: 7 });
    }
    let (_, form) = read_head(shape, &mut cursor)?;
    pass_body(&mut cursor, form)?;
    if cursor.left() > 0 {
        let at = cursor.place();
        return Err(Offence { at, rule: 3 });
    }
    Ok(())
}

#[tactic(auto, unfolding(crate::specs::Offence::body_at))]
fn pass_body(cursor: &mut Cursor, form: BodyForm) -> Result<(), Offence>
    ensures { Reads (λ x. x) result cursor.new (passed (body_at form cursor.old)) }
{
    match form {
        BodyForm::Keys => {
            let _keys = read_keys(cursor)?;
            Ok(())
        }
        BodyForm::Submit { length } => {
            let _ciphertext = item_bytes(cursor, ItemForm::Entry { length })?;
            Ok(())
        }
        BodyForm::Shuffled { count, length } => {
            pass_items(cursor, ItemForm::Entry { length }, count)
        }
        BodyForm::Abort => Ok(()),
        BodyForm::Go | BodyForm::Check => {
            let _yes = flag(cursor)?;
            Ok(())
        }
        BodyForm::Reveal { votes } => {
            pass_items(cursor, ItemForm::Post, votes)?;
            let _seed = hash(cursor)?;
            Ok(())
        }
        BodyForm::Dispute { posts } => {
            pass_items(cursor, ItemForm::Post, posts)?;
            let _seed = hash(cursor)?;
            let _opening = hash(cursor)?;
            Ok(())
        }
        BodyForm::Pads { count } => pass_items(cursor, ItemForm::Pad, count),
        BodyForm::Confirm { votes: count } | BodyForm::Differ { posts: count } => {
            pass_items(cursor, ItemForm::Post, count)
        }
    }
}
