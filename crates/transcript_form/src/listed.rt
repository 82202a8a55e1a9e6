//! A transcript where it lies: nothing is copied.

ghost use Rattle.std.specs.Prelude.{◌≡◌, ◌<◌, ◌^◌, length, IfOk, Some};
ghost use Rattle.std.specs.Int.{w64};
ghost use Rattle.wire_core.specs.Reading.{Gives, Reads, bytes_at, number_at, repeated};
ghost use Rattle.phase_message.specs.Stages.{shape_of};
ghost use Rattle.transcript_form.specs.Claim.{claim_posts};
ghost use Rattle.transcript_form.specs.Form.{accused_at, behind_magic, claim_at, claim_read, count_at, detail_at, head_at, listed_at, or_cut, transcript_read};
ghost use Rattle.transcript_form.specs.Passing.{Passes};

use crate::accusation::Accusation;
use crate::claim::Claim;
use crate::refusal::FailedForm;
use phase_message::Shape;
use std::marker::Model;
use wire_core::{Cursor, Short, first_unlike};

/// Posts where they lie, one behind the other. Contracts see the list of their bytes. As an iterator it
/// gives each post once, from the first on.
#[derive(Debug, Drop)]
pub struct ListedPosts<'a> {
    left: u32,
    rest: &'a [u8],
}

impl<'a> Model for ListedPosts<'a> {
    ghost use Rattle.std.specs.Prelude.{ℕ, List};
    ghost use Rattle.transcript_form.specs.Listed.{PostsLie, posts_of};

    ghost Value = { List (List ℕ) };

    ghost view = { λ posts. posts_of posts.left posts.rest.now };

    ghost invariant = { λ posts. PostsLie posts.left posts.rest.now };
}

impl<'a> Iterator for ListedPosts<'a> {
    ghost use Rattle.std.specs.Iterator.{YieldsFirstBy, item_count};

    type Item = &'a [u8];

    ghost next_gives = { YieldsFirstBy (λ post. post.now) (λ posts. posts) };

    ghost remaining = { item_count (λ posts. posts) };

    fn next(&mut self) -> Option<&'a [u8]> {
        if self.left == 0 {
            return None;
        }
        let (front, rest) = self.rest.split_at(4);
        let length = u32::from_be_bytes([front[0], front[1], front[2], front[3]]);
        let (post, rest) = rest.split_at(length as usize);
        self.left -= 1;
        self.rest = rest;
        Some(post)
    }
}

/// A transcript where it lies.
#[derive(Debug, Drop)]
pub struct Listed<'a> {
    pub claim: Claim,
    /// A member's number, from 1.
    pub accused: u8,
    pub round: u64,
    /// For the claim `Pad` alone.
    pub detail: Option<Accusation>,
    /// The bytes of each listed post, whether they are a post or not.
    pub posts: ListedPosts<'a>,
}

// What stands before the posts.
#[derive(Clone, Copy)]
struct Head {
    claim: Claim,
    accused: u8,
    round: u64,
    detail: Option<Accusation>,
}

/// The transcript that bytes spell, all of the bytes, for a group of a shape, or the first check of the
/// form that they fail. It takes no memory.
#[tactic(auto, unfolding(crate::specs::Form::transcript_read))]
pub fn read_listed(shape: Shape, bytes: &[u8]) -> Result<Listed<'_>, FailedForm>
    requires few { length bytes.now < 2 ^ 32 }
    ensures exact { Gives (λ e. Some e) (λ l. record {
      claim = l.claim;
      accused = l.accused;
      round = l.round;
      detail = l.detail;
      posts = l.posts;
    }) result (transcript_read (shape_of shape) bytes.now) }
    // There are as many posts as the claim takes.
    ensures count { IfOk result (λ l. length l.posts ≡ claim_posts (shape_of shape) l.claim) }
{
    let mut cursor = behind_magic(bytes)?;
    let size = bytes.len() as u32;
    let head = read_head(&mut cursor, shape, size)?;
    let posts = read_posts(&mut cursor, shape, head.claim, size)?;
    if cursor.left() != 0 {
        return Err(FailedForm::Form { at: cursor.place() });
    }
    Ok(Listed {
        claim: head.claim,
        accused: head.accused,
        round: head.round,
        detail: head.detail,
        posts,
    })
}

/// The claim of a transcript's bytes, or the first check of the form that they fail up to it. Nothing
/// behind the claim is looked at.
#[tactic(auto, unfolding(crate::specs::Form::claim_read))]
pub fn read_claim(bytes: &[u8]) -> Result<Claim, FailedForm>
    requires { length bytes.now < 2 ^ 32 }
    ensures { Gives (λ e. Some e) (λ claim. claim) result (claim_read bytes.now) }
{
    let mut cursor = behind_magic(bytes)?;
    claim_at(&mut cursor, bytes.len() as u32)
}

// A cursor behind the text and the version.
#[tactic(auto, unfolding(crate::specs::Form::behind_magic))]
fn behind_magic(bytes: &[u8]) -> Result<Cursor<'_>, FailedForm>
    requires { length bytes.now < 2 ^ 32 }
    ensures { Gives (λ e. Some e) (λ cursor. cursor) result (behind_magic bytes.now) }
{
    if let Some(at) = first_unlike(b"DSTR\x01", bytes) {
        return Err(FailedForm::Magic { at });
    }
    let mut cursor = Cursor::new(bytes);
    uncut(cursor.bytes(5), bytes.len() as u32)?;
    Ok(cursor)
}

#[tactic(auto, unfolding(crate::specs::Form::head_at))]
fn read_head(cursor: &mut Cursor<'_>, shape: Shape, size: u32) -> Result<Head, FailedForm>
    ensures { Reads (λ h. record { claim = h.claim; accused = h.accused; round = h.round; detail = h.detail })
        result cursor.new (head_at (shape_of shape) size cursor.old) }
{
    let claim = claim_at(cursor, size)?;
    let accused = read_accused(cursor, shape, size)?;
    let round = uncut(cursor.u64(), size)?;
    let detail = read_detail(cursor, claim, size)?;
    read_count(cursor, claim.posts(shape), size)?;
    Ok(Head {
        claim,
        accused,
        round,
        detail,
    })
}

#[tactic(auto, unfolding(crate::specs::Form::claim_at))]
fn claim_at(cursor: &mut Cursor<'_>, size: u32) -> Result<Claim, FailedForm>
    ensures { Reads (λ claim. claim) result cursor.new (claim_at size cursor.old) }
{
    let at = cursor.place();
    let number = uncut(cursor.u8(), size)?;
    Claim::of_number(number).ok_or(FailedForm::Form { at })
}

#[tactic(auto, unfolding(crate::specs::Form::accused_at))]
fn read_accused(cursor: &mut Cursor<'_>, shape: Shape, size: u32) -> Result<u8, FailedForm>
    ensures { Reads (λ accused. accused) result cursor.new (accused_at (shape_of shape) size cursor.old) }
{
    let at = cursor.place();
    let accused = uncut(cursor.u8(), size)?;
    if accused < 1 || accused > shape.members {
        return Err(FailedForm::Form { at });
    }
    Ok(accused)
}

#[tactic(auto, unfolding(crate::specs::Form::detail_at))]
fn read_detail(
    cursor: &mut Cursor<'_>,
    claim: Claim,
    size: u32,
) -> Result<Option<Accusation>, FailedForm>
    ensures { Reads (λ detail. detail) result cursor.new (detail_at claim size cursor.old) }
{
    match claim {
        Claim::Pad => Ok(Accusation::decode(uncut(cursor.bytes(34), size)?)),
        _ => Ok(None),
    }
}

#[tactic(auto, unfolding(crate::specs::Form::count_at))]
fn read_count(cursor: &mut Cursor<'_>, wanted: u32, size: u32) -> Result<u32, FailedForm>
    ensures { Reads (λ count. count) result cursor.new (count_at wanted size cursor.old) }
{
    let at = cursor.place();
    let count = uncut(cursor.u32(), size)?;
    if count != wanted {
        return Err(FailedForm::Count { at });
    }
    Ok(count)
}

// The posts of the claim, which are looked at and stay where they lie.
fn read_posts<'a>(
    cursor: &mut Cursor<'a>,
    shape: Shape,
    claim: Claim,
    size: u32,
) -> Result<ListedPosts<'a>, FailedForm>
    ensures { Reads (λ posts. posts) result cursor.new
        (repeated (claim_posts (shape_of shape) claim) (listed_at size) cursor.old) }
{
    let rest = cursor.rest();
    let count = claim.posts(shape);
    pass_posts(cursor, count, size)?;
    Ok(ListedPosts { left: count, rest })
}

// Reads over so many posts.
fn pass_posts(cursor: &mut Cursor<'_>, count: u32, size: u32) -> Result<(), FailedForm>
    ensures { Passes result cursor.new (repeated count (listed_at size) cursor.old) }
{
    for _ in 0..count {
        read_post(cursor, size)?;
    }
    Ok(())
}

// The next post.
#[tactic(auto, unfolding(crate::specs::Form::listed_at))]
fn read_post<'a>(cursor: &mut Cursor<'a>, size: u32) -> Result<&'a [u8], FailedForm>
    ensures { Reads (λ post. post.now) result cursor.new (listed_at size cursor.old) }
{
    let length = uncut(cursor.u32(), size)?;
    uncut(cursor.bytes(length), size)
}

// What was read, or that the form fails at the number of bytes, where the field is cut.
fn uncut<T>(read: Result<T, Short>, size: u32) -> Result<T, FailedForm>
    ensures { result ≡ or_cut size read }
{
    match read {
        Ok(x) => Ok(x),
        Err(_) => Err(FailedForm::Form { at: size }),
    }
}
