//! Transcripts that are held, their reading and their writing.

ghost use Rattle.std.specs.Prelude.{◌≡◌, ◌<◌, ◌^◌, ◌++◌, length, Ok, Err, OnOk, IfOk, IfErr, IsOk};
ghost use Rattle.std.specs.List.{AllByRecursion, flat_map};
ghost use Rattle.wire_core.specs.Reading.{Gives, fault_as};
ghost use Rattle.phase_message.specs.Grammar.{prefixed};
ghost use Rattle.phase_message.specs.Stages.{shape_of};
ghost use Rattle.transcript_form.specs.Form.{transcript_read};
ghost use Rattle.transcript_form.specs.Refusals.{failure_of_form, failure_of_refusal};
ghost use Rattle.transcript_form.specs.Transcript.{IsTranscript, IsTranscriptOfSome, head_spelling, transcript_magic, transcript_spelling};

use crate::accusation::Accusation;
use crate::claim::Claim;
use crate::listed::{ListedPosts, read_listed};
use crate::refusal::Refused;
use phase_message::Shape;
use std::alloc::{AllocError, Global};
use wire_core::{List, Mem, put_bytes, put_u8, put_u32, put_u64};

/// A claim against a member, with the posts that are to show it.
#[derive(Debug, Drop)]
pub struct Transcript {
    pub claim: Claim,
    /// A member's number, from 1.
    pub accused: u8,
    pub round: u64,
    /// For the claim `Pad` alone.
    pub detail: Option<Accusation>,
    /// The bytes of each listed post, whether they are a post or not.
    pub posts: List<List<u8>>,
}

/// The transcript that bytes spell, all of the bytes, for a group of a shape. `Check` names the first of
/// the checks 1 to 3 that they fail, with post 0, and no want of memory hides it.
pub fn read_transcript(alloc: Global, shape: Shape, bytes: &[u8]) -> Result<Transcript, Refused>
    requires few { length bytes.now < 2 ^ 32 }
    // What is read is spelled so.
    ensures found { IfOk result (λ t. IsTranscript (shape_of shape) t × (bytes.now ≡ transcript_spelling t)) }
    // What is spelled so is read, unless memory runs out.
    ensures only { (t : Transcript) → IsTranscript (shape_of shape) t → bytes.now ≡ transcript_spelling t →
        Gives failure_of_refusal (λ t. t) result (Ok t) }
    // Which check fails.
    ensures exact { Gives failure_of_refusal (λ t. t) result (fault_as failure_of_form (transcript_read (shape_of shape) bytes.now)) }
    ensures memory { result ≡ Err Refused.Memory → IsOk (transcript_read (shape_of shape) bytes.now) }
{
    read(alloc, shape, bytes)
}

fn read(alloc: Global, shape: Shape, bytes: &[u8]) -> Result<Transcript, Refused>
    requires few { length bytes.now < 2 ^ 32 }
    ensures exact { Gives failure_of_refusal (λ t. t) result (fault_as failure_of_form (transcript_read (shape_of shape) bytes.now)) }
    ensures memory { result ≡ Err Refused.Memory → IsOk (transcript_read (shape_of shape) bytes.now) }
{
    let listed = read_listed(shape, bytes)?;
    Ok(Transcript {
        claim: listed.claim,
        accused: listed.accused,
        round: listed.round,
        detail: listed.detail,
        posts: List::of(copies(alloc, listed.posts)?),
    })
}

// The posts, each copied.
fn copies(alloc: Global, posts: ListedPosts<'_>) -> Mem<Vec<List<u8>>>
    ensures { IfOk result (λ copies. copies.items ≡ posts.entry) }
{
    let mut copies = Vec::new(alloc);
    for post in posts {
        copies.push(copy(alloc, post)?)?;
    }
    Ok(copies)
}

fn copy(alloc: Global, bytes: &[u8]) -> Mem<List<u8>>
    ensures { IfOk result (λ list. list ≡ bytes.now) }
{
    Ok(List::of(Vec::from_slice(alloc, bytes)?))
}

/// The one spelling of a transcript.
pub fn write_transcript(alloc: Global, transcript: &Transcript) -> Mem<Vec<u8>>
    requires { IsTranscriptOfSome transcript.now }
    ensures { IfOk result (λ bytes. bytes.items ≡ transcript_spelling transcript.now) }
{
    let mut out = Vec::new(alloc);
    put_bytes(&mut out, b"DSTR\x01")?;
    put_head(&mut out, transcript)?;
    put_posts(&mut out, transcript.posts.items().as_slice())?;
    Ok(out)
}

// What stands before the posts.
fn put_head(out: &mut Vec<u8>, transcript: &Transcript) -> Mem<()>
    requires { length transcript.now.posts < 2 ^ 32 }
    ensures { OnOk result (out.new.items ≡ out.old.items ++ head_spelling transcript.now) }
{
    put_u8(out, transcript.claim.number())?;
    put_u8(out, transcript.accused)?;
    put_u64(out, transcript.round)?;
    if let Some(accusation) = &transcript.detail {
        put_bytes(out, &accusation.encode())?;
    }
    put_u32(out, transcript.posts.items().len() as u32)
}

// Each post, with its length before it.
fn put_posts(out: &mut Vec<u8>, posts: &[List<u8>]) -> Mem<()>
    requires { AllByRecursion (λ post. length post < 2 ^ 32) posts.now }
    ensures { OnOk result (out.new.items ≡ out.old.items ++ flat_map prefixed posts.now) }
{
    for post in posts {
        put_u32(out, post.items().len() as u32)?;
        put_bytes(out, post.items().as_slice())?;
    }
    Ok(())
}
