//! Writing a content as bytes.

ghost use Rattle.std.specs.Prelude.{◌≡◌, ◌<◌, ◌^◌, ◌++◌, length, OnOk, IfOk};
ghost use Rattle.std.specs.List.{flat_map, AllByRecursion};
ghost use Rattle.phase_message.specs.Stages.{shape_of};
ghost use Rattle.phase_message.specs.Grammar.{ItemsAreShort, OfGrammar, body_text, content_text, flag_text, header_text, kind_number, prefixed};

use crate::content::{Body, Content};
use crate::header::Header;
use crate::shape::Shape;
use std::alloc::Global;
use wire_core::{List, Mem, put_bytes, put_u8, put_u32, put_u64};

/// The one spelling of a content that a member may say in a round of a shape. It refuses only where it runs out of memory.
pub fn encode(alloc: Global, shape: Shape, content: &Content) -> Mem<Vec<u8>>
    requires { OfGrammar (shape_of shape) content.now }
    ensures { IfOk result (λ bytes. bytes.items ≡ content_text content.now) }
{
    let mut out = Vec::new(alloc);
    put_header(&mut out, &content.header)?;
    put_u8(&mut out, kind_of(&content.body))?;
    put_body(&mut out, &content.body)?;
    Ok(out)
}

fn put_header(out: &mut Vec<u8>, header: &Header) -> Mem<()>
    ensures { OnOk result (out.new.items ≡ out.old.items ++ header_text header.now) }
{
    put_u8(out, header.version)?;
    put_bytes(out, &header.group)?;
    put_u64(out, header.round)?;
    put_u8(out, header.stage)?;
    put_u8(out, header.sender)?;
    put_bytes(out, &header.view)
}

// The number of a body's kind.
fn kind_of(body: &Body) -> u8
    ensures { result ≡ kind_number body.now }
{
    match body {
        Body::Keys { .. } => 1,
        Body::Submit { .. } => 2,
        Body::Shuffled { .. } => 3,
        Body::Abort => 4,
        Body::Go { .. } => 5,
        Body::Reveal { .. } => 6,
        Body::Dispute { .. } => 7,
        Body::Pads { .. } => 8,
        Body::Check { .. } => 9,
        Body::Confirm { .. } => 10,
        Body::Differ { .. } => 11,
    }
}

fn put_body(out: &mut Vec<u8>, body: &Body) -> Mem<()>
    requires { ItemsAreShort body.now }
    ensures { OnOk result (out.new.items ≡ out.old.items ++ body_text body.now) }
{
    match body {
        Body::Keys { keys } => put_keys(out, keys),
        Body::Submit { ciphertext } => put_bytes(out, ciphertext.items().as_slice()),
        Body::Shuffled { list } => put_entries(out, list.items().as_slice()),
        Body::Abort => Ok(()),
        Body::Go { yes } | Body::Check { yes } => put_u8(out, u8::from(*yes)),
        Body::Reveal { votes, seed } => {
            put_items(out, votes.items().as_slice())?;
            put_bytes(out, seed)
        }
        Body::Dispute {
            posts,
            outer_seed,
            outer_opening,
        } => {
            put_items(out, posts.items().as_slice())?;
            put_bytes(out, outer_seed)?;
            put_bytes(out, outer_opening)
        }
        Body::Pads { pads: items }
        | Body::Confirm { votes: items }
        | Body::Differ { posts: items } => put_items(out, items.items().as_slice()),
    }
}

fn put_keys(out: &mut Vec<u8>, keys: &[[u8; 1824]]) -> Mem<()>
    ensures { OnOk result (out.new.items ≡ out.old.items ++ flat_map (λ key. key) keys.now) }
{
    for key in keys {
        put_bytes(out, key)?;
    }
    Ok(())
}

fn put_entries(out: &mut Vec<u8>, entries: &[List<u8>]) -> Mem<()>
    ensures { OnOk result (out.new.items ≡ out.old.items ++ flat_map (λ entry. entry) entries.now) }
{
    for entry in entries {
        put_bytes(out, entry.items().as_slice())?;
    }
    Ok(())
}

// Each item behind its length.
fn put_items(out: &mut Vec<u8>, items: &[List<u8>]) -> Mem<()>
    requires { AllByRecursion (λ item. length item < 2 ^ 32) items.now }
    ensures { OnOk result (out.new.items ≡ out.old.items ++ flat_map prefixed items.now) }
{
    for item in items {
        put_u32(out, item.items().len() as u32)?;
        put_bytes(out, item.items().as_slice())?;
    }
    Ok(())
}
