//! Contents: a header, a kind and a body, and how their bytes are read.

ghost use Rattle.std.specs.Prelude.{◌≡◌, ◌<◌, ◌≤◌, ◌^◌, length, Err, IfOk, IsOk};
ghost use Rattle.wire_core.specs.Reading.{Gives, Reads, ReadsOr};
ghost use Rattle.phase_message.specs.declared.content.DecodeRefusal.TheVariants.{Malformed, Memory};
ghost use Rattle.phase_message.specs.Grammar.{OfGrammar, content_text};
ghost use Rattle.phase_message.specs.Stages.{shape_of};
ghost use Rattle.phase_message.specs.Offence.{body_at, content_read, fault, head_at};

use crate::field::{flag, item, items, key};
use crate::form::{BodyForm, ItemForm, form_at};
use crate::header::{Header, fields, hash};
use crate::look::first_offence;
use crate::offence::Offence;
use crate::shape::Shape;
use crate::stage::{Slot, is_slot};
use std::alloc::{AllocError, AllocFailed, Global};
use wire_core::{Cursor, List, Short};

/// What a member says, by kind.
#[derive(Debug, Drop)]
pub enum Body {
    /// Its five public keys: inner A, outer A, bulk, inner B, outer B. Each is 32 bytes and 1,024
    /// packed coefficients below 12289.
    Keys {
        keys: [[u8; 1824]; 5],
    },
    /// Its wrapped item.
    Submit {
        ciphertext: List<u8>,
    },
    /// All items, with a layer off, in an order of its own.
    Shuffled {
        list: List<List<u8>>,
    },
    /// That it can't shuffle.
    Abort,
    /// Whether the shuffle went right.
    Go {
        yes: bool,
    },
    /// The posts of the votes, and the seed of its inner key.
    Reveal {
        votes: List<List<u8>>,
        seed: [u8; 32],
    },
    /// All posts that it kept of earlier stages, and what makes its outer layers anew.
    Dispute {
        posts: List<List<u8>>,
        outer_seed: [u8; 32],
        outer_opening: [u8; 32],
    },
    /// A pad of at most 65,536 bytes for each entry.
    Pads {
        pads: List<List<u8>>,
    },
    /// Whether it saw what the others saw.
    Check {
        yes: bool,
    },
    /// The posts of the votes.
    Confirm {
        votes: List<List<u8>>,
    },
    /// All posts that it kept of earlier stages.
    Differ {
        posts: List<List<u8>>,
    },
}

/// What a post says.
#[derive(Debug, Drop)]
pub struct Content {
    pub header: Header,
    /// Of a kind that the header's stage has. A post within it is kept as its bytes, whatever they
    /// say.
    pub body: Body,
}

/// Why bytes are not read as a content.
#[derive(Clone, Copy, Debug, PartialEq, Eq)]
pub enum DecodeRefusal {
    /// They break a rule at an offset, from 0.
    Malformed { at: u32, rule: u32 },
    /// There was no memory.
    Memory,
}

impl From<AllocError> for DecodeRefusal {
    ghost from_gives = { λ _ refusal. refusal ≡ Memory };

    fn from(_error: AllocError) -> DecodeRefusal {
        DecodeRefusal::Memory
    }
}

impl<T: Drop> From<AllocFailed<T>> for DecodeRefusal {
    ghost from_gives = { λ _ refusal. refusal ≡ Memory };

    fn from(_failed: AllocFailed<T>) -> DecodeRefusal {
        DecodeRefusal::Memory
    }
}

impl From<Offence> for DecodeRefusal {
    ghost from_gives = { λ offence refusal. refusal ≡ Malformed offence.at offence.rule };

    fn from(offence: Offence) -> DecodeRefusal {
        DecodeRefusal::Malformed {
            at: offence.at,
            rule: offence.rule,
        }
    }
}

// A field that ends after the content breaks rule 2.
impl From<Short> for DecodeRefusal {
    ghost from_gives = { λ short refusal. refusal ≡ Malformed short.at 2 };

    fn from(short: Short) -> DecodeRefusal {
        DecodeRefusal::Malformed {
            at: short.at,
            rule: 2,
        }
    }
}

/// The content that bytes spell in a round of a shape. `Malformed` names the first rule that they
/// break, read from left to right, and the offset:
///
/// - 7: there are fewer than 76 bytes; at the number of bytes
/// - 8: the version is not the shape's; at 0
/// - 9: stage and sender are no slot of the group; at 41
/// - 1: the stage has no body of this kind; at 75
/// - 2: a field of the body ends after the content; at the field
/// - 4: a coefficient of a public key is 12289 or more; at its group of seven bytes
/// - 5: a flag is neither 0 nor 1; at the flag
/// - 6: a pad has more than 65,536 bytes; at its length
/// - 3: bytes follow the body; at the first of them
///
/// `Memory` comes only where the bytes spell a content: a look that takes no memory comes first.
pub fn decode(alloc: Global, shape: Shape, bytes: &[u8]) -> Result<Content, DecodeRefusal>
    requires short { length bytes.now < 2 ^ 32 }
    // What is read is of the grammar, and the bytes are its one spelling.
    ensures found { IfOk result (λ c. OfGrammar (shape_of shape) c × (bytes.now ≡ content_text c)) }
    // Which offence it is.
    ensures exact { Gives fault (λ x. x) result (content_read (shape_of shape) bytes.now) }
    // Memory runs out only where there is none.
    ensures memory { result ≡ Err DecodeRefusal.Memory → IsOk (content_read (shape_of shape) bytes.now) }
{
    if let Some(offence) = first_offence(shape, bytes) {
        return Err(DecodeRefusal::from(offence));
    }
    read_content(alloc, shape, bytes)
}

#[tactic(auto, unfolding(crate::specs::Offence::content_read))]
fn read_content(alloc: Global, shape: Shape, bytes: &[u8]) -> Result<Content, DecodeRefusal>
    requires short { length bytes.now < 2 ^ 32 }
    ensures { Gives fault (λ x. x) result (content_read (shape_of shape) bytes.now) }
{
    let mut cursor = Cursor::new(bytes);
    if cursor.left() < 76 {
        let at = cursor.left();
        return Err(DecodeRefusal::Malformed { at, rule: 7 });
    }
    let (header, form) = read_head(shape, &mut cursor)?;
    let body = read_body(alloc, &mut cursor, form)?;
    if cursor.left() > 0 {
        let at = cursor.place();
        return Err(DecodeRefusal::Malformed { at, rule: 3 });
    }
    Ok(Content { header, body })
}

// The header, the kind, and what a body of the kind holds.
#[tactic(auto, unfolding(crate::specs::Offence::head_at))]
pub(crate) fn read_head(shape: Shape, cursor: &mut Cursor) -> Result<(Header, BodyForm), Offence>
    ensures { Reads (λ x. x) result cursor.new (head_at (shape_of shape) cursor.old) }
{
    let header = fields(cursor)?;
    if header.version != shape.version {
        return Err(Offence { at: 0, rule: 8 });
    }
    let slot = Slot {
        stage: header.stage,
        sender: header.sender,
    };
    if !is_slot(shape, slot) {
        return Err(Offence { at: 41, rule: 9 });
    }
    let kind = cursor.u8()?;
    match form_at(shape, header.stage, kind) {
        None => Err(Offence { at: 75, rule: 1 }),
        Some(form) => Ok((header, form)),
    }
}

#[tactic(auto, unfolding(crate::specs::Offence::body_at))]
fn read_body(alloc: Global, cursor: &mut Cursor, form: BodyForm) -> Result<Body, DecodeRefusal>
    ensures { ReadsOr fault (λ x. x) result cursor.new (body_at form cursor.old) }
{
    match form {
        BodyForm::Keys => Ok(read_keys(cursor)?),
        BodyForm::Submit { length } => {
            let ciphertext = item(alloc, cursor, ItemForm::Entry { length })?;
            Ok(Body::Submit { ciphertext })
        }
        BodyForm::Shuffled { count, length } => {
            let list = items(alloc, cursor, ItemForm::Entry { length }, count)?;
            Ok(Body::Shuffled { list })
        }
        BodyForm::Abort => Ok(Body::Abort),
        BodyForm::Go => Ok(Body::Go { yes: flag(cursor)? }),
        BodyForm::Reveal { votes } => read_reveal(alloc, cursor, votes),
        BodyForm::Dispute { posts } => read_dispute(alloc, cursor, posts),
        BodyForm::Pads { count } => {
            let pads = items(alloc, cursor, ItemForm::Pad, count)?;
            Ok(Body::Pads { pads })
        }
        BodyForm::Check => Ok(Body::Check { yes: flag(cursor)? }),
        BodyForm::Confirm { votes } => {
            let votes = items(alloc, cursor, ItemForm::Post, votes)?;
            Ok(Body::Confirm { votes })
        }
        BodyForm::Differ { posts } => {
            let posts = items(alloc, cursor, ItemForm::Post, posts)?;
            Ok(Body::Differ { posts })
        }
    }
}

#[tactic(auto, unfolding(crate::specs::Offence::body_at, wire_core::specs::Reading::repeated))]
pub(crate) fn read_keys(cursor: &mut Cursor) -> Result<Body, Offence>
    ensures { Reads (λ x. x) result cursor.new (body_at BodyForm.Keys cursor.old) }
{
    let inner_a = key(cursor)?;
    let outer_a = key(cursor)?;
    let bulk = key(cursor)?;
    let inner_b = key(cursor)?;
    let outer_b = key(cursor)?;
    Ok(Body::Keys {
        keys: [inner_a, outer_a, bulk, inner_b, outer_b],
    })
}

#[tactic(auto, unfolding(crate::specs::Offence::body_at))]
fn read_reveal(alloc: Global, cursor: &mut Cursor, count: u32) -> Result<Body, DecodeRefusal>
    ensures { ReadsOr fault (λ x. x) result cursor.new (body_at (BodyForm.Reveal count) cursor.old) }
{
    let votes = items(alloc, cursor, ItemForm::Post, count)?;
    let seed = hash(cursor)?;
    Ok(Body::Reveal { votes, seed })
}

#[tactic(auto, unfolding(crate::specs::Offence::body_at))]
fn read_dispute(alloc: Global, cursor: &mut Cursor, count: u32) -> Result<Body, DecodeRefusal>
    ensures { ReadsOr fault (λ x. x) result cursor.new (body_at (BodyForm.Dispute count) cursor.old) }
{
    let posts = items(alloc, cursor, ItemForm::Post, count)?;
    let outer_seed = hash(cursor)?;
    let outer_opening = hash(cursor)?;
    Ok(Body::Dispute {
        posts,
        outer_seed,
        outer_opening,
    })
}
