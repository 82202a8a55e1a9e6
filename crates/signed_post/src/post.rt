//! Posts: reading them, and the checks that stand before a look at the body.

ghost use Rattle.std.specs.Prelude.{◌≡◌, ◌⊎◌, ◌≤◌, ◌<◌, ◌^◌, ◌+◌, length, Some, Ok, Err, IfOk, IfErr, IsOk};
ghost use Rattle.wire_core.specs.Answers.{Gives};
ghost use Rattle.group_roster.specs.Given.{roster_of};
ghost use Rattle.phase_message.specs.declared.post.Post.{Post as Spoken};
ghost use Rattle.phase_message.specs.Post.{post_spelling};
ghost use Rattle.signed_post.specs.Frame.{FitsFrame, frame_of, fault_of_refusal};
ghost use Rattle.signed_post.specs.Admission.{admission_of, framed_admission_of, check_of, refusal_number, refusal_place};

use group_roster::Roster;
use lms_tree::{LmsRefusal, verify};
use phase_message::{
    Content, DecodeRefusal, Header, LEAST_CONTENT, POST_LIMIT, Post, Slot, decode, is_slot,
    read_header,
};
use std::alloc::Global;
use wire_core::{List, Mem, put_bytes, put_u32, word_at};

/// The most bytes of a signature: an LMS signature of a tree of height 25 with LM-OTS of width 1.
pub const LONGEST_SIGNATURE: usize = 9_324;

/// Why bytes are no post.
#[derive(Clone, Copy, Debug, PartialEq, Eq)]
pub enum ReadRefusal {
    /// At 0 where there are more than 16,777,216 bytes or the content's length is below 76; at the
    /// number of bytes where they end within the length or the content.
    Frame { at: u32 },
    Memory,
}

/// Why a post is refused: the first check that fails, from `Frame` to `Body`.
#[derive(Clone, Copy, Debug, PartialEq, Eq)]
pub enum PostRefusal {
    /// The post is framed wrongly: see `ReadRefusal`. At 0 where a `Post` that came from no bytes has
    /// a content of fewer than 76 bytes, or more bytes than a post may have.
    Frame { at: u32 },
    /// The version is not 1.
    Version { found: u8 },
    /// The group's id is not the hash of the roster.
    Group { found: [u8; 32] },
    /// The round is another.
    Round { found: u64 },
    /// The sender is none of the members 1 to N.
    Sender { found: u8 },
    /// The group has no such stage, or the sender does not speak in it.
    Stage { found: u8 },
    /// The signature of the content is not the sender's.
    Signature(LmsRefusal),
    /// The body is outside the grammar: the first rule that the content breaks, and the offset in the content, as
    /// `phase_message::DecodeRefusal` has them.
    Body { at: u32, rule: u32 },
    /// Wanted for the content, once all checks are passed.
    Memory,
}

impl PostRefusal {
    /// The number of the check that fails, from 1 to 8.
    pub fn number(&self) -> u32
        ensures { result ≡ refusal_number self.now }
    {
        match self {
            PostRefusal::Frame { .. } => 1,
            PostRefusal::Version { .. } => 2,
            PostRefusal::Group { .. } => 3,
            PostRefusal::Round { .. } => 4,
            PostRefusal::Sender { .. } => 5,
            PostRefusal::Stage { .. } => 6,
            PostRefusal::Signature(_) => 7,
            PostRefusal::Body { .. } => 8,
            PostRefusal::Memory => 9,
        }
    }

    /// The place of a frame's or a body's fault, and else 0.
    pub fn place(&self) -> u32
        ensures { result ≡ refusal_place self.now }
    {
        match self {
            PostRefusal::Frame { at } | PostRefusal::Body { at, .. } => *at,
            _ => 0,
        }
    }
}

/// A content and a signature where they lie.
#[derive(Clone, Copy)]
pub struct Parts<'a> {
    pub content: &'a [u8],
    pub signature: &'a [u8],
}

/// The post that bytes spell: the content's length in four bytes, the content, and the signature to
/// the end. `Frame` names the first fault.
pub fn read(alloc: Global, bytes: &[u8]) -> Result<Post, ReadRefusal>
    // What is read can be sent, and is spelled so.
    ensures found { IfOk result (λ post. FitsFrame post × (bytes.now ≡ post_spelling post)) }
    // What can be sent and is spelled so is read, unless memory runs out.
    ensures only { (post : Spoken) → FitsFrame post → bytes.now ≡ post_spelling post →
        Gives fault_of_refusal (λ post. post) result (Ok post) }
    // Which fault it is.
    ensures exact { Gives fault_of_refusal (λ post. post) result (frame_of bytes.now) }
    // Memory runs out only where there is none.
    ensures memory { result ≡ Err ReadRefusal.Memory → IsOk (frame_of bytes.now) }
{
    read_post(alloc, bytes)
}

fn read_post(alloc: Global, bytes: &[u8]) -> Result<Post, ReadRefusal>
    ensures exact { Gives fault_of_refusal (λ post. post) result (frame_of bytes.now) }
    ensures memory { result ≡ Err ReadRefusal.Memory → IsOk (frame_of bytes.now) }
{
    let parts = match unframed(bytes) {
        Ok(parts) => parts,
        Err(at) => return Err(ReadRefusal::Frame { at }),
    };
    let Ok(content) = Vec::from_slice(alloc, parts.content) else {
        return Err(ReadRefusal::Memory);
    };
    let Ok(signature) = Vec::from_slice(alloc, parts.signature) else {
        return Err(ReadRefusal::Memory);
    };
    Ok(Post {
        content: List::of(content),
        signature: List::of(signature),
    })
}

/// The bytes of a post: the content's length in four bytes, the content, and the signature to the end.
pub fn write(alloc: Global, post: &Post) -> Mem<Vec<u8>>
    requires { length post.now.content < 2 ^ 32 }
    ensures text { IfOk result (λ bytes. bytes.items ≡ post_spelling post.now) }
    // Of a post that can be sent, they are read back.
    ensures read_back { IfOk result (λ bytes. FitsFrame post.now → frame_of bytes.items ≡ Ok post.now) }
{
    written(alloc, post)
}

fn written(alloc: Global, post: &Post) -> Mem<Vec<u8>>
    requires { length post.now.content < 2 ^ 32 }
    ensures { IfOk result (λ bytes. bytes.items ≡ post_spelling post.now) }
{
    let mut bytes = Vec::new(alloc);
    put_u32(&mut bytes, post.content.items().len() as u32)?;
    put_bytes(&mut bytes, post.content.items())?;
    put_bytes(&mut bytes, post.signature.items())?;
    Ok(bytes)
}

/// The content and the signature of a post where they lie, or the place of the first fault.
#[tactic(auto, unfolding(crate::specs::Frame::frame_of))]
pub fn unframed(bytes: &[u8]) -> Result<Parts<'_>, u32>
    ensures { Gives (λ e. Some e) (λ p. record { content = p.content.now; signature = p.signature.now }) result (frame_of bytes.now) }
{
    if bytes.len() > POST_LIMIT {
        return Err(0);
    }
    let size = bytes.len() as u32;
    if size < 4 {
        return Err(size);
    }
    let length = word_at(bytes, 0) as usize;
    let rest = &bytes[4..];
    if length < LEAST_CONTENT {
        return Err(0);
    }
    if rest.len() < length {
        return Err(size);
    }
    let (content, signature) = rest.split_at(length);
    Ok(Parts { content, signature })
}

/// The header of a post that passes the seven checks before its body, and else the first of them that
/// refuses it. It takes no memory.
pub fn check_header(roster: &Roster, round: u64, post: &Post) -> Result<Header, PostRefusal>
    ensures { result ≡ admission_of (roster_of roster.now) round post.now }
{
    let content = post.content.items().as_slice();
    let signature = post.signature.items().as_slice();
    if content.len() < LEAST_CONTENT
        || content.len() > POST_LIMIT
        || signature.len() > POST_LIMIT
        || 4 + content.len() + signature.len() > POST_LIMIT
    {
        return Err(PostRefusal::Frame { at: 0 });
    }
    check_parts(roster, round, Parts { content, signature })
}

/// The content of a post that passes the eight checks, and else the first of them that refuses it: the seven of
/// `check_header`, and then `Body`. Out of memory comes only where all eight pass.
#[tactic(auto, unfolding(crate::specs::Admission::check_of))]
pub fn check(
    alloc: Global,
    roster: &Roster,
    round: u64,
    post: &Post,
) -> Result<Content, PostRefusal>
    ensures { (result ≡ check_of (roster_of roster.now) round post.now)
        ⊎ ((result ≡ Err PostRefusal.Memory)
        × IsOk (check_of (roster_of roster.now) round post.now)) }
{
    let _header = check_header(roster, round, post)?;
    match decode(alloc, roster.shape(), post.content.items()) {
        Ok(content) => Ok(content),
        Err(DecodeRefusal::Malformed { at, rule }) => Err(PostRefusal::Body { at, rule }),
        Err(DecodeRefusal::Memory) => Err(PostRefusal::Memory),
    }
}

/// The same for parts that are framed already.
#[tactic(auto, unfolding(crate::specs::Admission::framed_admission_of))]
pub fn check_parts(roster: &Roster, round: u64, parts: Parts<'_>) -> Result<Header, PostRefusal>
    requires least { LEAST_CONTENT ≤ length parts.content.now }
    requires most { length parts.content.now < 2 ^ 32 }
    requires signature { length parts.signature.now < 2 ^ 32 }
    ensures { result ≡ framed_admission_of (roster_of roster.now) round (record { content = parts.entry.content.now; signature = parts.entry.signature.now }) }
{
    let Ok(header) = read_header(parts.content) else {
        unreachable!()
    };
    let members = roster.members();
    if header.version != 1 {
        return Err(PostRefusal::Version {
            found: header.version,
        });
    }
    if header.group != roster.id() {
        return Err(PostRefusal::Group {
            found: header.group,
        });
    }
    if header.round != round {
        return Err(PostRefusal::Round {
            found: header.round,
        });
    }
    if header.sender < 1 || header.sender > members {
        return Err(PostRefusal::Sender {
            found: header.sender,
        });
    }
    let slot = Slot {
        stage: header.stage,
        sender: header.sender,
    };
    if !is_slot(roster.shape(), slot) {
        return Err(PostRefusal::Stage {
            found: header.stage,
        });
    }
    let key = roster.key(header.sender);
    match verify(&key, parts.content, parts.signature) {
        Ok(()) => Ok(header),
        Err(refusal) => Err(PostRefusal::Signature(refusal)),
    }
}
