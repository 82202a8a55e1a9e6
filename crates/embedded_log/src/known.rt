//! What another closing content embeds, of which the log was made before.

ghost use Rattle.std.specs.Prelude.{◌≡◌, IsTrue};
ghost use Rattle.embedded_log.specs.Embedding.{EmbedsSame};

use crate::embedding::{is_assent, posts_embedded};
use phase_message::Content;
use stage_log::StageLog;
use wire_core::List;

/// A closing content, and the log of the posts that it embeds.
#[derive(Drop)]
pub struct KnownLog {
    pub content: Content,
    pub log: StageLog,
}

// Whether two closing contents embed the same posts for the same slots.
pub(crate) fn embeds_same(known: &Content, content: &Content) -> bool
    ensures { IsTrue result → EmbedsSame known.now content.now }
{
    known.header.stage == content.header.stage
        && is_assent(&known.body) == is_assent(&content.body)
        && are_same(posts_embedded(&known.body), posts_embedded(&content.body))
}

// Whether two lists have the same byte strings.
fn are_same(a: &[List<u8>], b: &[List<u8>]) -> bool
    ensures { IsTrue result → a.now ≡ b.now }
{
    if a.len() != b.len() {
        return false;
    }
    for place in 0..a.len() {
        if a[place].items().as_slice() != b[place].items().as_slice() {
            return false;
        }
    }
    true
}
