//! The log of the posts that a closing content embeds, and whether it justifies the content.
#![tactic(auto)]

mod embedding;
mod known;

pub use embedding::{
    EmbeddedRefusal, embedded, first_embedded, justifying_log, justifying_log_after, posts_embedded,
};
pub use known::KnownLog;
