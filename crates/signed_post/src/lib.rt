//! Posts: their frame, and the checks that stand before a look at the body.
#![tactic(auto)]

mod laws;
mod post;

pub use group_roster::Roster;
pub use laws::{
    admitted_posts_are_short, own_posts_are_admitted, posts_are_admitted, posts_are_framed,
};
pub use lms_tree::LmsRefusal;
pub use phase_message::{Content, Header, LEAST_CONTENT, POST_LIMIT, Post};
pub use post::{
    LONGEST_SIGNATURE, Parts, PostRefusal, ReadRefusal, check, check_header, check_parts, read,
    unframed, write,
};
