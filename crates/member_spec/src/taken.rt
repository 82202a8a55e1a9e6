//! How a member answers a delivery.

use signed_post::PostRefusal;

/// How a member answers a delivery: the first of these that holds, from the last to the first.
#[derive(Clone, Copy, Debug, PartialEq, Eq)]
pub enum Taken {
    /// The post is kept, and what completes with it was judged.
    Stored,
    /// The member has come to hold evidence.
    Evidence,
    /// Its slot holds a post of this content.
    Same,
    /// It is a post of the member itself.
    Own,
    /// This check refused it, one of the seven before the body.
    Ignored(PostRefusal),
    /// The round had ended before.
    Finished,
}
