//! A content with its signature.

use wire_core::List;

/// The most bytes of a post as it is sent.
pub const POST_LIMIT: usize = 16_777_216;

/// The fewest bytes of a content: a header of 75 bytes and a kind.
pub const LEAST_CONTENT: usize = 76;

/// What a member sends: a content and its signature by the sender's key.
#[derive(Debug, Drop)]
pub struct Post {
    /// A header, a kind and a body: 76 bytes at least where the post was read.
    pub content: List<u8>,
    /// A signature by RFC 8554, section 5.4, if the sender was honest.
    pub signature: List<u8>,
}
