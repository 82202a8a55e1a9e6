//! What a link tells of the calls that were made of it.

use wire_core::List;

/// A call that a link tells.
#[derive(Debug, Drop)]
pub enum LinkCall {
    /// `recv` was called, and took this frame, or none.
    Received(Option<List<u8>>),
    /// These bytes were posted.
    Posted(List<u8>),
}
