//! How a round stands for a member.

use transcript_form::Claim;

/// How a round stands for a member.
#[derive(Clone, Copy, Debug, PartialEq, Eq)]
pub enum State {
    /// It waits at this stage, the first that is not complete; bit i - 1 is set exactly for each member i that speaks there
    /// and whose post is missing.
    Waiting { stage: u8, missing: u32 },
    /// The round is done.
    Done,
    /// It holds a transcript that convicts this member.
    Blamed { accused: u8, claim: Claim },
    /// A call ran out of memory, and so does each later one.
    Stopped,
}
