//! Where two logs differ.

ghost use Rattle.std.specs.Prelude.{◌≡◌, ◌+◌, MatchOption};
ghost use Rattle.std.specs.Option.{option_copied};
ghost use Rattle.go_nogo.specs.Differences.{HaveNoDifference, IsFirstDifference, are_different, difference_at, difference_of};

use phase_message::{Post, Slot};
use stage_log::StageLog;

/// The first slot, by stage and then by sender, that both logs keep with different contents, whatever the signatures
/// are: `None` exactly where there is none. It takes no memory.
pub fn compare_logs(a: &StageLog, b: &StageLog) -> Option<Slot>
    ensures value { result ≡ difference_of a.now b.now }
    ensures first { MatchOption result (HaveNoDifference a.now b.now) (λ slot. IsFirstDifference a.now b.now slot) }
{
    let shape = a.shape();
    for stage in 0..2 * shape.members + 10 {
        if let Some(slot) = compare_stage(a, b, stage) {
            return Some(slot);
        }
    }
    None
}

// The first slot of a stage, by sender, that both logs keep with different contents.
fn compare_stage(a: &StageLog, b: &StageLog, stage: u8) -> Option<Slot>
    ensures { result ≡ difference_at a.now b.now stage }
{
    let shape = a.shape();
    for place in 0..shape.members {
        let slot = Slot {
            stage,
            sender: place + 1,
        };
        let post = a.kept(slot);
        let other = b.kept(slot);
        if are_different(post, other) {
            return Some(slot);
        }
    }
    None
}

// Whether there are two posts, and their contents differ.
fn are_different(a: Option<&Post>, b: Option<&Post>) -> bool
    ensures { result ≡ are_different (option_copied a.entry) (option_copied b.entry) }
{
    match (a, b) {
        (Some(a), Some(b)) => a.content.items().as_slice() != b.content.items().as_slice(),
        _ => false,
    }
}
