//! The rows where votes are closed.

ghost use Rattle.std.specs.Prelude.{◌≡◌, ◌≤◌, ◌+◌, ◌-◌, IfOk, IsSome, Some};
ghost use Rattle.std.specs.Option.{option_map};
ghost use Rattle.phase_message.specs.Closing.{ClosesVotes};
ghost use Rattle.phase_message.specs.Post.{post_spelling};
ghost use Rattle.stage_log.specs.Log.{before};
ghost use Rattle.stage_log.specs.Table.{IsLog, kept_in};
ghost use Rattle.go_nogo.specs.Rows.{confirm_row, final_row, posts_at, written};
ghost use Rattle.go_nogo.specs.Stands.{StandAt};
ghost use Rattle.round_spec.specs.Slots.{final_stage};
ghost use Rattle.honest_say.specs.Closings.{embedded_in};
ghost use Rattle.honest_say.specs.Pasts.{posts_before};

use crate::said::final_stage;
use crate::secrets::ShuffleSecrets;
use go_nogo::{unanimous, votes_of};
use phase_message::{Body, Slot};
use signed_post::write;
use stage_log::StageLog;
use std::alloc::Global;
use wire_core::{List, Mem};

// Posts that a closing content embeds, as they were sent.
#[derive(Drop)]
enum Embedded {
    // The votes, which are unanimous.
    Votes(List<List<u8>>),
    // All posts before the stage, since the votes are not.
    All(List<List<u8>>),
}

/// What ends a shuffle: the votes and the inner seed where the votes are unanimous, else all posts before, the outer seed
/// and the outer opening. The other of the two seeds is destroyed, and both are where memory runs out. All stages before
/// are complete in the log, and its votes are of the grammar and stand in their slots.
pub fn final_body(alloc: Global, log: &StageLog, secrets: ShuffleSecrets, shuffle: u8) -> Mem<Body>
    requires first { 1 ≤ shuffle }
    requires last { shuffle ≤ 2 }
    requires complete { IsSome (before log.now (final_stage log.now.shape shuffle)) }
    requires stand { StandAt log.now (final_stage log.now.shape shuffle - 1) }
    ensures { IfOk result (λ body. body ≡ final_row log.now.shape (posts_before log.now (final_stage log.now.shape shuffle))
        (final_stage log.now.shape shuffle) secrets.inner secrets.outer secrets.outer_opening) }
{
    let stage = final_stage(log.shape(), shuffle);
    match embedded_posts(alloc, log, stage) {
        Ok(Embedded::Votes(votes)) => Ok(revealed(votes, secrets)),
        Ok(Embedded::All(posts)) => Ok(disputed(posts, secrets)),
        Err(error) => {
            secrets.destroy();
            Err(error)
        }
    }
}

// Unanimous votes, with the inner seed.
fn revealed(votes: List<List<u8>>, secrets: ShuffleSecrets) -> Body
    ensures { result ≡ Body.Reveal votes secrets.inner }
{
    let ShuffleSecrets {
        inner,
        outer,
        order_seed: _,
        inner_opening: _,
        outer_opening: _,
    } = secrets;
    outer.destroy();
    let seed = inner.reveal();
    Body::Reveal { votes, seed }
}

// All posts, with the outer seed and the outer opening.
fn disputed(posts: List<List<u8>>, secrets: ShuffleSecrets) -> Body
    ensures { result ≡ Body.Dispute posts secrets.outer secrets.outer_opening }
{
    let ShuffleSecrets {
        inner,
        outer,
        order_seed: _,
        inner_opening: _,
        outer_opening,
    } = secrets;
    inner.destroy();
    let outer_seed = outer.reveal();
    Body::Dispute {
        posts,
        outer_seed,
        outer_opening,
    }
}

/// What closes the votes on what was seen: these where they are unanimous, else all posts before. All stages before are
/// complete in the log, and its votes are of the grammar and stand in their slots.
pub fn confirm_body(alloc: Global, log: &StageLog) -> Mem<Body>
    requires complete { IsSome (before log.now (log.now.shape.members + 6)) }
    requires stand { StandAt log.now (log.now.shape.members + 5) }
    ensures { IfOk result (λ body. body ≡ confirm_row log.now.shape (posts_before log.now (log.now.shape.members + 6)) (log.now.shape.members + 6)) }
{
    let stage = log.shape().members + 6;
    match embedded_posts(alloc, log, stage)? {
        Embedded::Votes(votes) => Ok(Body::Confirm { votes }),
        Embedded::All(posts) => Ok(Body::Differ { posts }),
    }
}

// The posts that a content of a closing stage embeds.
fn embedded_posts(alloc: Global, log: &StageLog, stage: u8) -> Mem<Embedded>
    requires closing { ClosesVotes log.now.shape stage }
    requires complete { IsSome (before log.now stage) }
    requires stand { StandAt log.now (stage - 1) }
    requires form { IsLog log.now }
    ensures { IfOk result (λ embedded. embedded ≡ embedded_in log.now.shape (posts_before log.now stage) stage) }
{
    let votes = votes_of(alloc, log, stage - 1)?;
    if unanimous(&votes) {
        let votes = votes_written(alloc, log, stage)?;
        Ok(Embedded::Votes(votes))
    } else {
        let posts = all_written(alloc, log, stage)?;
        Ok(Embedded::All(posts))
    }
}

// The votes before a closing stage, as they were sent.
fn votes_written(alloc: Global, log: &StageLog, stage: u8) -> Mem<List<List<u8>>>
    requires closing { ClosesVotes log.now.shape stage }
    requires complete { IsSome (before log.now stage) }
    ensures { IfOk result (λ votes. votes ≡ written (posts_at log.now.shape (posts_before log.now stage) (stage - 1))) }
{
    let shape = log.shape();
    let mut votes = Vec::with_capacity(alloc, usize::from(shape.members))?;
    for place in 0..shape.members {
        let slot = Slot {
            stage: stage - 1,
            sender: place + 1,
        };
        let post = post_written(alloc, log, slot)?;
        votes.push(post)?;
    }
    Ok(List::of(votes))
}

// The post that a log keeps in a slot, as it was sent.
fn post_written(alloc: Global, log: &StageLog, slot: Slot) -> Mem<List<u8>>
    requires { IsSome (kept_in log.now slot) }
    ensures { IfOk result (λ bytes. option_map post_spelling (kept_in log.now slot) ≡ Some bytes) }
{
    let Some(post) = log.kept(slot) else {
        unreachable!()
    };
    let bytes = write(alloc, post)?;
    Ok(List::of(bytes))
}

// All posts before a stage, as they were sent.
fn all_written(alloc: Global, log: &StageLog, stage: u8) -> Mem<List<List<u8>>>
    requires complete { IsSome (before log.now stage) }
    requires form { IsLog log.now }
    ensures { IfOk result (λ posts. posts ≡ written (posts_before log.now stage)) }
{
    let posts = log.posts_before(alloc, stage)?;
    let mut all = Vec::with_capacity(alloc, posts.len())?;
    for post in &posts {
        let bytes = write(alloc, post)?;
        all.push(List::of(bytes))?;
    }
    Ok(List::of(all))
}
