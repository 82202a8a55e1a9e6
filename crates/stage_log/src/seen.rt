//! What was seen of a log's stages, carried from stage to stage.

ghost use Rattle.std.specs.Prelude.{◌≡◌, ◌+◌, ℕ, List, length, Some, IsSome, is_none};
ghost use Rattle.wire_core.specs.Answers.{first_below};
ghost use Rattle.phase_message.specs.declared.post.Post.{Post as Kept};
ghost use Rattle.phase_message.specs.Shape.{Shape as Numbers};
ghost use Rattle.phase_message.specs.Stages.{shape_of};
ghost use Rattle.stage_log.specs.Log.{before, contents_of, first_wrong, unlike_at, view_of};
ghost use Rattle.stage_log.specs.Table.{AreKept};
ghost use Rattle.stage_log.specs.Seen.{HasSeen};

use crate::log::{StageLog, carry, first_unlike};
use crate::running::RunningView;
use phase_message::{Post, Shape};

/// The view of what was said before a stage, and whether every slot before it carries the view of its own stage. It goes
/// from stage to stage, hashes each content once, and takes no memory.
#[derive(Debug, Drop)]
pub struct Seen {
    running: RunningView,
    right: bool,
}

impl Seen {
    /// Before the first stage, of which nothing is seen yet.
    pub fn new(shape: Shape) -> Seen
        ensures { (past : List (List ℕ)) → HasSeen (shape_of shape) past 0 result }
    {
        Seen {
            running: RunningView::new(shape),
            right: true,
        }
    }

    /// Looks at the next stage of a log, in which it is complete, as all before it are.
    pub fn pass(&mut self, log: &StageLog, stage: u8)
        requires { IsSome (before log.now (stage + 1)) }
        ensures { (posts : List Kept) → before log.now (stage + 1) ≡ Some posts →
            HasSeen log.now.shape (contents_of posts) stage self.old →
            HasSeen log.now.shape (contents_of posts) (stage + 1) self.new }
    {
        let row = log.row(stage);
        self.right &= is_row_right(&self.running.view(), row);
        carry(&mut self.running, row);
    }

    /// The view of the stages that were seen.
    pub fn view(&self) -> [u8; 32]
        ensures { (shape : Numbers) (past : List (List ℕ)) (stage : ℕ) → HasSeen shape past stage self.now →
            result ≡ view_of shape past stage }
    {
        self.running.view()
    }

    /// Whether every slot of these stages carries the view of its own stage.
    pub fn all_right(&self) -> bool
        ensures { (shape : Numbers) (past : List (List ℕ)) (stage : ℕ) → HasSeen shape past stage self.now →
            result ≡ is_none (first_wrong shape past stage) }
    {
        self.right
    }
}

// Whether each place of a stage has a post that carries a view.
fn is_row_right(view: &[u8; 32], places: &[Option<Post>]) -> bool
    requires { AreKept places.now }
    ensures { result ≡ is_none (first_below (length places.now) (unlike_at view.now places.now)) }
{
    first_unlike(view, places).is_none()
}
