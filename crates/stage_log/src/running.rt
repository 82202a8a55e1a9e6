//! A view that is carried from stage to stage.

ghost use Rattle.std.specs.Prelude.{◌≡◌, ◌<◌, ◌^◌, ◌++◌, ◌∷◌, [], ℕ, List, length};
ghost use Rattle.wire_core.specs.declared.tag.Tag.TheVariants.{View};
ghost use Rattle.wire_core.specs.Hash.{hash_of};
ghost use Rattle.stage_log.specs.Running.{Carries, CarriesOn};

use phase_message::Shape;
use std::mem;
use wire_core::{Register, Tag};

/// The view of the stages so far, and what was said since then: it goes from view to view with the contents in the
/// order of their slots, keeps none of them, and takes no memory.
#[derive(Debug, Drop)]
pub struct RunningView {
    view: [u8; 32],
    register: Register,
}

impl RunningView {
    /// The view before the first stage. The shape says how contents are hashed: in version 1 whole.
    pub fn new(_shape: Shape) -> RunningView
        ensures { Carries result (hash_of View []) [] }
    {
        RunningView::after(Register::new(Tag::View).end())
    }

    // A view behind which nothing was said yet.
    #[tactic(auto, unfolding(crate::specs::Running::Carries))]
    fn after(view: [u8; 32]) -> RunningView
        ensures { Carries result view [] }
    {
        let mut register = Register::new(Tag::View);
        register.piece(&view);
        RunningView { view, register }
    }

    /// Takes the next content, which has fewer than 2^32 bytes. Behind the last of a stage the view is the next one.
    pub fn content(&mut self, bytes: &[u8], last_of_stage: bool)
        requires { length bytes.now < 2 ^ 32 }
        ensures { (view : List ℕ) (said : List (List ℕ)) →
            Carries self.old view said → CarriesOn self.new view (said ++ bytes.now ∷ []) last_of_stage }
    {
        self.piece(bytes);
        if last_of_stage {
            self.end_stage();
        }
    }

    // Takes the next content of the stage.
    #[tactic(auto, unfolding(crate::specs::Running::Carries))]
    pub(crate) fn piece(&mut self, bytes: &[u8])
        requires { length bytes.now < 2 ^ 32 }
        ensures { (view : List ℕ) (said : List (List ℕ)) →
            Carries self.old view said → Carries self.new view (said ++ bytes.now ∷ []) }
    {
        self.register.piece(bytes);
    }

    // Ends the stage.
    #[tactic(auto, unfolding(crate::specs::Running::Carries))]
    pub(crate) fn end_stage(&mut self)
        ensures { (view : List ℕ) (said : List (List ℕ)) →
            Carries self.old view said → Carries self.new (hash_of View (view ∷ said)) [] }
    {
        let register = mem::replace(&mut self.register, Register::new(Tag::View));
        *self = RunningView::after(register.end());
    }

    /// The view of the stages that were ended.
    #[tactic(auto, unfolding(crate::specs::Running::Carries))]
    pub fn view(&self) -> [u8; 32]
        ensures { (view : List ℕ) (said : List (List ℕ)) → Carries self.now view said → result ≡ view }
    {
        self.view
    }
}
