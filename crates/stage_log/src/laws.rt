//! Laws of logs and views. Nobody calls these functions: the contract of each states a law.

ghost use Rattle.std.specs.Prelude.{◌≡◌, ◌↔◌, ◌⊎◌, ◌<◌, ◌≤◌, ℕ, List, Some, take, IsSome, IsTrue, Contains};
ghost use Rattle.wire_core.specs.Hash.{ArePieces, NoCollision};
ghost use Rattle.phase_message.specs.declared.post.Post.{Post};
ghost use Rattle.phase_message.specs.declared.stage.Slot.{Slot};
ghost use Rattle.phase_message.specs.Shape.{Shape};
ghost use Rattle.phase_message.specs.Slots.{slots_before};
ghost use Rattle.phase_message.specs.Stages.{is_slot};
ghost use Rattle.stage_log.specs.Table.{Log, is_complete};
ghost use Rattle.stage_log.specs.Put.{put_log};
ghost use Rattle.stage_log.specs.Log.{before, first_wrong, view_of};
ghost use Rattle.stage_log.specs.Views.{SomeCollide, view_strings};

/// The posts before a stage are there exactly where each stage before it is complete, those before an earlier stage
/// are their front, and a post that is put into the log changes none of them.
pub fn pasts_are_fronts()
    ensures complete { (log : Log) (stage : ℕ) →
        IsSome (before log stage) ↔ ((earlier : ℕ) → earlier < stage → IsTrue (is_complete log earlier)) }
    ensures front { (log : Log) (stage later : ℕ) (posts : List Post) → stage ≤ later →
        before log later ≡ Some posts → before log stage ≡ Some (take (slots_before log.shape stage) posts) }
    ensures put { (log : Log) (slot : Slot) (post : Post) (stage : ℕ) (posts : List Post) →
        IsTrue (is_slot log.shape slot.stage slot.sender) → before log stage ≡ Some posts → before (put_log log slot post) stage ≡ Some posts }
{}

/// The view at a stage and the first slot before it that is not right look at nothing that was said at the stage or later.
pub fn views_look_back()
    ensures view { (shape : Shape) (past : List (List ℕ)) (stage later : ℕ) → stage ≤ later →
        view_of shape (take (slots_before shape later) past) stage ≡ view_of shape past stage }
    ensures wrong { (shape : Shape) (past : List (List ℕ)) (stage later : ℕ) → stage ≤ later →
        first_wrong shape (take (slots_before shape later) past) stage ≡ first_wrong shape past stage }
{}

/// Equal contents before a stage give equal views at it, and the same first slot that is not right.
pub fn equal_contents()
    ensures views { (shape : Shape) (past other : List (List ℕ)) (stage : ℕ) →
        take (slots_before shape stage) past ≡ take (slots_before shape stage) other →
        view_of shape past stage ≡ view_of shape other stage }
    ensures wrong { (shape : Shape) (past other : List (List ℕ)) (stage : ℕ) →
        take (slots_before shape stage) past ≡ take (slots_before shape stage) other →
        first_wrong shape past stage ≡ first_wrong shape other stage }
{}

/// Equal views at a stage mean equal contents before it, or two different strings of which the views are hashes have
/// one SHA-256.
pub fn equal_views()
    ensures either { (shape : Shape) (past other : List (List ℕ)) (stage : ℕ) → ArePieces past → ArePieces other →
        view_of shape past stage ≡ view_of shape other stage →
        (take (slots_before shape stage) past ≡ take (slots_before shape stage) other)
        ⊎ SomeCollide (view_strings shape past stage) (view_strings shape other stage) }
    ensures equal { (shape : Shape) (past other strings : List (List ℕ)) (stage : ℕ) → ArePieces past → ArePieces other →
        ((s : List ℕ) → Contains (view_strings shape past stage) s → Contains strings s) →
        ((s : List ℕ) → Contains (view_strings shape other stage) s → Contains strings s) →
        NoCollision strings → view_of shape past stage ≡ view_of shape other stage →
        take (slots_before shape stage) past ≡ take (slots_before shape stage) other }
{}
