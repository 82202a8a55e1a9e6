//! Laws of closing contents. Nobody calls these functions: the contract of each states a law.

ghost use Rattle.std.specs.Prelude.{◌≡◌, ◌↔◌, ◌<◌, ◌+◌, ℕ, List, Ok, length, false, Contains, IsTrue};
ghost use Rattle.wire_core.specs.Bytes.{IsBytes};
ghost use Rattle.phase_message.specs.declared.content.Content.{Content};
ghost use Rattle.phase_message.specs.declared.header.Header.{Header};
ghost use Rattle.phase_message.specs.declared.post.Post.{Post};
ghost use Rattle.phase_message.specs.declared.stage.Slot.{Slot};
ghost use Rattle.phase_message.specs.Offence.{content_read};
ghost use Rattle.phase_message.specs.Shape.{Shape};
ghost use Rattle.phase_message.specs.Slots.{slots_before};
ghost use Rattle.phase_message.specs.Stages.{is_slot};
ghost use Rattle.stage_log.specs.Log.{contents_of, view_of};
ghost use Rattle.stage_log.specs.Put.{put_log};
ghost use Rattle.stage_log.specs.Table.{Log, empty_log};
ghost use Rattle.go_nogo.specs.Closing.{IsClosing, embedded_of, is_assent, is_justified, posts_embedded, slots_embedded};
ghost use Rattle.go_nogo.specs.Rows.{confirm_content, confirm_row, final_content, final_row, written};
ghost use Rattle.go_nogo.specs.Stands.{StandAt, StandsIn, slot_of};
ghost use Rattle.go_nogo.specs.Votes.{votes_agree};

/// A Reveal and a Confirm embed the slots of the votes before them. A Dispute and a Differ embed all slots before
/// them, those of the votes included.
pub fn embedded_slots()
    ensures votes { (shape : Shape) (content : Content) (slot : Slot) → IsClosing shape content → IsTrue (is_assent content.body) →
        Contains (slots_embedded shape content) slot
        ↔ (IsTrue (is_slot shape slot.stage slot.sender) × (slot.stage + 1 ≡ content.header.stage)) }
    ensures all { (shape : Shape) (content : Content) (slot : Slot) → is_assent content.body ≡ false →
        Contains (slots_embedded shape content) slot
        ↔ (IsTrue (is_slot shape slot.stage slot.sender) × (slot.stage < content.header.stage)) }
{}

/// The votes of a past decide the kind of all justified closing contents that embed posts of it: these are all
/// Reveals or Confirms where the votes are unanimous, and else all Disputes or Differs.
pub fn one_kind()
    ensures { (shape : Shape) (past : List (List ℕ)) (content : Content) → IsClosing shape content →
        IsTrue (is_justified shape content (embedded_of shape content past)) →
        is_assent content.body ≡ votes_agree shape past content.header.stage }
{}

/// What an honest member says at a closing stage is justified by the past that it embeds, if its header carries the
/// view of it; and it embeds the posts of just those slots that are its own to embed.
pub fn own_closing_justified()
    ensures at_final { (shape : Shape) (posts : List Post) (header : Header) (inner_seed outer_seed outer_opening : List ℕ) →
        IsClosing shape (final_content shape posts header inner_seed outer_seed outer_opening) →
        header.view ≡ view_of shape (contents_of posts) header.stage →
        IsTrue (is_justified shape (final_content shape posts header inner_seed outer_seed outer_opening)
        (embedded_of shape (final_content shape posts header inner_seed outer_seed outer_opening) (contents_of posts))) }
    ensures at_confirm { (shape : Shape) (posts : List Post) (header : Header) →
        IsClosing shape (confirm_content shape posts header) →
        header.view ≡ view_of shape (contents_of posts) header.stage →
        IsTrue (is_justified shape (confirm_content shape posts header)
        (embedded_of shape (confirm_content shape posts header) (contents_of posts))) }
    ensures final_posts { (shape : Shape) (posts : List Post) (header : Header) (inner_seed outer_seed outer_opening : List ℕ) →
        length posts ≡ slots_before shape header.stage →
        posts_embedded (final_row shape posts header.stage inner_seed outer_seed outer_opening)
        ≡ written (embedded_of shape (final_content shape posts header inner_seed outer_seed outer_opening) posts) }
    ensures confirm_posts { (shape : Shape) (posts : List Post) (header : Header) →
        length posts ≡ slots_before shape header.stage →
        posts_embedded (confirm_row shape posts header.stage)
        ≡ written (embedded_of shape (confirm_content shape posts header) posts) }
{}

/// What is read stands in the slot of its header. A log that holds nothing holds only what stands in its slots, and
/// goes on to do so where such a content is put, or one of another stage.
pub fn standing_is_kept()
    ensures read { (shape : Shape) (bytes : List ℕ) (content : Content) → IsBytes bytes →
        content_read shape bytes ≡ Ok content → StandsIn shape (slot_of content) bytes }
    ensures empty { (shape : Shape) (stage : ℕ) → StandAt (empty_log shape) stage }
    ensures put { (log : Log) (slot : Slot) (post : Post) (stage : ℕ) → IsTrue (is_slot log.shape slot.stage slot.sender) →
        StandAt log stage → (slot.stage ≡ stage → StandsIn log.shape slot post.content) →
        StandAt (put_log log slot post) stage }
{}
