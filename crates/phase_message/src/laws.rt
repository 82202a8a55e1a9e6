//! Laws of contents and of slots. Nobody calls these functions: the contract of each states a law.

ghost use Rattle.std.specs.Prelude.{◌≡◌, ◌↔◌, ◌⊎◌, ◌<◌, ◌≤◌, ◌+◌, ◌-◌, ◌*◌, ℕ, List, Some, None, Ok, length, IsTrue};
ghost use Rattle.wire_core.specs.Bytes.{IsBytes};
ghost use Rattle.phase_message.specs.declared.content.Body.TheVariants.{Abort};
ghost use Rattle.phase_message.specs.declared.content.Content.{Content};
ghost use Rattle.phase_message.specs.declared.header.Header.{Header};
ghost use Rattle.phase_message.specs.declared.stage.Slot.{Slot};
ghost use Rattle.phase_message.specs.declared.stage.StageKind.{StageKind};
ghost use Rattle.phase_message.specs.declared.stage.StageKind.TheVariants.{Pad, Shuffle};
ghost use Rattle.phase_message.specs.Body.{length_rule, level};
ghost use Rattle.phase_message.specs.Closing.{ClosingsAreRead};
ghost use Rattle.phase_message.specs.Kinds.{BodiesAreOfKinds};
ghost use Rattle.phase_message.specs.Shape.{Shape};
ghost use Rattle.phase_message.specs.Stages.{is_slot, kind_of_stage, vote_of};
ghost use Rattle.phase_message.specs.Slots.{slot_at, slot_count, slot_number, slots_before, slots_of, stage_count};
ghost use Rattle.phase_message.specs.Header.{header_of};
ghost use Rattle.phase_message.specs.Grammar.{BeginsWith, OfGrammar, content_text};
ghost use Rattle.phase_message.specs.Offence.{content_read};

/// What is read of bytes is of the grammar, and they are its one spelling.
pub fn contents_are_spelled()
    ensures { (shape : Shape) (bytes : List ℕ) (c : Content) → IsBytes bytes →
        content_read shape bytes ≡ Ok c → (bytes ≡ content_text c) × OfGrammar shape c }
{}

/// What is of the grammar is read from its spelling: no other bytes are malformed than those that
/// spell nothing.
pub fn spelled_contents_are_read()
    ensures { (shape : Shape) (c : Content) → OfGrammar shape c → content_read shape (content_text c) ≡ Ok c }
{}

/// The header of what is read is the one that `read_header` gives of the same bytes.
pub fn headers_agree()
    ensures { (shape : Shape) (bytes : List ℕ) (c : Content) → content_read shape bytes ≡ Ok c →
        header_of bytes ≡ Ok c.header }
{}

/// Bytes have a header exactly where they begin with its spelling, also outside the grammar.
pub fn headers_are_spelled()
    ensures { (bytes : List ℕ) (h : Header) → IsBytes bytes → (header_of bytes ≡ Ok h) ↔ BeginsWith h bytes }
{}

/// A round of N members has the stages from 0 to 2N + 9, and before its end stand all its slots.
pub fn stages_are_counted()
    ensures past { (shape : Shape) (stage : ℕ) → (kind_of_stage shape stage ≡ None) ↔ (stage_count shape ≤ stage) }
    ensures slots { (shape : Shape) (stage : ℕ) → stage_count shape ≤ stage → slots_before shape stage ≡ slot_count shape }
{}

/// A slot's stage is one of the round's, and its sender a member.
pub fn slots_are_of_members()
    ensures { (shape : Shape) (stage sender : ℕ) → IsTrue (is_slot shape stage sender) →
        (stage < stage_count shape) × (1 ≤ sender) × (sender ≤ shape.members) }
{}

/// The list of a round's slots has 12 slots for each member. Each slot stands at its number, and what stands
/// at a number is a slot of this number.
pub fn slots_are_numbered()
    ensures count { (shape : Shape) → length (slots_of shape) ≡ slot_count shape }
    ensures stands { (shape : Shape) (stage sender : ℕ) → IsTrue (is_slot shape stage sender) →
        slot_at shape (slot_number shape stage sender) ≡ Some (record { stage = stage; sender = sender }) }
    ensures found { (shape : Shape) (number : ℕ) (slot : Slot) → slot_at shape number ≡ Some slot →
        IsTrue (is_slot shape slot.stage slot.sender) × (slot_number shape slot.stage slot.sender ≡ number) }
{}

/// Numbers of slots rise with the stage, and within a stage with the sender. Those of a stage are the
/// numbers from the slots before it to those before the next.
pub fn slot_numbers_rise()
    ensures stages { (shape : Shape) (stage later sender other : ℕ) →
        IsTrue (is_slot shape stage sender) → IsTrue (is_slot shape later other) → stage < later →
        slot_number shape stage sender < slot_number shape later other }
    ensures senders { (shape : Shape) (stage sender other : ℕ) →
        IsTrue (is_slot shape stage sender) → IsTrue (is_slot shape stage other) → sender < other →
        slot_number shape stage sender < slot_number shape stage other }
    ensures within { (shape : Shape) (stage sender : ℕ) → IsTrue (is_slot shape stage sender) →
        (slots_before shape stage ≤ slot_number shape stage sender)
        × (slot_number shape stage sender < slots_before shape (stage + 1)) }
{}

/// The stage before a closing stage has the votes that it closes.
pub fn closings_follow_votes()
    ensures { (shape : Shape) (stage : ℕ) (kind vote : StageKind) →
        kind_of_stage shape stage ≡ Some kind → vote_of kind ≡ Some vote →
        (1 ≤ stage) × (kind_of_stage shape (stage - 1) ≡ Some vote) }
{}

/// How many bytes a content has: 76 and those of its body. A body of keys, a submission and a vote have one
/// length each, a turn of a shuffle all its entries or none, and the pads of N members at most 65,540 N bytes.
pub fn contents_have_lengths()
    ensures fixed { (shape : Shape) (c : Content) (kind : StageKind) → OfGrammar shape c →
        kind_of_stage shape c.header.stage ≡ Some kind → 0 < length_rule shape kind →
        length (content_text c) ≡ 76 + length_rule shape kind }
    ensures turn { (shape : Shape) (c : Content) (shuffle k : ℕ) → OfGrammar shape c →
        kind_of_stage shape c.header.stage ≡ Some (Shuffle shuffle k) →
        ((c.body ≡ Abort) × (length (content_text c) ≡ 76))
        ⊎ (length (content_text c) ≡ 76 + shape.members * level shape.members shuffle k) }
    ensures pads { (shape : Shape) (c : Content) → OfGrammar shape c →
        kind_of_stage shape c.header.stage ≡ Some Pad →
        length (content_text c) ≤ 76 + shape.members * 65540 }
{}

/// What is read at a closing stage says that the votes are unanimous, and embeds a post of each member; or it objects,
/// and embeds a post of each slot before it.
pub fn closings_are_read()
    ensures { ClosingsAreRead }
{}

/// The bodies of the grammar at a stage are exactly those of its kind.
pub fn bodies_are_of_kinds()
    ensures { BodiesAreOfKinds }
{}
