//! The messages of a round: the stages and who speaks in each, what a member may say in each, the
//! reading of a content from its bytes, and a content with its signature.
#![tactic(auto)]

mod content;
mod encoding;
mod field;
mod form;
mod header;
mod laws;
mod look;
mod offence;
mod post;
mod shape;
mod slots;
mod stage;

pub use content::{Body, Content, DecodeRefusal, decode};
pub use encoding::encode;
pub use form::length_rule;
pub use header::{Header, read_header};
pub use laws::{
    bodies_are_of_kinds, closings_are_read, closings_follow_votes, contents_are_spelled,
    contents_have_lengths, headers_agree, headers_are_spelled, slot_numbers_rise,
    slots_are_numbered, slots_are_of_members, spelled_contents_are_read, stages_are_counted,
};
pub use look::first_offence;
pub use offence::Offence;
pub use post::{LEAST_CONTENT, POST_LIMIT, Post};
pub use shape::Shape;
pub use slots::{slot_number, slots_before};
pub use stage::{Slot, StageKind, is_slot, stage_kind};
pub use wire_core::List;
