//! Bytes and hashes, on which every other crate stands: a cursor that reads numbers and bytes,
//! calls that append them, the register that hashes a tag with its pieces, and a list that
//! contracts see as the list.
#![tactic(auto)]

mod cursor;
mod laws;
mod list;
mod places;
mod put;
mod register;
mod tag;

pub use cursor::{Cursor, Short};
pub use laws::{
    collide_or_same, hash_bytes, hashed_determines, layer_seed_determines, no_collision_part,
    reads_nothing_else, reads_what_is_put, same_hash,
};
pub use list::List;
pub use places::{copy_part, first_unlike, long_at, word_at};
pub use put::{Mem, put_bytes, put_u8, put_u16, put_u32, put_u64};
pub use register::Register;
pub use tag::Tag;
