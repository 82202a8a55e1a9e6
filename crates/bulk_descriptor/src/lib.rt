//! Descriptors of messages, and the pads under which a message is sent by the whole group.
//!
//! A member that has a message makes a pad seed for each member and tells, in a descriptor, the length and
//! the hash of the message and, for each member, the hash of the pad of its seed and the seed, sealed under the
//! key of the member. Each member opens its seed and sends its pad; the maker sends the exclusive or of the
//! message and the pads of all others. So the exclusive or of all pads is the message.
#![tactic(auto)]

mod descriptor;
mod encoding;
mod laws;
mod making;
mod pads;
mod reading;
mod slot_state;

pub use descriptor::{Descriptor, HEAD_BYTES, MEMBER_BYTES};
pub use laws::{descriptor_laws, fitting_laws, pad_laws};
pub use making::{MESSAGE_LIMIT, Made, make};
pub use pads::sent_pad;
pub use reading::decode;
pub use ring_encrypt::{Capsule, KeySeed, PublicKey};
pub use slot_state::{PadTable, SlotState};
pub use wire_core::{List, Mem};
