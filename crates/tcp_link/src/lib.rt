//! A link over TCP: a member listens at its own address, writes its posts to the others on connections that it made,
//! and reads on those that it accepted, each in a thread of its own. Nothing rests on who sent a frame.
#![tactic(auto)]

mod accepting;
mod allowance;
mod connecting;
mod doors;
mod frame;
mod link;
mod reading;
mod telling;

pub use allowance::Allowance;
pub use frame::{FRAME_LIMIT, Frame, FrameEnd, read_frame, write_frame};
pub use link::TcpLink;
