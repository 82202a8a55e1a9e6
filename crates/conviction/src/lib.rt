//! What convicts a member, and that nobody honest is convicted.
#![tactic(auto)]

mod laws;

pub use laws::{
    common_log_is_own, frame_bad_log, frame_equivocation, frame_malformed, frame_pad, frame_replay,
    frame_wrong_seed, no_framing, no_go_not_own, nobody_honest_is_convicted, pad_same_log,
    replay_not_own, seed_not_own, shuffle_not_own, submission_not_own, the_run, view_not_own,
};
