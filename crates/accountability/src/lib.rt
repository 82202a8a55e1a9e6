//! How an honest member's round ends: with evidence that is accepted, or with the names of the missing.
#![tactic(auto)]

mod laws;

pub use laws::{
    accused_faulty, all_honest, bad_log_accepted, bad_pad_accepted, done_has_messages,
    equivocation_accepted, evidence_accepted, evidence_short, fault_accepted, nothing_but_pads,
    open_names, places_open, replay_accepted, same_list, same_past, wrong_seed_accepted,
};
