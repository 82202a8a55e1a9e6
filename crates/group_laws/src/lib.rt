//! What is promised to the honest members of the group of a script: laws.
#![tactic(auto)]

mod laws;

pub use laws::{
    groups_are_accountable, honest_members_are_served, members_are_shown,
    members_keep_their_promise, nothing_is_forged, open_members_print_who_is_missed, scripts_enter,
    undisturbed_groups_are_done,
};
