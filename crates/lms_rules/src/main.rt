//! Checks one-time signatures and trees against values of another implementation and of RFC 8554. A line is printed for
//! what held; the first comparison that fails ends the program.
#![tactic(auto)]

mod one_time;
mod trees;

use anyhow::Result;
use std::alloc::Global;
use std::rt::Runtime;

fn check_one_time<R: Runtime>(rt: &R, alloc: Global) -> Result<()> {
    one_time::digits_are_those_of_the_rfc()?;
    println!(rt; "lm_ots: digits are those of the RFC")?;
    one_time::checksums_of_zeros()?;
    println!(rt; "lm_ots: checksums of zeros")?;
    one_time::the_length_is_tested_before_the_type()?;
    println!(rt; "lm_ots: the length is tested before the type")?;
    one_time::a_key_signs_what_leads_to_it(alloc)?;
    println!(rt; "lm_ots: a key signs what leads to it")?;
    Ok(())
}

fn check_trees<R: Runtime>(rt: &R, alloc: Global) -> Result<()> {
    trees::a_signature_is_accepted_for_its_message_alone(alloc)?;
    println!(rt; "lms_tree: a signature is accepted for its message alone")?;
    trees::refusals_come_in_their_order(alloc)?;
    println!(rt; "lms_tree: refusals come in their order")?;
    trees::the_first_unknown_type_of_a_key_is_refused()?;
    println!(rt; "lms_tree: the first unknown type of a key is refused")?;
    trees::a_key_of_each_width_signs_to_its_last_leaf(alloc)?;
    println!(rt; "lms_tree: a key of each width signs to its last leaf")?;
    trees::a_secret_gives_each_leaf_once(alloc)?;
    println!(rt; "lms_tree: a secret gives each leaf once")?;
    Ok(())
}

fn main(rt: HostRuntime) -> Result<()> {
    let alloc = rt.alloc();
    check_one_time(&rt, alloc)?;
    check_trees(&rt, alloc)
}
