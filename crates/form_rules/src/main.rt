//! Checks the rules of rosters, posts, transcripts and scripts, by an example for each with its place. A line is printed for
//! what held; the first comparison that fails ends the program.
#![tactic(auto)]

mod frames;
mod rosters;
mod scripts;
mod transcripts;

use anyhow::Result;
use std::alloc::Global;
use std::rt::Runtime;

fn check_rosters<R: Runtime>(rt: &R, alloc: Global) -> Result<()> {
    rosters::rules_of_rosters(alloc)?;
    println!(rt; "group_roster: rules of rosters")?;
    rosters::keys_of_rosters_are_refused(alloc)?;
    println!(rt; "group_roster: keys of rosters are refused")?;
    rosters::documents_are_read_as_rosters(alloc)?;
    println!(rt; "group_roster: documents are read as rosters")?;
    rosters::rules_of_documents(alloc)?;
    println!(rt; "group_roster: rules of documents")?;
    Ok(())
}

fn main(rt: HostRuntime) -> Result<()> {
    let alloc = rt.alloc();
    check_rosters(&rt, alloc)?;
    frames::frames_of_posts(alloc)?;
    println!(rt; "signed_post: frames of posts")?;
    transcripts::the_first_check_of_the_form_is_named(alloc)?;
    println!(rt; "transcript_form: the first check of the form is named")?;
    transcripts::a_transcript_of_each_claim_is_read_and_written(alloc)?;
    println!(rt; "transcript_form: a transcript of each claim is read and written")?;
    transcripts::an_accusation_has_34_bytes()?;
    println!(rt; "transcript_form: an accusation has 34 bytes")?;
    scripts::the_first_bad_line_is_named(alloc)?;
    println!(rt; "round_script: the first bad line is named")?;
    scripts::a_script_says_what_its_lines_say(alloc)?;
    println!(rt; "round_script: a script says what its lines say")?;
    scripts::a_script_is_made_from_a_number(alloc)?;
    println!(rt; "round_script: a script is made from a number")?;
    Ok(())
}
