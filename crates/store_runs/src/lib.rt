//! Tests of key files and of disks in memory that fail and crash, against answers that were worked out by hand.
#![tactic(auto)]

#[cfg(test)]
mod key_files;
#[cfg(test)]
mod names;
#[cfg(test)]
mod plans;
