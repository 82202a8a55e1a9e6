//! Tests of the lowest crates, against worked values and those of other programs.
#![tactic(auto)]

#[cfg(test)]
mod contents;
#[cfg(test)]
mod ring;
#[cfg(test)]
mod wire;
