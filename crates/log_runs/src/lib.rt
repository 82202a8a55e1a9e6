//! Tests of logs, votes, shuffles and messages of two members, against values of other programs.
#![tactic(auto)]

#[cfg(test)]
mod accusations;
#[cfg(test)]
mod closings;
#[cfg(test)]
mod descriptors;
#[cfg(test)]
mod replays;
#[cfg(test)]
mod slot_states;
#[cfg(test)]
mod slots;
#[cfg(test)]
mod turns;
#[cfg(test)]
mod views;
#[cfg(test)]
mod whole;
