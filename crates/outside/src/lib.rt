//! What every object of the outside shares, whatever it is: a file system, a disk, a link or a sink. Its contracts
//! speak of a count of faults and of what it holds, before a call and now; its double in memory fails by a plan.
#![tactic(auto)]

mod plan;

pub use plan::FaultPlan;
