//! The command that waits for others: a member takes part in a round over a link. And the top call of the program, which
//! hands all other words on to the commands that wait for nobody.
#![tactic(auto)]

mod taking_part;
mod top_call;

pub use top_call::run;
