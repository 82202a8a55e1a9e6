//! Scripts of a whole group: what each member sends, which members are faulty and how, and what does not arrive.
#![tactic(auto)]

mod fault;
mod forms;
mod laws;
mod lines;
mod making;
mod reading;
mod refusal;
mod script;

pub use fault::Fault;
pub use laws::{faults_have_names, made_scripts_are_scripts, read_scripts_are_scripts};
pub use making::make_script;
pub use reading::parse_script;
pub use refusal::ScriptRefusal;
pub use script::{FaultLine, MESSAGE_LIMIT, Script};
