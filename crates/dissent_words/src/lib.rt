//! The words of a command line, and the command that they ask for. They are read by clap, which gets one simple command
//! for each of ours: its options, and for `member` the addresses behind them.
#![tactic(auto)]

mod clap_form;
mod command;
mod commands;
mod laws;
mod numbers;
mod refusal;
mod usage;
mod values;
mod words;

pub use command::Command;
pub use laws::plain_words_are_read;
pub use refusal::WordsRefusal;
pub use usage::usage_text;
pub use words::read_words;
