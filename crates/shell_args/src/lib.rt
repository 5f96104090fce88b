//! The words of the command line: the command that they choose, or the reason for a refusal.
#![tactic(auto)]

mod argument;
mod arguments;
mod given;
mod help;
mod host;
mod may;
mod show;
mod subcommand;
mod words;

pub use given::words_of;
pub use words::{Choice, Refusal, chosen, complaint};
