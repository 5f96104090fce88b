//! Tests of the commands: what only readers and writers that fail can show.
//!
//! `tests/` has the others, which run the program.
#![tactic(auto)]

#[cfg(test)]
mod att_command;
#[cfg(test)]
mod check_command;
#[cfg(test)]
mod command_faults;
#[cfg(test)]
mod serve_command;
