//! Write requests and commands (Core 5.0, Vol 3 Part F, 3.4.5 and 3.4.6).
#![tactic(auto)]

mod entry;
mod execution;
mod fault;
mod queue;
mod writes;

pub use execution::{cancel, execute, prepare};
pub use queue::{MAX_PREPARED, Queue, Touched};
pub use writes::{command, write};
