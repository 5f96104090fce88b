//! The command `host`: it serves one controller after another, with an application, and saves what
//! must survive a restart.
//!
//! Other crates handle input, output and files; this one connects them with a host.
#![tactic(auto)]

mod answers;
mod before;
mod changes;
mod course;
mod device;
mod files;
mod finding;
mod keeping;
mod key_notes;
mod opening;
mod outgoing;
mod outside;
mod reload;
mod restoring;
mod saving;
mod serving;
mod starting;
mod state_lines;
mod stop;
mod stopping;
mod supervision;
mod telling;
mod turn_notices;
mod unkeyed;

pub use device_options::OptionTexts;
pub use serving::serve_devices;
pub use stop::Stop;
