//! The text in which a device saves its state: the text of its last table, the subscriptions, and
//! the values that differ from the table file. No file is opened here.
#![tactic(auto)]

mod reading;
mod state;
mod state_fault;
mod state_lines;

pub use saved_values::{SavedValue, Saves, may_be_saved, restore};
pub use state::State;
pub use state_fault::StateFault;
pub use state_lines::state_text;
