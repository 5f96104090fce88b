//! The lines in which the values of a table are saved and restored.
#![tactic(auto)]

mod restoring;
mod saved_lines;
mod saved_value;
mod saves;
mod type_text;

pub use restoring::{BadLine, restore, restore_lines};
pub use saved_lines::{add_values, values_text};
pub use saved_value::{SavedValue, read_value};
pub use saves::{Saves, may_be_saved};
