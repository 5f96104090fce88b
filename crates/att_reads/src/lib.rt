//! Responses to find and read requests (Core 5.0, Vol 3 Part F, 3.4.3 and 3.4.4).
#![tactic(auto)]

mod answer;
mod find;
mod list;
mod reader;
mod value;

pub use answer::answer_read;
pub use list::MAX_ELEMENT;
