//! Expectations: what the author of a table means, compared with what the table permits.
#![tactic(auto)]

mod difference;
mod document;
mod expectation;
mod fault;
mod file;
mod lines;
mod named;
mod need;
mod needed;
mod report;
mod unnamed;
mod words;

pub use difference::{Difference, Differing, differences};
pub use expectation::Expectation;
pub use file::{Refusal, read_expectations};
pub use report::add_report;
