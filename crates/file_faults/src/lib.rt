//! The place and the fault of a refused table, key or subscriptions file, in words.
#![tactic(auto)]

mod front;
mod key_place;
mod place;
mod position;
mod quoted;
mod refused;
mod report;
mod rows_place;
mod table_place;
mod wrong_key;

pub use place::{add_keys_fault, add_table_fault};
pub use rows_place::add_rows_fault;
