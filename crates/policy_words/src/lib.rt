//! The policy of a table in words: its attributes, the matrix of rights, `may` and `compare`.
#![tactic(auto)]

mod cell;
mod columns;
mod compare;
mod kinds;
mod legend;
mod matrix;
mod may;
mod table;
mod type_names;
mod type_text;
mod uses;

pub use cell::{Rights, cell_of};
pub use columns::{Column, named_columns};
pub use compare::{add_comparison, opens};
pub use kinds::add_kinds;
pub use legend::{add_if, add_key, add_peer_words};
pub use matrix::add_matrix;
pub use may::{Question, Verdict, add_answer, verdict_of};
pub use table::{add_length, add_table, told_value};
pub use type_names::name_of;
pub use type_text::{add_handle_and_type, add_type};
