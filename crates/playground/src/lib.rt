//! The commands that a page in a browser offers, over texts in memory.
#![tactic(auto)]

mod exports;
mod fields;
mod finish;

pub use exports::{page_compare, page_rights, page_run, page_show, page_words};
