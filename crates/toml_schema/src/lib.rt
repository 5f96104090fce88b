//! Typed look-ups in a TOML table, which treat a value of another type as missing, and a check of
//! its keys and types.
#![tactic(auto)]

mod look_up;
mod shape;

pub use look_up::{array, boolean, flag, integer, items, table, text};
pub use shape::{Key, Shape, is_shaped};
