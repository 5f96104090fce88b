//! Texts in lines and words: their numbers, octets and cells.
#![tactic(auto)]

mod cells;
mod hexadecimal;
mod numeral;
mod payload;
mod split;

pub use cells::{WIDEST, add_left, add_number, add_octets, add_right, add_right_number};
pub use hexadecimal::add_hex;
pub use numeral::{read_u16, read_u64};
pub use payload::Payload;
pub use split::{first_line, first_word};
