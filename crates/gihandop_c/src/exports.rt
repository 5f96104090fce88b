//! The functions that C calls.
//!
//! They require nothing of their arguments except their types: a status reports everything that is
//! wrong. If `out` is too short, they return `SHORT_BUFFER`, and `count` has the length that is
//! needed.

pub mod asking;
pub mod opening;
pub mod seeing;
pub mod stream;
