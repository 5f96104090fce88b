//! Tests of the host between a controller and an application. They use what the layers make public,
//! so they are a crate of their own.
#![tactic(auto)]

mod recorded;
mod sides;

pub use crate::recorded::{Recording, serve_each};
pub use crate::sides::{TwoSides, serve_both};

#[cfg(test)]
mod a_lock;
#[cfg(test)]
mod calling;
#[cfg(test)]
mod cut_streams;
#[cfg(test)]
mod failing_streams;
#[cfg(test)]
mod happenings;
#[cfg(test)]
mod listening;
#[cfg(test)]
mod opening;
#[cfg(test)]
mod player;
#[cfg(test)]
mod seen;
#[cfg(test)]
mod serving;
#[cfg(test)]
mod turns;
#[cfg(test)]
mod wire;
#[cfg(test)]
mod words;
