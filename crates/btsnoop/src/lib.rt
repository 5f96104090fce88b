//! A btsnoop capture of the packets between a host and its controller. It does not open files.
#![tactic(auto)]

mod begun;
mod capture;
mod packet;
mod record;

pub use capture::{Capture, CaptureFault};
pub use record::Direction;
