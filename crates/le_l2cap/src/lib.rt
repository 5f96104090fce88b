//! L2CAP of an LE link: basic frames, and responses on the channels of LE signalling and the
//! Security Manager.
#![tactic(auto)]

pub mod channel;
mod frame;
mod pairing;
mod signalling_command;

pub use frame::{Frame, Skip, read_frame};
pub use pairing::security;
pub use signalling_command::{Reject, signalling};
