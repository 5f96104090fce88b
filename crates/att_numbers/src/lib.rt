//! Assigned numbers of the Attribute Protocol, and limits of this profile.
#![tactic(auto)]

pub mod attribute_type;
pub mod error_code;
pub mod limit;
pub mod opcode;
mod refusal;

pub use refusal::Refusal;
