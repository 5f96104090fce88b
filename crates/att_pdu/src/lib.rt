//! Attribute Protocol (ATT) PDUs: parses requests and builds responses within the ATT_MTU.
#![tactic(auto)]

mod buffer;
mod form;
mod grammar;
mod pdu_buf;
mod request;
mod uuid;

pub use grammar::{PduFault, answer_due, fault_of, read_parameters, read_request};
pub use pdu_buf::{MAX_MTU, MIN_MTU, PduBuf};
pub use request::{ExecuteFlags, Request};
pub use uuid::Uuid;
