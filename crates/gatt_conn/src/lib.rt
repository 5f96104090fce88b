//! An ATT and GATT server: serves the PDUs of one connection.
#![tactic(auto)]

mod answered;
mod conn;
mod serving;
mod writing;

pub use answered::{Answered, Placed, Served, answer, answer_into, answer_over};
pub use att_writes::Touched;
pub use conn::{Conn, RX_MTU};
