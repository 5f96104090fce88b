//! ACL data of one LE connection: reassembly of frames and fragmentation of PDUs (Core 5.0, Vol 3
//! Part A, 7.2, and Vol 2 Part E, 4.1).
#![tactic(auto)]

pub mod boundary;
mod fragment_ref;
mod frame;
mod pdus;
mod reassembler;
mod sender;

pub use frame::MAX_FRAME;
pub use pdus::MAX_PDUS;
pub use reassembler::{Piece, Reassembler, is_frame};
pub use sender::{Full, MAX_ACL_LEN, MIN_ACL_LEN, Sender};
