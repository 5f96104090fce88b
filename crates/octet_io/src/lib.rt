//! 16-bit numbers as octets, byte streams, the octets of a PDU, and reusable buffers.
#![tactic(auto)]

mod buffer;
mod pdu;
mod stream;

pub use buffer::{overwrite, set_length, write_front, write_parts};
pub use pdu::{MAX_PDU, PduOctets};
pub use stream::{
    ArraySink, Failed, Reader, Sink, SliceSource, Source, Writer, write_all, write_uninterrupted,
};
