//! HCI UART transport (H4): packets of the controller's stream, and ACL packets and commands to it
//! (Core 5.0, Vol 4 Part A).
#![tactic(auto)]

mod deframer;
mod gathered;
pub mod indicator;
mod packet;
mod packet_buf;
mod progress;
mod write;

pub use deframer::{Deframer, Fed, H4Fault};
pub use octet_io::{ArraySink, Failed, Reader, Sink, SliceSource, Source, Writer};
pub use packet::{PacketRef, WholePacket};
pub use packet_buf::{MAX_ACL_DATA_OUT, MAX_PACKET_OUT, PacketBuf, PacketOctets};
pub use progress::{MAX_ACL_DATA, MAX_PACKET_IN};
pub use write::{acl_into, write_acl, write_acl_parts, write_command};
