//! The octets of a PDU, for use between layers.

use arrayvec::ArrayVec;

/// Maximum octets of a PDU: opcode, handle, offset and a value of 512 octets (this profile's own).
pub const MAX_PDU: usize = 517;

/// The octets of one PDU.
pub type PduOctets = ArrayVec<u8, MAX_PDU>;
