//! Length of a frame: a header and one PDU.

use octet_io::MAX_PDU;

/// Octets of a frame's header (Core 5.0, Vol 3 Part A, 3.1).
pub const HEADER: usize = 4;

/// Maximum octets of a frame, including its header.
pub const MAX_FRAME: usize = HEADER + MAX_PDU;
