//! Packet boundary flags of ACL data (Core 5.0, Vol 2 Part E, 5.4.2).

/// Begins a frame to the controller. Also accepted from it (this profile's own).
pub const FIRST_NOT_FLUSHED: u8 = 0b00;

/// Continues a frame, in both directions.
pub const CONTINUATION: u8 = 0b01;

/// Begins a frame from the controller.
pub const FIRST: u8 = 0b10;
