//! Packet indicators of H4 (Core 5.0, Vol 4 Part A, 2).

/// Command, from the host.
pub const COMMAND: u8 = 0x01;
/// ACL data, in both directions.
pub const ACL: u8 = 0x02;
/// Synchronous (SCO) data.
pub const SCO: u8 = 0x03;
/// Event, from the controller.
pub const EVENT: u8 = 0x04;
