//! Codes of events and of LE Meta subevents (Core 5.0, Vol 2 Part E, 7.7).

pub const DISCONNECTION_COMPLETE: u8 = 0x05;

pub const ENCRYPTION_CHANGE: u8 = 0x08;

pub const COMMAND_COMPLETE: u8 = 0x0E;

pub const COMMAND_STATUS: u8 = 0x0F;

pub const HARDWARE_ERROR: u8 = 0x10;

pub const NUMBER_OF_COMPLETED_PACKETS: u8 = 0x13;

pub const ENCRYPTION_KEY_REFRESH_COMPLETE: u8 = 0x30;

pub const LE_META: u8 = 0x3E;

/// LE Meta subevent.
pub const LE_CONNECTION_COMPLETE: u8 = 0x01;

/// LE Meta subevent.
pub const LE_LONG_TERM_KEY_REQUEST: u8 = 0x05;
