//! Reasons for disconnection (Core 5.0, Vol 2 Part D, 2).

/// Authentication Failure (2.5).
pub const AUTHENTICATION_FAILURE: u8 = 0x05;

/// Remote User Terminated Connection (2.19).
pub const REMOTE_USER_TERMINATED: u8 = 0x13;

/// Connection Terminated By Local Host (2.22).
pub const LOCAL_HOST_TERMINATED: u8 = 0x16;
