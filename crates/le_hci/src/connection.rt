/// Role of a peripheral (Core 5.0, Vol 2 Part E, 7.7.65.1).
pub const PERIPHERAL: u8 = 0x01;

/// Highest connection handle (Core 5.0, Vol 2 Part E, 7.7.65.1).
pub const LAST_CONNECTION_HANDLE: u16 = 0x0EFF;
