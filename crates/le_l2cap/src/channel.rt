//! Fixed channels of an LE link (Core 5.0, Vol 3 Part A, 2.1).

pub const ATT: u16 = 0x0004;

pub const LE_SIGNALLING: u16 = 0x0005;

pub const SECURITY_MANAGER: u16 = 0x0006;
