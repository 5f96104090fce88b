//! Opcodes: OGF in the upper 6 bits, OCF in the lower 10 (Core 5.0, Vol 2 Part E, 5.4.1 and 7).

pub const DISCONNECT: u16 = 0x0406;

pub const SET_EVENT_MASK: u16 = 0x0C01;

pub const RESET: u16 = 0x0C03;

pub const READ_BUFFER_SIZE: u16 = 0x1005;

pub const LE_SET_EVENT_MASK: u16 = 0x2001;

pub const LE_READ_BUFFER_SIZE: u16 = 0x2002;

pub const LE_SET_RANDOM_ADDRESS: u16 = 0x2005;

pub const LE_SET_ADVERTISING_PARAMETERS: u16 = 0x2006;

pub const LE_SET_ADVERTISING_DATA: u16 = 0x2008;

pub const LE_SET_ADVERTISE_ENABLE: u16 = 0x200A;

pub const LE_LONG_TERM_KEY_REQUEST_REPLY: u16 = 0x201A;

pub const LE_LONG_TERM_KEY_REQUEST_NEGATIVE_REPLY: u16 = 0x201B;
