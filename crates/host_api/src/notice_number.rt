//! The number of each kind of notice, as C reads it.

pub const CONNECTED: u8 = 1;

pub const DISCONNECTED: u8 = 2;

pub const SECURED: u8 = 3;

pub const UNSECURED: u8 = 4;

pub const WRITTEN: u8 = 5;

pub const CONFIGURED: u8 = 6;

pub const CONFIRMED: u8 = 7;

pub const TIMED_OUT: u8 = 8;

pub const ENDING: u8 = 9;

pub const SKIPPED: u8 = 10;
