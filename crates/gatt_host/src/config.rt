//! The configuration of a host.

use arrayvec::ArrayVec;
use le_hci::MAX_ADVERTISING_DATA;
use std::error::Error;
use std::fmt;

/// Number of connections, receive MTU, address and advertising data of a host.
#[derive(Clone, Debug, PartialEq, Eq, Drop)]
pub struct Config {
    /// Maximum number of connections at a time: 1 to `MAX_SLOTS`.
    pub slots: usize,
    /// Largest ATT PDU that the host receives, in octets: 23 to 517.
    pub rx_mtu: u16,
    /// Static random address, least significant octet first, with the two most significant bits set
    /// (Core 5.0, Vol 6 Part B, 1.3.2.1). `None` selects the controller's public address.
    pub address: Option<[u8; 6]>,
    /// Advertising data (Core 5.0, Vol 3 Part C, 11).
    pub advertising: ArrayVec<u8, MAX_ADVERTISING_DATA>,
}

/// The reason why a host cannot be opened.
#[derive(Clone, Copy, Debug, PartialEq, Eq)]
pub enum OpenFault {
    /// A value of the configuration is out of range.
    BadConfig,
    /// Memory allocation failed.
    OutOfMemory,
}

impl fmt::Display for OpenFault {
    fn fmt<W: fmt::Write>(&self, f: &mut fmt::Formatter<W>) -> fmt::Result {
        match self {
            OpenFault::BadConfig => write!(f, "the configuration is out of its limits"),
            OpenFault::OutOfMemory => write!(f, "memory was refused"),
        }
    }
}

impl Error for OpenFault {}
