//! The notices that the application receives.

use att_policy::KeyFacts;
use le_hci::Peer;

/// A notice of a connection. `handle` is its handle of HCI, `attribute` a handle of the table.
#[derive(Clone, Copy, Debug, PartialEq, Eq)]
pub enum Notice<'a> {
    /// The host accepted a connection.
    Connected {
        handle: u16,
        peer: Peer,
    },
    /// The connection has ended.
    Disconnected {
        handle: u16,
    },
    /// The link has a key, and had none, or one with other facts.
    Secured {
        handle: u16,
        facts: KeyFacts,
    },
    /// The link no longer has a key.
    Unsecured {
        handle: u16,
    },
    /// The connection wrote this value, perhaps the same octets again.
    Written {
        handle: u16,
        attribute: u16,
        value: &'a [u8],
    },
    /// The connection wrote a client characteristic configuration.
    Configured {
        handle: u16,
        attribute: u16,
        bits: u8,
    },
    /// The connection confirmed an indication of this value.
    Confirmed {
        handle: u16,
        attribute: u16,
    },
    /// The connection did not confirm an indication in time. It is sent no more notifications or
    /// indications.
    TimedOut {
        handle: u16,
    },
    /// The host ends the connection, for a reason of Core 5.0, Vol 2 Part D, 2.
    Ending {
        handle: u16,
        reason: u8,
    },
    /// This value is not notified, because 8 or more PDUs are queued for the connection. A later
    /// value may be.
    Skipped {
        handle: u16,
        attribute: u16,
    },
}
