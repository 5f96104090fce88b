//! A connection as the application sees it.

use att_policy::KeyFacts;
use le_hci::Peer;

/// The current state of a connection.
#[derive(Clone, Copy, Debug, PartialEq, Eq)]
pub struct Connection {
    /// The connection's number in the order of acceptance, from 1 to at most 2^64 - 1.
    pub ordinal: u64,
    /// The index of its slot, below `MAX_SLOTS`.
    pub slot: usize,
    /// The connection handle of HCI.
    pub handle: u16,
    pub peer: Peer,
    /// The ATT_MTU.
    pub mtu: u16,
    /// The facts of the link's key, if the link has one.
    pub key: Option<KeyFacts>,
    /// The connection is authorized while the time, in milliseconds, is below this.
    pub authorized_until: u64,
    /// The host disconnects it and no longer serves it.
    pub ending: bool,
    /// The time of the last tick, in milliseconds, before the last ACL data packet (any channel,
    /// also a fragment) while the connection was served, or at first before its acceptance.
    pub heard: u64,
}
