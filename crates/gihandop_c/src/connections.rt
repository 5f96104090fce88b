//! Connections as C reads them.

ghost use Rattle.std.specs.Prelude.{◌≡◌, ◌≢◌, slice_get, Some};
ghost use Rattle.std.specs.Option.{option_map};
ghost use Rattle.gatt_host.specs.Connections.{connections_in};
ghost use Rattle.gihandop_c.specs.Seeing.{connection_at, connection_fields, with_the_key, without_a_key};
ghost use Rattle.gihandop_c.specs.Statuses.{connection_status};
ghost use Rattle.gihandop_c.specs.declared.status.TheConstants.{DONE};

use crate::opened::Opened;
use crate::status;
use gatt_host::{Connection, Host, KeyFacts};

/// A connection.
#[repr(C)]
#[derive(Clone, Copy)]
pub struct ConnectionFields {
    /// The size of the caller's structure, in bytes: at least `CONNECTION_SIZE`.
    pub size: usize,
    /// Its handle in HCI.
    pub handle: u16,
    /// The ATT_MTU, in octets.
    pub mtu: u16,
    /// The type of the peer's address, 0 public or 1 random, and the address as on the wire.
    pub address_kind: u8,
    pub address: [u8; 6],
    /// The size of the link's key, in octets, or 0 without a key.
    pub key_size: u8,
    /// `authenticated`: the key was exchanged with protection against a man in the middle.
    /// `secure`: LE Secure Connections made it.
    pub authenticated: bool,
    pub secure: bool,
    /// Set while the host is ending it: it is no longer served.
    pub ending: bool,
    /// The end of its authorization, in milliseconds.
    pub authorized_until: u64,
    /// Its number among all connections of the host, from 1. No number is used again.
    pub ordinal: u64,
    /// When its last ACL data packet arrived, in milliseconds; at first, when it was accepted.
    pub heard: u64,
    /// The index of its slot, from 0.
    pub slot: u8,
}

const CONNECTION_SIZE: usize = size_of::<ConnectionFields>();

pub(crate) fn connection(opened: &Opened, place: usize, connection: &mut ConnectionFields) -> u32
    ensures status { result ≡ connection_status connection.old.size place opened.now }
    ensures there { result ≡ DONE
        → connection_at connection.old.size opened.now place ≡ Some connection.new }
    ensures untouched { result ≢ DONE → connection.new ≡ connection.old }
{
    if connection.size < CONNECTION_SIZE {
        return status::BAD_SIZE;
    }
    match at(&opened.host, place, connection.size) {
        Some(there) => {
            *connection = there;
            status::DONE
        }
        None => status::NOTHING,
    }
}

fn at(host: &Host, place: usize, size: usize) -> Option<ConnectionFields>
    ensures { result ≡ option_map (connection_fields size)
        (slice_get (connections_in host.now) place) }
{
    let mut left = place;
    for connection in host.connections() {
        if left == 0 {
            return Some(fields(connection, size));
        }
        left -= 1;
    }
    None
}

fn fields(connection: Connection, size: usize) -> ConnectionFields
    ensures { result ≡ connection_fields size connection }
{
    keyed(connection.key, without_key(connection, size))
}

fn without_key(connection: Connection, size: usize) -> ConnectionFields
    ensures { result ≡ without_a_key size connection }
{
    let address = connection.peer.address;
    ConnectionFields {
        size,
        handle: connection.handle,
        mtu: connection.mtu,
        address_kind: connection.peer.kind,
        address,
        key_size: 0,
        authenticated: false,
        secure: false,
        ending: connection.ending,
        authorized_until: connection.authorized_until,
        ordinal: connection.ordinal,
        heard: connection.heard,
        slot: connection.slot.min(usize::from(u8::MAX)) as u8,
    }
}

fn keyed(key: Option<KeyFacts>, fields: ConnectionFields) -> ConnectionFields
    ensures { result ≡ with_the_key key fields }
{
    let mut fields = fields;
    if let Some(facts) = key {
        fields.key_size = facts.size;
        fields.authenticated = facts.authenticated;
        fields.secure = facts.secure;
    }
    fields
}
