use crate::uuid::Uuid;

/// A PDU of a client (Core 5.0, Vol 3 Part F, 3.4).
///
/// Handles are unchecked: a range may be empty or begin with 0. Offsets and MTUs are in octets.
#[derive(Clone, Copy, Debug, PartialEq, Eq)]
pub enum Request<'a> {
    ExchangeMtu {
        client_rx_mtu: u16,
    },
    FindInformation {
        first: u16,
        last: u16,
    },
    FindByTypeValue {
        first: u16,
        last: u16,
        attribute_type: u16,
        value: &'a [u8],
    },
    ReadByType {
        first: u16,
        last: u16,
        attribute_type: Uuid,
    },
    Read {
        handle: u16,
    },
    ReadBlob {
        handle: u16,
        offset: u16,
    },
    /// Two or more handles, little-endian.
    ReadMultiple {
        handles: &'a [[u8; 2]],
    },
    ReadByGroupType {
        first: u16,
        last: u16,
        attribute_type: Uuid,
    },
    Write {
        handle: u16,
        value: &'a [u8],
    },
    PrepareWrite {
        handle: u16,
        offset: u16,
        part: &'a [u8],
    },
    ExecuteWrite {
        flags: ExecuteFlags,
    },
    /// Handle Value Confirmation, which has no response.
    Confirmation,
    /// Write Command, which has no response.
    WriteCommand {
        handle: u16,
        value: &'a [u8],
    },
}

/// The effect on the queue of prepared writes (Core 5.0, Vol 3 Part F, 3.4.6.3).
#[derive(Clone, Copy, Debug, PartialEq, Eq)]
pub enum ExecuteFlags {
    Cancel,
    Write,
}
