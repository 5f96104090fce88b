use le_hci::Peer;

/// An act of a client. Clients have the numbers 0 to `PHONES` - 1.
#[derive(Clone, Copy)]
pub enum PhoneAct<'a> {
    /// Connects as this peer. The controller stops advertising.
    Connect {
        phone: u8,
        peer: Peer,
    },
    /// Disconnects.
    Drop {
        phone: u8,
    },
    /// Requests encryption with the key of this number, in wire order, and diversifier.
    Encrypt {
        phone: u8,
        rand: [u8; 8],
        ediv: u16,
    },
    /// Ends encryption of the connection.
    Clear {
        phone: u8,
    },
    /// Sends a payload, at most a PDU, on an L2CAP channel.
    Send {
        phone: u8,
        cid: u16,
        payload: &'a [u8],
    },
    /// Stops the automatic completion of packets for the client.
    Hold {
        phone: u8,
    },
    /// Completes this number of packets for the client.
    Done {
        phone: u8,
        packets: u16,
    },
}
