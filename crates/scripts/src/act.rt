//! Acts of a script's lines.

use le_hci::Peer;
use text_words::Payload;

/// An act of a client.
#[derive(Drop)]
pub enum ScriptedAct<'a> {
    /// Connects as this peer.
    Connect {
        peer: Peer,
    },
    /// Disconnects.
    Drop,
    /// Requests encryption with the key of this random number, in wire order, and diversifier.
    Encrypt {
        random_number: [u8; 8],
        diversifier: u16,
    },
    /// Ends encryption of the connection.
    Clear,
    /// Sends a payload on an L2CAP channel.
    Send {
        channel: u16,
        payload: Payload<'a>,
    },
    /// Stops the automatic completion of packets.
    Hold,
    /// Completes this number of packets.
    Done {
        packets: u16,
    },
}

/// The act of a line. Clients have numbers from 0.
#[derive(Drop)]
pub enum Act<'a> {
    Phone { phone: u8, act: ScriptedAct<'a> },
    /// Authorizes a client's connection before a time in milliseconds. 0 revokes it.
    Authorize { phone: u8, until: u64 },
    /// Updates the value at a handle.
    Update { handle: u16, value: Payload<'a> },
    /// Sets the time, in milliseconds.
    Tick { time: u64 },
    /// Replaces the table by the next one.
    Replace,
}
