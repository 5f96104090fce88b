ghost use Rattle.std.specs.Prelude.{◌≡◌, ◌++◌, IfOk};
ghost use Rattle.std.specs.Result.{result_map_both};
ghost use Rattle.octet_io.specs.Number.{Octets};
ghost use Rattle.le_hci.specs.Event.{Reported, report_of, event_of, completed_packets_of};
ghost use Rattle.le_hci.specs.EventPacket.{event_packet, event_code, fields_of, HasFields, report_read, IsRead};

use crate::event_form;
use crate::peer::Peer;

/// An event of the controller (Core 5.0, Vol 2 Part E, 7.7). Handles are below 4,096, and status 0
/// is success.
#[derive(Clone, Copy, Debug, PartialEq, Eq)]
pub enum Event<'a> {
    /// End of a connection (7.7.5).
    DisconnectionComplete {
        status: u8,
        handle: u16,
        reason: u8,
    },
    /// Encryption on, or off if `enabled` is 0 (7.7.8).
    EncryptionChange {
        status: u8,
        handle: u16,
        enabled: u8,
    },
    /// Completed command. `allowed` more may be sent (7.7.14).
    CommandComplete {
        allowed: u8,
        opcode: u16,
        /// Return parameters, which begin with a status for most commands.
        parameters: &'a [u8],
    },
    /// Started or rejected command. `allowed` more may be sent (7.7.15).
    CommandStatus {
        status: u8,
        allowed: u8,
        opcode: u16,
    },
    /// Controller failure (7.7.16).
    HardwareError {
        code: u8,
    },
    /// Packets sent or dropped (7.7.19).
    NumberOfCompletedPackets {
        /// One entry per connection, for `CompletedPackets::read`.
        entries: &'a [[u8; 4]],
    },
    /// Changed key of an encrypted connection (7.7.39).
    EncryptionKeyRefreshComplete {
        status: u8,
        handle: u16,
    },
    /// New connection (7.7.65.1).
    ConnectionComplete {
        status: u8,
        handle: u16,
        /// 0 central, 1 peripheral.
        role: u8,
        peer: Peer,
        /// In units of 1.25 milliseconds.
        interval: u16,
        /// In connection events.
        latency: u16,
        /// In units of 10 milliseconds.
        timeout: u16,
        clock_accuracy: u8,
    },
    /// Request for the key of this number and diversifier (7.7.65.5).
    LongTermKeyRequest {
        handle: u16,
        /// In wire order.
        random_number: [u8; 8],
        diversifier: u16,
    },
    /// Any other event or LE Meta subevent.
    Other,
}

/// Code of an event with fewer octets than its fields, or another number than its length states; 0
/// without octets.
#[derive(Clone, Copy, Debug, PartialEq, Eq)]
pub struct BadEvent(pub u8);

/// Reads an event packet, from its event code on (Core 5.0, Vol 2 Part E, 5.4.4). Ignores the upper
/// four bits of handles, and octets after the fields.
#[inline(always)]
pub fn read_event(octets: &[u8]) -> Result<Event<'_>, BadEvent>
    // An event is read exactly, or reported as bad.
    ensures exact { result_map_both report_of (λ bad. bad) result ≡ event_of octets.now }
    ensures sent { IfOk result (λ event. IsRead (report_of event) octets.now) }
    // No well-formed event is a bad event.
    ensures accepted { (sent : Reported) (extra : Octets) → HasFields sent extra
        → event_packet (event_code sent) (fields_of sent ++ extra) ≡ octets.now
        → event_of octets.now ≡ Ok (report_read sent) }
{
    let [code, rest @ ..] = octets else {
        return Err(BadEvent(0));
    };
    let [length, parameters @ ..] = rest else {
        return Err(BadEvent(*code));
    };
    if parameters.len() != usize::from(*length) {
        return Err(BadEvent(*code));
    }
    event_form::read(*code, parameters).ok_or(BadEvent(*code))
}

/// Completed packets of one connection.
#[derive(Clone, Copy, PartialEq, Eq)]
pub struct CompletedPackets {
    /// Handle of the connection, below 4,096.
    pub handle: u16,
    /// Packets completed since the last report.
    pub packets: u16,
}

impl CompletedPackets {
    /// Reads an entry of Number Of Completed Packets (Core 5.0, Vol 2 Part E, 7.7.19).
    pub fn read(entry: &[u8; 4]) -> CompletedPackets
        ensures { result ≡ completed_packets_of entry.now }
    {
        let [handle_low, handle_high, packets_low, packets_high] = *entry;
        CompletedPackets {
            handle: event_form::handle(handle_low, handle_high),
            packets: u16::from_le_bytes([packets_low, packets_high]),
        }
    }
}
