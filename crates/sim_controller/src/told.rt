ghost use Rattle.std.specs.Prelude.{◌≡◌, ◌+◌, ◌≤◌, ◌++◌, length};
ghost use Rattle.sim_controller.specs.declared.told.TheConstants.{MAX_PARAMETERS};
ghost use Rattle.sim_controller.specs.Told.{event_octets, sent_octets, sent_of, connection_sent, key_request_sent};

use crate::handle::handle_of;
use arrayvec::ArrayVec;
use le_acl::MAX_ACL_LEN;
use le_acl::boundary::{CONTINUATION, FIRST};
use le_h4::{PacketOctets, indicator, write_acl};
use le_hci::{PERIPHERAL, Peer, event_code};

/// A packet to the host.
#[derive(Drop)]
pub(crate) enum Told {
    CommandComplete {
        opcode: u16,
        parameters: ArrayVec<u8, 8>,
    },
    CommandStatus {
        opcode: u16,
    },
    ConnectionComplete {
        phone: u8,
        peer: Peer,
    },
    DisconnectionComplete {
        phone: u8,
        reason: u8,
    },
    /// Encryption is off if `enabled` is 0.
    EncryptionChange {
        phone: u8,
        enabled: u8,
    },
    LongTermKeyRequest {
        phone: u8,
        rand: [u8; 8],
        ediv: u16,
    },
    CompletedPackets {
        phone: u8,
        packets: u16,
    },
    /// First fragment of a frame.
    Beginning {
        phone: u8,
        octets: ArrayVec<u8, MAX_PIECE>,
    },
    /// Later fragment of a frame.
    Continuation {
        phone: u8,
        octets: ArrayVec<u8, MAX_PIECE>,
    },
}

/// Maximum octets of a fragment: the data of one ACL packet.
pub(crate) const MAX_PIECE: usize = MAX_ACL_LEN as usize;

/// Status of success (Core 5.0, Vol 2 Part D, 1.3).
const SUCCESS: u8 = 0x00;

/// Commands that the host may send at a time.
const ALLOWED: u8 = 1;

/// 30 milliseconds, in units of 1.25.
const INTERVAL: u16 = 0x0018;

/// In connection events.
const LATENCY: u16 = 0x0000;

/// 720 milliseconds, in units of 10.
const TIMEOUT: u16 = 0x0048;

/// 500 parts in a million.
const CLOCK_ACCURACY: u8 = 0x00;

impl Told {
    pub(crate) fn write(&self, out: &mut PacketOctets)
        ensures { out.new.items ≡ sent_octets (sent_of self.now) }
    {
        match self {
            Told::CommandComplete { opcode, parameters } => {
                let [low, high] = opcode.to_le_bytes();
                write_event(
                    event_code::COMMAND_COMPLETE,
                    &[ALLOWED, low, high],
                    parameters,
                    out,
                );
            }
            Told::CommandStatus { opcode } => {
                let [low, high] = opcode.to_le_bytes();
                write_event(
                    event_code::COMMAND_STATUS,
                    &[SUCCESS, ALLOWED, low, high],
                    &[],
                    out,
                );
            }
            Told::ConnectionComplete { phone, peer } => write_connection(*phone, peer, out),
            Told::DisconnectionComplete { phone, reason } => {
                let [low, high] = handle_of(*phone).to_le_bytes();
                write_event(
                    event_code::DISCONNECTION_COMPLETE,
                    &[SUCCESS, low, high, *reason],
                    &[],
                    out,
                );
            }
            Told::EncryptionChange { phone, enabled } => {
                let [low, high] = handle_of(*phone).to_le_bytes();
                write_event(
                    event_code::ENCRYPTION_CHANGE,
                    &[SUCCESS, low, high, *enabled],
                    &[],
                    out,
                );
            }
            Told::LongTermKeyRequest { phone, rand, ediv } => {
                write_key_request(*phone, rand, *ediv, out);
            }
            Told::CompletedPackets { phone, packets } => {
                let [low, high] = handle_of(*phone).to_le_bytes();
                let [packets_low, packets_high] = packets.to_le_bytes();
                let fields = [1, low, high, packets_low, packets_high];
                write_event(event_code::NUMBER_OF_COMPLETED_PACKETS, &fields, &[], out);
            }
            Told::Beginning { phone, octets } => {
                write_acl(handle_of(*phone), FIRST, octets, out);
            }
            Told::Continuation { phone, octets } => {
                write_acl(handle_of(*phone), CONTINUATION, octets, out);
            }
        }
    }
}

/// Maximum octets of an event's parameters (Core 5.0, Vol 2 Part E, 5.4.4).
const MAX_PARAMETERS: usize = 255;

/// Writes an event with its parameters to `out` (Core 5.0, Vol 2 Part E, 5.4.4).
fn write_event(code: u8, first: &[u8], others: &[u8], out: &mut PacketOctets)
    requires { length first.now + length others.now ≤ MAX_PARAMETERS }
    ensures { out.new.items ≡ event_octets code (first.now ++ others.now) }
{
    out.clear();
    out.push(indicator::EVENT);
    out.push(code);
    out.push((first.len() + others.len()) as u8);
    out.try_extend_from_slice(first).unwrap();
    out.try_extend_from_slice(others).unwrap();
}

/// Writes LE Connection Complete (Core 5.0, Vol 2 Part E, 7.7.65.1).
fn write_connection(phone: u8, peer: &Peer, out: &mut PacketOctets)
    ensures { out.new.items ≡ sent_octets (connection_sent phone peer.now) }
{
    let [low, high] = handle_of(phone).to_le_bytes();
    let [interval_low, interval_high] = INTERVAL.to_le_bytes();
    let [latency_low, latency_high] = LATENCY.to_le_bytes();
    let [timeout_low, timeout_high] = TIMEOUT.to_le_bytes();
    let first = [
        event_code::LE_CONNECTION_COMPLETE,
        SUCCESS,
        low,
        high,
        PERIPHERAL,
        peer.kind,
    ];
    let connection = [
        interval_low,
        interval_high,
        latency_low,
        latency_high,
        timeout_low,
        timeout_high,
        CLOCK_ACCURACY,
    ];
    let mut others: ArrayVec<u8, 13> = ArrayVec::new();
    others.try_extend_from_slice(&peer.address).unwrap();
    others.try_extend_from_slice(&connection).unwrap();
    write_event(event_code::LE_META, &first, &others, out);
}

/// Writes LE Long Term Key Request (Core 5.0, Vol 2 Part E, 7.7.65.5).
fn write_key_request(phone: u8, rand: &[u8; 8], ediv: u16, out: &mut PacketOctets)
    ensures { out.new.items ≡ sent_octets (key_request_sent phone rand.now ediv) }
{
    let [low, high] = handle_of(phone).to_le_bytes();
    let [ediv_low, ediv_high] = ediv.to_le_bytes();
    let mut others: ArrayVec<u8, 10> = ArrayVec::new();
    others.try_extend_from_slice(rand).unwrap();
    others
        .try_extend_from_slice(&[ediv_low, ediv_high])
        .unwrap();
    let first = [event_code::LE_LONG_TERM_KEY_REQUEST, low, high];
    write_event(event_code::LE_META, &first, &others, out);
}
