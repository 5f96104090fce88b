//! Readers of event parameters (Core 5.0, Vol 2 Part E, 7.7), which return `None` if octets are
//! missing.

ghost use Rattle.std.specs.Prelude.{◌≡◌, map};
ghost use Rattle.std.specs.Option.{option_map};
ghost use Rattle.le_hci.specs.Event.{report_of, handle_of, completed_packets_of, completed_entries, reported_form, le_meta_form, disconnection_complete, encryption_change, command_complete, command_status, hardware_error, number_of_completed_packets, encryption_key_refresh_complete, connection_complete, long_term_key_request};

use crate::event::Event;
use crate::event_code;
use crate::peer::Peer;

/// Bits of a field that hold the handle; the others are ignored.
const HANDLE: u16 = 0x0FFF;

/// Reads the event with this code and these parameters.
#[inline(always)]
pub fn read(code: u8, parameters: &[u8]) -> Option<Event<'_>>
    ensures { option_map report_of result ≡ reported_form code parameters.now }
{
    match code {
        event_code::DISCONNECTION_COMPLETE => read_disconnection_complete(parameters),
        event_code::ENCRYPTION_CHANGE => read_encryption_change(parameters),
        event_code::COMMAND_COMPLETE => read_command_complete(parameters),
        event_code::COMMAND_STATUS => read_command_status(parameters),
        event_code::HARDWARE_ERROR => read_hardware_error(parameters),
        event_code::NUMBER_OF_COMPLETED_PACKETS => read_number_of_completed_packets(parameters),
        event_code::ENCRYPTION_KEY_REFRESH_COMPLETE => {
            read_encryption_key_refresh_complete(parameters)
        }
        event_code::LE_META => read_le_meta(parameters),
        _ => Some(Event::Other),
    }
}

/// Reads an LE Meta event, whose first parameter is the subevent code (7.7.65).
fn read_le_meta(parameters: &[u8]) -> Option<Event<'_>>
    ensures { option_map report_of result ≡ le_meta_form parameters.now }
{
    let [subevent, parameters @ ..] = parameters else {
        return None;
    };
    match *subevent {
        event_code::LE_CONNECTION_COMPLETE => read_connection_complete(parameters),
        event_code::LE_LONG_TERM_KEY_REQUEST => read_long_term_key_request(parameters),
        _ => Some(Event::Other),
    }
}

/// Returns the handle in a field.
pub fn handle(low: u8, high: u8) -> u16
    ensures { result ≡ handle_of low high }
{
    u16::from_le_bytes([low, high]) & HANDLE
}

/// Reads Disconnection Complete (7.7.5).
fn read_disconnection_complete(parameters: &[u8]) -> Option<Event<'_>>
    ensures { option_map report_of result ≡ disconnection_complete parameters.now }
{
    match parameters {
        [status, low, high, reason, ..] => Some(Event::DisconnectionComplete {
            status: *status,
            handle: handle(*low, *high),
            reason: *reason,
        }),
        _ => None,
    }
}

/// Reads Encryption Change (7.7.8).
fn read_encryption_change(parameters: &[u8]) -> Option<Event<'_>>
    ensures { option_map report_of result ≡ encryption_change parameters.now }
{
    match parameters {
        [status, low, high, enabled, ..] => Some(Event::EncryptionChange {
            status: *status,
            handle: handle(*low, *high),
            enabled: *enabled,
        }),
        _ => None,
    }
}

/// Reads Command Complete (7.7.14).
fn read_command_complete(parameters: &[u8]) -> Option<Event<'_>>
    ensures { option_map report_of result ≡ command_complete parameters.now }
{
    match parameters {
        [allowed, low, high, parameters @ ..] => Some(Event::CommandComplete {
            allowed: *allowed,
            opcode: u16::from_le_bytes([*low, *high]),
            parameters,
        }),
        _ => None,
    }
}

/// Reads Command Status (7.7.15).
fn read_command_status(parameters: &[u8]) -> Option<Event<'_>>
    ensures { option_map report_of result ≡ command_status parameters.now }
{
    match parameters {
        [status, allowed, low, high, ..] => Some(Event::CommandStatus {
            status: *status,
            allowed: *allowed,
            opcode: u16::from_le_bytes([*low, *high]),
        }),
        _ => None,
    }
}

/// Reads Hardware Error (7.7.16).
fn read_hardware_error(parameters: &[u8]) -> Option<Event<'_>>
    ensures { option_map report_of result ≡ hardware_error parameters.now }
{
    match parameters {
        [code, ..] => Some(Event::HardwareError { code: *code }),
        _ => None,
    }
}

/// Reads Number Of Completed Packets (7.7.19).
#[inline(always)]
fn read_number_of_completed_packets(parameters: &[u8]) -> Option<Event<'_>>
    ensures { option_map report_of result ≡ number_of_completed_packets parameters.now }
{
    let [count, octets @ ..] = parameters else {
        return None;
    };
    let entries = entries(*count, octets)?;
    Some(Event::NumberOfCompletedPackets { entries })
}

#[inline(always)]
fn entries(count: u8, octets: &[u8]) -> Option<&[[u8; 4]]>
    ensures { option_map (λ entries. map completed_packets_of entries.now) result
        ≡ completed_entries count octets.now }
{
    let (entries, _) = octets.as_chunks::<4>();
    entries.get(..usize::from(count))
}

/// Reads Encryption Key Refresh Complete (7.7.39).
fn read_encryption_key_refresh_complete(parameters: &[u8]) -> Option<Event<'_>>
    ensures { option_map report_of result ≡ encryption_key_refresh_complete parameters.now }
{
    match parameters {
        [status, low, high, ..] => Some(Event::EncryptionKeyRefreshComplete {
            status: *status,
            handle: handle(*low, *high),
        }),
        _ => None,
    }
}

/// Reads LE Connection Complete (7.7.65.1).
fn read_connection_complete(parameters: &[u8]) -> Option<Event<'_>>
    ensures { option_map report_of result ≡ connection_complete parameters.now }
{
    let [status, low, high, role, kind, rest @ ..] = parameters else {
        return None;
    };
    let (address, rest) = rest.split_first_chunk::<6>()?;
    let [
        interval_low,
        interval_high,
        latency_low,
        latency_high,
        rest @ ..,
    ] = rest
    else {
        return None;
    };
    let [timeout_low, timeout_high, clock_accuracy, ..] = rest else {
        return None;
    };
    Some(Event::ConnectionComplete {
        status: *status,
        handle: handle(*low, *high),
        role: *role,
        peer: Peer {
            kind: *kind,
            address: *address,
        },
        interval: u16::from_le_bytes([*interval_low, *interval_high]),
        latency: u16::from_le_bytes([*latency_low, *latency_high]),
        timeout: u16::from_le_bytes([*timeout_low, *timeout_high]),
        clock_accuracy: *clock_accuracy,
    })
}

/// Reads LE Long Term Key Request (7.7.65.5).
fn read_long_term_key_request(parameters: &[u8]) -> Option<Event<'_>>
    ensures { option_map report_of result ≡ long_term_key_request parameters.now }
{
    let [low, high, rest @ ..] = parameters else {
        return None;
    };
    let (random_number, rest) = rest.split_first_chunk::<8>()?;
    let [diversifier_low, diversifier_high, ..] = rest else {
        return None;
    };
    Some(Event::LongTermKeyRequest {
        handle: handle(*low, *high),
        random_number: *random_number,
        diversifier: u16::from_le_bytes([*diversifier_low, *diversifier_high]),
    })
}
