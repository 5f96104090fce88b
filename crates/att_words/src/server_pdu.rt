//! PDUs that servers send, and the signed command, by their formats.

use crate::names::SIGNED_WRITE_COMMAND;
use att_numbers::opcode;

/// A PDU of a server (Core 5.0, Vol 3 Part F, 3.4), or a Signed Write Command.
#[derive(Clone, Copy)]
pub(crate) enum ServerPdu<'a> {
    Error {
        opcode: u8,
        handle: u16,
        code: u8,
    },
    ExchangeMtu {
        server_rx_mtu: u16,
    },
    /// Whole entries of the same size, at least one.
    Entries {
        form: Form,
        size: usize,
        octets: &'a [u8],
    },
    /// A value or a part of one, or several values one after the other.
    Value(&'a [u8]),
    /// Nothing besides the opcode.
    Done,
    /// The part of a value that was prepared.
    Prepared {
        handle: u16,
        offset: u16,
        part: &'a [u8],
    },
    /// A notification or an indication.
    HandleValue {
        handle: u16,
        value: &'a [u8],
    },
    Signed {
        handle: u16,
        value: &'a [u8],
    },
}

/// The format of an entry.
#[derive(Clone, Copy)]
pub(crate) enum Form {
    /// A handle and a type.
    Information,
    /// The first and the last handle of a group.
    Group,
    /// A handle and a value.
    HandleAndValue,
    /// The first and the last handle of a group, and a value.
    GroupAndValue,
}

/// The octets of the signature (Core 5.0, Vol 3 Part F, 3.3.1).
const SIGNATURE: usize = 12;

/// Parses a PDU by its opcode. Returns `None` if it is malformed or the opcode is no other's.
pub(crate) fn read_server_pdu(opcode: u8, parameters: &[u8]) -> Option<ServerPdu<'_>> {
    match opcode {
        opcode::ERROR_RESPONSE => error(parameters),
        opcode::EXCHANGE_MTU_RESPONSE => exchange_mtu(parameters),
        opcode::FIND_INFORMATION_RESPONSE => find_information(parameters),
        opcode::FIND_BY_TYPE_VALUE_RESPONSE => entries(Form::Group, 4, parameters),
        opcode::READ_BY_TYPE_RESPONSE => sized(Form::HandleAndValue, 2, parameters),
        opcode::READ_BY_GROUP_TYPE_RESPONSE => sized(Form::GroupAndValue, 4, parameters),
        opcode::READ_RESPONSE | opcode::READ_BLOB_RESPONSE | opcode::READ_MULTIPLE_RESPONSE => {
            Some(ServerPdu::Value(parameters))
        }
        opcode::WRITE_RESPONSE | opcode::EXECUTE_WRITE_RESPONSE => done(parameters),
        opcode::PREPARE_WRITE_RESPONSE => prepared(parameters),
        opcode::HANDLE_VALUE_NOTIFICATION | opcode::HANDLE_VALUE_INDICATION => {
            handle_value(parameters)
        }
        SIGNED_WRITE_COMMAND => signed(parameters),
        _ => None,
    }
}

/// Parses the parameters (Core 5.0, Vol 3 Part F, 3.4.1.1).
fn error(parameters: &[u8]) -> Option<ServerPdu<'_>> {
    match parameters {
        [opcode, low, high, code] => Some(ServerPdu::Error {
            opcode: *opcode,
            handle: u16::from_le_bytes([*low, *high]),
            code: *code,
        }),
        _ => None,
    }
}

/// Parses the parameters (Core 5.0, Vol 3 Part F, 3.4.2.2).
fn exchange_mtu(parameters: &[u8]) -> Option<ServerPdu<'_>> {
    match parameters {
        [low, high] => Some(ServerPdu::ExchangeMtu {
            server_rx_mtu: u16::from_le_bytes([*low, *high]),
        }),
        _ => None,
    }
}

/// Parses the parameters (Core 5.0, Vol 3 Part F, 3.4.3.2).
fn find_information(parameters: &[u8]) -> Option<ServerPdu<'_>> {
    match parameters {
        [0x01, octets @ ..] => entries(Form::Information, 4, octets),
        [0x02, octets @ ..] => entries(Form::Information, 18, octets),
        _ => None,
    }
}

/// Parses entries after the octet with their size (Core 5.0, Vol 3 Part F, 3.4.4.2 and 3.4.4.10).
fn sized(form: Form, least: usize, parameters: &[u8]) -> Option<ServerPdu<'_>> {
    match parameters {
        [size, octets @ ..] if usize::from(*size) >= least => {
            entries(form, usize::from(*size), octets)
        }
        _ => None,
    }
}

/// Parses whole entries of a size, at least one.
fn entries(form: Form, size: usize, octets: &[u8]) -> Option<ServerPdu<'_>> {
    match octets.len().checked_rem(size) {
        Some(0) if !octets.is_empty() => Some(ServerPdu::Entries { form, size, octets }),
        _ => None,
    }
}

fn done(parameters: &[u8]) -> Option<ServerPdu<'_>> {
    match parameters {
        [] => Some(ServerPdu::Done),
        _ => None,
    }
}

/// Parses the parameters (Core 5.0, Vol 3 Part F, 3.4.6.2).
fn prepared(parameters: &[u8]) -> Option<ServerPdu<'_>> {
    match parameters {
        [low, high, offset_low, offset_high, part @ ..] => Some(ServerPdu::Prepared {
            handle: u16::from_le_bytes([*low, *high]),
            offset: u16::from_le_bytes([*offset_low, *offset_high]),
            part,
        }),
        _ => None,
    }
}

/// Parses the parameters (Core 5.0, Vol 3 Part F, 3.4.7.1 and 3.4.7.2).
fn handle_value(parameters: &[u8]) -> Option<ServerPdu<'_>> {
    match parameters {
        [low, high, value @ ..] => Some(ServerPdu::HandleValue {
            handle: u16::from_le_bytes([*low, *high]),
            value,
        }),
        _ => None,
    }
}

/// Parses the parameters (Core 5.0, Vol 3 Part F, 3.4.5.4).
fn signed(parameters: &[u8]) -> Option<ServerPdu<'_>> {
    match parameters {
        [low, high, rest @ ..] if rest.len() >= SIGNATURE => Some(ServerPdu::Signed {
            handle: u16::from_le_bytes([*low, *high]),
            value: &rest[..rest.len() - SIGNATURE],
        }),
        _ => None,
    }
}
