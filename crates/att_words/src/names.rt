//! The names of opcodes in the Core Specification, and error codes in words.

use crate::text::Text;
use att_numbers::{error_code, opcode};

/// A number with its name.
type Named = (u8, &'static str);

/// Write Command with a signature, which no server of this profile serves.
pub(crate) const SIGNED_WRITE_COMMAND: u8 = 0xD2;

/// The PDUs (Core 5.0, Vol 3 Part F, 3.4.8).
const PDUS: [Named; 28] = [
    (opcode::ERROR_RESPONSE, "Error Response"),
    (opcode::EXCHANGE_MTU_REQUEST, "Exchange MTU Request"),
    (opcode::EXCHANGE_MTU_RESPONSE, "Exchange MTU Response"),
    (opcode::FIND_INFORMATION_REQUEST, "Find Information Request"),
    (
        opcode::FIND_INFORMATION_RESPONSE,
        "Find Information Response",
    ),
    (
        opcode::FIND_BY_TYPE_VALUE_REQUEST,
        "Find By Type Value Request",
    ),
    (
        opcode::FIND_BY_TYPE_VALUE_RESPONSE,
        "Find By Type Value Response",
    ),
    (opcode::READ_BY_TYPE_REQUEST, "Read By Type Request"),
    (opcode::READ_BY_TYPE_RESPONSE, "Read By Type Response"),
    (opcode::READ_REQUEST, "Read Request"),
    (opcode::READ_RESPONSE, "Read Response"),
    (opcode::READ_BLOB_REQUEST, "Read Blob Request"),
    (opcode::READ_BLOB_RESPONSE, "Read Blob Response"),
    (opcode::READ_MULTIPLE_REQUEST, "Read Multiple Request"),
    (opcode::READ_MULTIPLE_RESPONSE, "Read Multiple Response"),
    (
        opcode::READ_BY_GROUP_TYPE_REQUEST,
        "Read By Group Type Request",
    ),
    (
        opcode::READ_BY_GROUP_TYPE_RESPONSE,
        "Read By Group Type Response",
    ),
    (opcode::WRITE_REQUEST, "Write Request"),
    (opcode::WRITE_RESPONSE, "Write Response"),
    (opcode::PREPARE_WRITE_REQUEST, "Prepare Write Request"),
    (opcode::PREPARE_WRITE_RESPONSE, "Prepare Write Response"),
    (opcode::EXECUTE_WRITE_REQUEST, "Execute Write Request"),
    (opcode::EXECUTE_WRITE_RESPONSE, "Execute Write Response"),
    (
        opcode::HANDLE_VALUE_NOTIFICATION,
        "Handle Value Notification",
    ),
    (opcode::HANDLE_VALUE_INDICATION, "Handle Value Indication"),
    (
        opcode::HANDLE_VALUE_CONFIRMATION,
        "Handle Value Confirmation",
    ),
    (opcode::WRITE_COMMAND, "Write Command"),
    (SIGNED_WRITE_COMMAND, "Signed Write Command"),
];

/// Returns the name of the PDU with this opcode, if it has one.
pub(crate) fn name_of_pdu(opcode: u8) -> Option<&'static str> {
    match PDUS.iter().find(|named| named.0 == opcode) {
        Some(named) => Some(named.1),
        None => None,
    }
}

/// Adds the name of the PDU with this opcode, or the unknown opcode.
pub(crate) fn add_pdu_name(text: &mut Text, opcode: u8) {
    match name_of_pdu(opcode) {
        Some(name) => text.add(name),
        None => {
            text.add("unknown opcode ");
            text.add_hex(&[opcode]);
        }
    }
}

/// Adds the name of an error code, or its kind and the code.
pub(crate) fn add_error(text: &mut Text, code: u8) {
    match error_code::name(code) {
        Some(name) => text.add(name),
        None => {
            text.add(kind_of_error(code));
            text.add_hex(&[code]);
        }
    }
}

/// Returns the kind of an error code without a name, before a code.
fn kind_of_error(code: u8) -> &'static str {
    match code {
        0x80..=0x9F => "application error ",
        0xE0..=0xFF => "common profile error ",
        _ => "reserved error ",
    }
}
