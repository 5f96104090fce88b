//! The format of the parameters after each opcode.
ghost use Rattle.att_numbers.specs.declared.opcode.TheConstants.{EXCHANGE_MTU_REQUEST, FIND_INFORMATION_REQUEST, FIND_BY_TYPE_VALUE_REQUEST, READ_BY_TYPE_REQUEST, READ_REQUEST, READ_BLOB_REQUEST, READ_MULTIPLE_REQUEST, READ_BY_GROUP_TYPE_REQUEST, WRITE_REQUEST, PREPARE_WRITE_REQUEST, EXECUTE_WRITE_REQUEST, HANDLE_VALUE_CONFIRMATION, WRITE_COMMAND};
ghost use Rattle.att_pdu.specs.Form.{IsForm, form_of, exchange_mtu_form, find_information_form, find_by_type_value_form, read_by_type_form, read_form, read_blob_form, read_multiple_form, read_by_group_type_form, write_form, prepare_write_form, execute_write_form, confirmation_form, write_command_form};

use crate::request::{ExecuteFlags, Request};
use crate::uuid::Uuid;
use att_numbers::opcode;

/// Parses the parameters of an opcode, whatever their length.
#[inline(always)]
#[tactic(auto, unfolding(crate::specs::Form::form_of))]
pub(crate) fn request(opcode: u8, parameters: &[u8]) -> Option<Request<'_>>
    ensures { IsForm opcode parameters.now (form_of opcode parameters.now) result }
{
    match opcode {
        opcode::EXCHANGE_MTU_REQUEST => exchange_mtu(parameters),
        opcode::FIND_INFORMATION_REQUEST => find_information(parameters),
        opcode::FIND_BY_TYPE_VALUE_REQUEST => find_by_type_value(parameters),
        opcode::READ_BY_TYPE_REQUEST => read_by_type(parameters),
        opcode::READ_REQUEST => read(parameters),
        opcode::READ_BLOB_REQUEST => read_blob(parameters),
        opcode::READ_MULTIPLE_REQUEST => read_multiple(parameters),
        opcode::READ_BY_GROUP_TYPE_REQUEST => read_by_group_type(parameters),
        opcode::WRITE_REQUEST => write(parameters),
        opcode::PREPARE_WRITE_REQUEST => prepare_write(parameters),
        opcode::EXECUTE_WRITE_REQUEST => execute_write(parameters),
        opcode::HANDLE_VALUE_CONFIRMATION => confirmation(parameters),
        opcode::WRITE_COMMAND => write_command(parameters),
        _ => None,
    }
}

/// Parses the parameters (Core 5.0, Vol 3 Part F, 3.4.2.1).
fn exchange_mtu(parameters: &[u8]) -> Option<Request<'_>>
    ensures { IsForm EXCHANGE_MTU_REQUEST parameters.now (exchange_mtu_form parameters.now) result }
{
    match parameters {
        [low, high] => Some(Request::ExchangeMtu {
            client_rx_mtu: u16::from_le_bytes([*low, *high]),
        }),
        _ => None,
    }
}

/// Parses the parameters (Core 5.0, Vol 3 Part F, 3.4.3.1).
fn find_information(parameters: &[u8]) -> Option<Request<'_>>
    ensures { IsForm FIND_INFORMATION_REQUEST parameters.now
        (find_information_form parameters.now) result }
{
    match parameters {
        [first_low, first_high, last_low, last_high] => Some(Request::FindInformation {
            first: u16::from_le_bytes([*first_low, *first_high]),
            last: u16::from_le_bytes([*last_low, *last_high]),
        }),
        _ => None,
    }
}

/// Parses the parameters (Core 5.0, Vol 3 Part F, 3.4.3.3).
fn find_by_type_value(parameters: &[u8]) -> Option<Request<'_>>
    ensures { IsForm FIND_BY_TYPE_VALUE_REQUEST parameters.now
        (find_by_type_value_form parameters.now) result }
{
    match parameters {
        [
            first_low,
            first_high,
            last_low,
            last_high,
            type_low,
            type_high,
            value @ ..,
        ] => Some(Request::FindByTypeValue {
            first: u16::from_le_bytes([*first_low, *first_high]),
            last: u16::from_le_bytes([*last_low, *last_high]),
            attribute_type: u16::from_le_bytes([*type_low, *type_high]),
            value,
        }),
        _ => None,
    }
}

/// Parses the parameters (Core 5.0, Vol 3 Part F, 3.4.4.1).
#[inline(always)]
fn read_by_type(parameters: &[u8]) -> Option<Request<'_>>
    ensures { IsForm READ_BY_TYPE_REQUEST parameters.now (read_by_type_form parameters.now) result }
{
    match parameters {
        [first_low, first_high, last_low, last_high, uuid @ ..] => Some(Request::ReadByType {
            first: u16::from_le_bytes([*first_low, *first_high]),
            last: u16::from_le_bytes([*last_low, *last_high]),
            attribute_type: Uuid::read(uuid)?,
        }),
        _ => None,
    }
}

/// Parses the parameters (Core 5.0, Vol 3 Part F, 3.4.4.3).
fn read(parameters: &[u8]) -> Option<Request<'_>>
    ensures { IsForm READ_REQUEST parameters.now (read_form parameters.now) result }
{
    match parameters {
        [low, high] => Some(Request::Read {
            handle: u16::from_le_bytes([*low, *high]),
        }),
        _ => None,
    }
}

/// Parses the parameters (Core 5.0, Vol 3 Part F, 3.4.4.5).
fn read_blob(parameters: &[u8]) -> Option<Request<'_>>
    ensures { IsForm READ_BLOB_REQUEST parameters.now (read_blob_form parameters.now) result }
{
    match parameters {
        [low, high, offset_low, offset_high] => Some(Request::ReadBlob {
            handle: u16::from_le_bytes([*low, *high]),
            offset: u16::from_le_bytes([*offset_low, *offset_high]),
        }),
        _ => None,
    }
}

/// Parses the parameters (Core 5.0, Vol 3 Part F, 3.4.4.7).
#[tactic(auto, using(crate::proofs::Handles::handles_in_pairs, crate::proofs::Handles::handles_spelled))]
fn read_multiple(parameters: &[u8]) -> Option<Request<'_>>
    ensures { IsForm READ_MULTIPLE_REQUEST parameters.now
        (read_multiple_form parameters.now) result }
{
    match parameters.as_chunks::<2>() {
        (handles, []) if handles.len() >= 2 => Some(Request::ReadMultiple { handles }),
        _ => None,
    }
}

/// Parses the parameters (Core 5.0, Vol 3 Part F, 3.4.4.9).
#[inline(always)]
fn read_by_group_type(parameters: &[u8]) -> Option<Request<'_>>
    ensures { IsForm READ_BY_GROUP_TYPE_REQUEST parameters.now
        (read_by_group_type_form parameters.now) result }
{
    match parameters {
        [first_low, first_high, last_low, last_high, uuid @ ..] => Some(Request::ReadByGroupType {
            first: u16::from_le_bytes([*first_low, *first_high]),
            last: u16::from_le_bytes([*last_low, *last_high]),
            attribute_type: Uuid::read(uuid)?,
        }),
        _ => None,
    }
}

/// Parses the parameters (Core 5.0, Vol 3 Part F, 3.4.5.1).
fn write(parameters: &[u8]) -> Option<Request<'_>>
    ensures { IsForm WRITE_REQUEST parameters.now (write_form parameters.now) result }
{
    match parameters {
        [low, high, value @ ..] => Some(Request::Write {
            handle: u16::from_le_bytes([*low, *high]),
            value,
        }),
        _ => None,
    }
}

/// Parses the parameters (Core 5.0, Vol 3 Part F, 3.4.6.1).
fn prepare_write(parameters: &[u8]) -> Option<Request<'_>>
    ensures { IsForm PREPARE_WRITE_REQUEST parameters.now
        (prepare_write_form parameters.now) result }
{
    match parameters {
        [low, high, offset_low, offset_high, part @ ..] => Some(Request::PrepareWrite {
            handle: u16::from_le_bytes([*low, *high]),
            offset: u16::from_le_bytes([*offset_low, *offset_high]),
            part,
        }),
        _ => None,
    }
}

/// Parses the parameters (Core 5.0, Vol 3 Part F, 3.4.6.3).
fn execute_write(parameters: &[u8]) -> Option<Request<'_>>
    ensures { IsForm EXECUTE_WRITE_REQUEST parameters.now
        (execute_write_form parameters.now) result }
{
    match parameters {
        [0x00] => Some(Request::ExecuteWrite {
            flags: ExecuteFlags::Cancel,
        }),
        [0x01] => Some(Request::ExecuteWrite {
            flags: ExecuteFlags::Write,
        }),
        _ => None,
    }
}

/// Parses the parameters (Core 5.0, Vol 3 Part F, 3.4.7.3).
fn confirmation(parameters: &[u8]) -> Option<Request<'_>>
    ensures { IsForm HANDLE_VALUE_CONFIRMATION parameters.now
        (confirmation_form parameters.now) result }
{
    match parameters {
        [] => Some(Request::Confirmation),
        _ => None,
    }
}

/// Parses the parameters (Core 5.0, Vol 3 Part F, 3.4.5.3).
fn write_command(parameters: &[u8]) -> Option<Request<'_>>
    ensures { IsForm WRITE_COMMAND parameters.now (write_command_form parameters.now) result }
{
    match parameters {
        [low, high, value @ ..] => Some(Request::WriteCommand {
            handle: u16::from_le_bytes([*low, *high]),
            value,
        }),
        _ => None,
    }
}
