//! The words of PDUs that clients send.

use crate::handles::{Handles, add_handle, add_range};
use crate::text::Text;
use crate::types::add_type;
use att_pdu::{ExecuteFlags, Request, Uuid};

/// The most handles of a Read Multiple Request that are shown.
const SHOWN: usize = 8;

/// Adds the parameters of a PDU after its name.
pub(crate) fn add_request(text: &mut Text, request: &Request<'_>, handles: Handles<'_>) {
    match *request {
        Request::ExchangeMtu { client_rx_mtu } => {
            text.add(": Client Rx MTU ");
            text.add_number(client_rx_mtu);
        }
        Request::FindInformation { first, last } => {
            text.add(": ");
            add_range(text, first, last);
        }
        Request::FindByTypeValue {
            first,
            last,
            attribute_type,
            value,
        } => {
            add_search(text, first, last, &attribute_type.to_le_bytes());
            text.add(", ");
            text.add_value(value);
        }
        Request::ReadByType {
            first,
            last,
            attribute_type,
        }
        | Request::ReadByGroupType {
            first,
            last,
            attribute_type,
        } => add_typed_search(text, first, last, attribute_type),
        Request::Read { handle } => add_one(text, handle, handles),
        Request::ReadBlob { handle, offset } => {
            add_one(text, handle, handles);
            text.add(", offset ");
            text.add_number(offset);
        }
        Request::ReadMultiple { handles: asked } => add_several(text, asked, handles),
        Request::Write { handle, value } | Request::WriteCommand { handle, value } => {
            add_written(text, handle, value, handles);
        }
        Request::PrepareWrite {
            handle,
            offset,
            part,
        } => add_part(text, handle, offset, part, handles),
        Request::ExecuteWrite { flags } => text.add(match flags {
            ExecuteFlags::Cancel => ": cancel all prepared writes",
            ExecuteFlags::Write => ": write all prepared values",
        }),
        Request::Confirmation => {}
    }
}

fn add_one(text: &mut Text, handle: u16, handles: Handles<'_>) {
    text.add(": handle ");
    add_handle(text, handle, handles);
}

/// Adds a handle and a value.
pub(crate) fn add_written(text: &mut Text, handle: u16, value: &[u8], handles: Handles<'_>) {
    add_one(text, handle, handles);
    text.add(", ");
    text.add_value(value);
}

/// Adds a handle, an offset and a part of a value.
pub(crate) fn add_part(
    text: &mut Text,
    handle: u16,
    offset: u16,
    part: &[u8],
    handles: Handles<'_>,
) {
    add_one(text, handle, handles);
    text.add(", offset ");
    text.add_number(offset);
    text.add(", ");
    text.add_value(part);
}

fn add_search(text: &mut Text, first: u16, last: u16, attribute_type: &[u8]) {
    text.add(": ");
    add_range(text, first, last);
    text.add(", ");
    add_type(text, attribute_type);
}

fn add_typed_search(text: &mut Text, first: u16, last: u16, attribute_type: Uuid) {
    match attribute_type {
        Uuid::Short(short) => add_search(text, first, last, &short.to_le_bytes()),
        Uuid::Long(long) => add_search(text, first, last, &long.to_le_bytes()),
    }
}

fn add_several(text: &mut Text, asked: &[[u8; 2]], handles: Handles<'_>) {
    text.add(": handles ");
    let (shown, left) = asked.split_at(asked.len().min(SHOWN));
    let mut separator = "";
    for handle in shown {
        text.add(separator);
        add_handle(text, u16::from_le_bytes(*handle), handles);
        separator = ", ";
    }
    if !left.is_empty() {
        text.add(" and ");
        text.add_count(left.len());
        text.add(" more");
    }
}
