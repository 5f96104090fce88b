//! The words of a PDU of either side.

use crate::entries::add_entries;
use crate::handles::{Handles, add_handle};
use crate::names::{add_error, add_pdu_name, name_of_pdu};
use crate::request::{add_part, add_request, add_written};
use crate::server_pdu::{ServerPdu, read_server_pdu};
use crate::text::Text;
use att_pdu::read_request;

/// Adds what a PDU says. The ATT_MTU is not known, so its length has no limit.
pub(crate) fn add_pdu(text: &mut Text, pdu: &[u8], handles: Handles<'_>) {
    let [opcode, parameters @ ..] = pdu else {
        text.add("PDU without an opcode");
        return;
    };
    if let Ok(request) = read_request(pdu, u16::MAX) {
        add_pdu_name(text, *opcode);
        add_request(text, &request, handles);
    } else if let Some(pdu) = read_server_pdu(*opcode, parameters) {
        add_pdu_name(text, *opcode);
        add_server_pdu(text, &pdu, handles);
    } else {
        if name_of_pdu(*opcode).is_some() {
            text.add("malformed ");
        }
        add_pdu_name(text, *opcode);
    }
}

/// Adds the parameters of a PDU after its name.
fn add_server_pdu(text: &mut Text, pdu: &ServerPdu<'_>, handles: Handles<'_>) {
    match *pdu {
        ServerPdu::Error {
            opcode,
            handle,
            code,
        } => {
            text.add(": ");
            add_pdu_name(text, opcode);
            text.add(" of handle ");
            add_handle(text, handle, handles);
            text.add(", ");
            add_error(text, code);
        }
        ServerPdu::ExchangeMtu { server_rx_mtu } => {
            text.add(": Server Rx MTU ");
            text.add_number(server_rx_mtu);
        }
        ServerPdu::Entries { form, size, octets } => {
            add_entries(text, form, size, octets, handles);
        }
        ServerPdu::Value(value) => {
            text.add(": ");
            text.add_value(value);
        }
        ServerPdu::Done => {}
        ServerPdu::Prepared {
            handle,
            offset,
            part,
        } => add_part(text, handle, offset, part, handles),
        ServerPdu::HandleValue { handle, value } => add_written(text, handle, value, handles),
        ServerPdu::Signed { handle, value } => {
            add_written(text, handle, value, handles);
            text.add(", signature of 12 octets");
        }
    }
}
