//! Serves one PDU, by its opcode and then its format.

ghost use Rattle.std.specs.Prelude.{◌≡◌, true, false, [], ◌∷◌, drop, Some};
ghost use Rattle.att_pdu.specs.Grammar.{request_of};
ghost use Rattle.att_pdu.specs.PduBuf.{mtu_of};
ghost use Rattle.att_pdu.specs.Response.{ErrorResponse, ExchangeMtuResponse};
ghost use Rattle.att_table.specs.ConfigRow.{IsRowOf};
ghost use Rattle.gatt_conn.specs.Answer.{answer_to};
ghost use Rattle.gatt_conn.specs.Connection.{after_exchange};
ghost use Rattle.gatt_conn.specs.Served.{ServesPdu, ServesRequest, IsAnswered};

use crate::answered::Served;
use crate::conn::Conn;
use crate::writing::{cancel, command, execute, prepare, write};
use att_numbers::{Refusal, error_code, opcode};
use att_pdu::{ExecuteFlags, PduBuf, PduFault, Request, fault_of, read_parameters};
use att_reads::answer_read;
use att_table::{ConfigRow, Table};
use att_writes::Touched;

/// Calls `dispatch` out of line, to save registers.
#[inline(never)]
pub(crate) fn serve_apart(
    table: &mut Table,
    row: &mut ConfigRow,
    conn: &mut Conn,
    pdu: &[u8],
    out: &mut PduBuf<'_>,
    touched: &mut Touched,
) -> Served
    requires bound { mtu_of out.old ≡ conn.old.mtu }
    requires untouched { touched.old.items ≡ [] }
    requires row { IsRowOf table.old.attributes row.old }

    ensures served { ServesPdu
        (answer_to table.old row.old conn.old (request_of pdu.now conn.old.mtu)) out.old out.new
        result }
    ensures answered { IsAnswered pdu.now table.old table.new row.old row.new conn.old conn.new
        touched.new.items result.confirmed }
{
    dispatch(table, row, conn, pdu, out, touched)
}

/// Clears `touched`, usually at most one handle, and serves a PDU.
#[inline(never)]
pub(crate) fn forget_and_serve(
    table: &mut Table,
    row: &mut ConfigRow,
    conn: &mut Conn,
    pdu: &[u8],
    out: &mut PduBuf<'_>,
    touched: &mut Touched,
) -> Served
    requires bound { mtu_of out.old ≡ conn.old.mtu }
    requires row { IsRowOf table.old.attributes row.old }

    ensures served { ServesPdu
        (answer_to table.old row.old conn.old (request_of pdu.now conn.old.mtu)) out.old out.new
        result }
    ensures answered { IsAnswered pdu.now table.old table.new row.old row.new conn.old conn.new
        touched.new.items result.confirmed }
{
    match touched.len() {
        0 => {}
        1 => {
            touched.pop();
        }
        _ => return clear_and_serve(table, row, conn, pdu, out, touched),
    }
    dispatch(table, row, conn, pdu, out, touched)
}

/// Clears two or more handles; out of line, to save registers.
#[inline(never)]
fn clear_and_serve(
    table: &mut Table,
    row: &mut ConfigRow,
    conn: &mut Conn,
    pdu: &[u8],
    out: &mut PduBuf<'_>,
    touched: &mut Touched,
) -> Served
    requires bound { mtu_of out.old ≡ conn.old.mtu }
    requires row { IsRowOf table.old.attributes row.old }

    ensures served { ServesPdu
        (answer_to table.old row.old conn.old (request_of pdu.now conn.old.mtu)) out.old out.new
        result }
    ensures answered { IsAnswered pdu.now table.old table.new row.old row.new conn.old conn.new
        touched.new.items result.confirmed }
{
    touched.clear();
    dispatch(table, row, conn, pdu, out, touched)
}

/// Serves a PDU; `touched` is empty, and `out` stays unchanged without a response.
#[inline(always)]
#[tactic(auto, unfolding(att_pdu::specs::Form::form_of))]
fn dispatch(
    table: &mut Table,
    row: &mut ConfigRow,
    conn: &mut Conn,
    pdu: &[u8],
    out: &mut PduBuf<'_>,
    touched: &mut Touched,
) -> Served
    requires bound { mtu_of out.old ≡ conn.old.mtu }
    requires untouched { touched.old.items ≡ [] }
    requires row { IsRowOf table.old.attributes row.old }

    ensures served { ServesPdu
        (answer_to table.old row.old conn.old (request_of pdu.now conn.old.mtu)) out.old out.new
        result }
    ensures answered { IsAnswered pdu.now table.old table.new row.old row.new conn.old conn.new
        touched.new.items result.confirmed }
{
    let [opcode, ..] = pdu else {
        return without_answer(false);
    };
    match *opcode {
        opcode::READ_REQUEST => serve_opcode::<{ opcode::READ_REQUEST }>(
            table, row, conn, pdu, out, touched,
        ),
        opcode::READ_BLOB_REQUEST => serve_opcode::<{ opcode::READ_BLOB_REQUEST }>(
            table, row, conn, pdu, out, touched,
        ),
        opcode::READ_MULTIPLE_REQUEST => serve_opcode::<{ opcode::READ_MULTIPLE_REQUEST }>(
            table, row, conn, pdu, out, touched,
        ),
        opcode::READ_BY_TYPE_REQUEST => serve_opcode::<{ opcode::READ_BY_TYPE_REQUEST }>(
            table, row, conn, pdu, out, touched,
        ),
        opcode::READ_BY_GROUP_TYPE_REQUEST => serve_opcode::<
            { opcode::READ_BY_GROUP_TYPE_REQUEST },
        >(table, row, conn, pdu, out, touched),
        opcode::FIND_INFORMATION_REQUEST => serve_opcode::<{ opcode::FIND_INFORMATION_REQUEST }>(
            table, row, conn, pdu, out, touched,
        ),
        opcode::FIND_BY_TYPE_VALUE_REQUEST => serve_opcode::<
            { opcode::FIND_BY_TYPE_VALUE_REQUEST },
        >(table, row, conn, pdu, out, touched),
        opcode::EXCHANGE_MTU_REQUEST => serve_opcode::<{ opcode::EXCHANGE_MTU_REQUEST }>(
            table, row, conn, pdu, out, touched,
        ),
        opcode::WRITE_REQUEST => serve_opcode::<{ opcode::WRITE_REQUEST }>(
            table, row, conn, pdu, out, touched,
        ),
        opcode::WRITE_COMMAND => serve_opcode::<{ opcode::WRITE_COMMAND }>(
            table, row, conn, pdu, out, touched,
        ),
        opcode::PREPARE_WRITE_REQUEST => serve_opcode::<{ opcode::PREPARE_WRITE_REQUEST }>(
            table, row, conn, pdu, out, touched,
        ),
        opcode::EXECUTE_WRITE_REQUEST => serve_opcode::<{ opcode::EXECUTE_WRITE_REQUEST }>(
            table, row, conn, pdu, out, touched,
        ),
        opcode::HANDLE_VALUE_CONFIRMATION => serve_opcode::<{ opcode::HANDLE_VALUE_CONFIRMATION }>(
            table, row, conn, pdu, out, touched,
        ),
        other => match fault_of(other) {
            PduFault::Ignored => without_answer(false),
            PduFault::Invalid(opcode) => refuse(of_pdu(opcode, error_code::INVALID_PDU), out),
            PduFault::Unsupported(opcode) => {
                refuse(of_pdu(opcode, error_code::REQUEST_NOT_SUPPORTED), out)
            }
        },
    }
}

/// Serves one opcode, in a separate copy that tests for no other.
#[inline(never)]
fn serve_opcode<const OPCODE: u8>(
    table: &mut Table,
    row: &mut ConfigRow,
    conn: &mut Conn,
    pdu: &[u8],
    out: &mut PduBuf<'_>,
    touched: &mut Touched,
) -> Served
    requires opcode { pdu.now ≡ OPCODE ∷ drop 1 pdu.now }
    requires bound { mtu_of out.old ≡ conn.old.mtu }
    requires untouched { touched.old.items ≡ [] }
    requires row { IsRowOf table.old.attributes row.old }

    ensures served { ServesPdu
        (answer_to table.old row.old conn.old (request_of pdu.now conn.old.mtu)) out.old out.new
        result }
    ensures answered { IsAnswered pdu.now table.old table.new row.old row.new conn.old conn.new
        touched.new.items result.confirmed }
{
    serve_form(table, row, conn, OPCODE, &pdu[1..], out, touched)
}

#[inline(always)]
#[tactic(auto, unfolding(att_pdu::specs::Form::form_of))]
fn serve_form(
    table: &mut Table,
    row: &mut ConfigRow,
    conn: &mut Conn,
    opcode: u8,
    parameters: &[u8],
    out: &mut PduBuf<'_>,
    touched: &mut Touched,
) -> Served
    requires bound { mtu_of out.old ≡ conn.old.mtu }
    requires untouched { touched.old.items ≡ [] }
    requires row { IsRowOf table.old.attributes row.old }

    ensures served { ServesPdu (answer_to table.old row.old conn.old
        (request_of (opcode ∷ parameters.now) conn.old.mtu)) out.old out.new result }
    ensures answered { IsAnswered (opcode ∷ parameters.now) table.old table.new row.old row.new
        conn.old conn.new touched.new.items result.confirmed }
{
    match read_parameters(opcode, parameters, conn.mtu()) {
        Ok(Request::ExchangeMtu { client_rx_mtu }) => exchange_mtu(conn, client_rx_mtu, out),
        Ok(Request::Write { handle, value }) => write(
            table, row, conn, handle, value, out, touched,
        ),
        Ok(Request::WriteCommand { handle, value }) => command(
            table, row, conn, handle, value, touched,
        ),
        Ok(
            Request::PrepareWrite {
                handle,
                offset,
                part,
            },
        ) => prepare(table, conn, handle, offset, part, out),
        Ok(
            Request::ExecuteWrite {
                flags: ExecuteFlags::Cancel,
            },
        ) => cancel(conn, out),
        Ok(
            Request::ExecuteWrite {
                flags: ExecuteFlags::Write,
            },
        ) => execute(table, row, conn, out, touched),
        Ok(Request::Confirmation) => without_answer(true),
        Ok(
            request @ (Request::FindInformation { .. }
            | Request::FindByTypeValue { .. }
            | Request::ReadByType { .. }
            | Request::Read { .. }
            | Request::ReadBlob { .. }
            | Request::ReadMultiple { .. }
            | Request::ReadByGroupType { .. }),
        ) => {
            answer_read(table, row, conn.standing(), &request, conn.mtu(), out);
            with_answer()
        }
        Err(PduFault::Ignored) => without_answer(false),
        Err(PduFault::Invalid(opcode)) => refuse(of_pdu(opcode, error_code::INVALID_PDU), out),
        Err(PduFault::Unsupported(opcode)) => {
            refuse(of_pdu(opcode, error_code::REQUEST_NOT_SUPPORTED), out)
        }
    }
}

pub(crate) fn without_answer(confirmed: bool) -> Served
    ensures due { result.due ≡ false }
    ensures confirmed { result.confirmed ≡ confirmed }
{
    Served {
        due: false,
        confirmed,
    }
}

pub(crate) fn with_answer() -> Served
    ensures due { result.due ≡ true }
    ensures confirmed { result.confirmed ≡ false }
{
    Served {
        due: true,
        confirmed: false,
    }
}

/// Serves an Exchange MTU Request (Core 5.0, Vol 3 Part F, 3.4.2).
fn exchange_mtu(conn: &mut Conn, client_rx_mtu: u16, out: &mut PduBuf<'_>) -> Served
    ensures served { ServesRequest (Some (ExchangeMtuResponse conn.old.rx_mtu)) out.old out.new
        result }
    ensures conn { conn.new ≡ after_exchange conn.old client_rx_mtu }
{
    let rx_mtu = conn.rx_mtu();
    // The response is last, so that no registers are saved across it.
    conn.exchange(client_rx_mtu);
    out.exchange_mtu(rx_mtu);
    with_answer()
}

/// Returns the refusal of a PDU that concerns no attribute.
#[inline(always)]
fn of_pdu(opcode: u8, code: u8) -> Refusal
    ensures opcode { result.opcode ≡ opcode }
    ensures handle { result.handle ≡ 0 }
    ensures code { result.code ≡ code }
{
    Refusal {
        opcode,
        handle: 0,
        code,
    }
}

#[inline(never)]
pub(crate) fn refuse(refusal: Refusal, out: &mut PduBuf<'_>) -> Served
    ensures { ServesRequest
        (Some (ErrorResponse refusal.opcode refusal.handle refusal.code)) out.old out.new result }
{
    out.error(refusal);
    with_answer()
}
