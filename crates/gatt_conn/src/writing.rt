//! Write requests and commands (Core 5.0, Vol 3 Part F, 3.4.5 and 3.4.6).

ghost use Rattle.std.specs.Prelude.{◌≡◌, ◌+◌, ◌≤◌, false, [], length, Some, Ok};
ghost use Rattle.att_pdu.specs.PduBuf.{mtu_of};
ghost use Rattle.att_pdu.specs.Request.{WriteRequest, ExecuteWriteRequest, WriteCommandPdu};
ghost use Rattle.att_pdu.specs.Response.{ExecuteWriteResponse};
ghost use Rattle.att_table.specs.ConfigRow.{IsRowOf};
ghost use Rattle.att_writes.specs.Leaves.{LeavesStored};
ghost use Rattle.att_writes.specs.Queue.{prepare_fault, queue_after};
ghost use Rattle.gatt_conn.specs.Answer.{entry_at, prepare_response, answer_to, stored_by, handles_by};
ghost use Rattle.gatt_conn.specs.Served.{ServesRequest};

use crate::answered::Served;
use crate::conn::Conn;
use crate::serving::{refuse, with_answer, without_answer};
use att_numbers::opcode;
use att_pdu::{ExecuteFlags, PduBuf};
use att_table::{ConfigRow, Table};
use att_writes::Touched;

/// Serves a Write Request (Core 5.0, Vol 3 Part F, 3.4.5.1).
pub(crate) fn write(
    table: &mut Table,
    row: &mut ConfigRow,
    conn: &Conn,
    handle: u16,
    value: &[u8],
    out: &mut PduBuf<'_>,
    touched: &mut Touched,
) -> Served
    requires untouched { touched.old.items ≡ [] }
    requires row { IsRowOf table.old.attributes row.old }
    ensures served { ServesRequest (answer_to table.old row.old conn.now
        (Ok (WriteRequest handle value.now))) out.old out.new result }
    ensures touched { touched.new.items
        ≡ handles_by table.old row.old conn.now (Ok (WriteRequest handle value.now)) }
    ensures left { LeavesStored (stored_by table.old row.old conn.now
        (Ok (WriteRequest handle value.now))) table.old table.new row.new }
{
    match att_writes::write(table, row, conn.standing(), handle, value) {
        Err(refusal) => refuse(refusal, out),
        Ok(()) => {
            out.replace(&[opcode::WRITE_RESPONSE], &[]);
            touched.push(handle);
            with_answer()
        }
    }
}

/// Serves a Write Command (Core 5.0, Vol 3 Part F, 3.4.5.3).
pub(crate) fn command(
    table: &mut Table,
    row: &mut ConfigRow,
    conn: &Conn,
    handle: u16,
    value: &[u8],
    touched: &mut Touched,
) -> Served
    requires untouched { touched.old.items ≡ [] }
    requires row { IsRowOf table.old.attributes row.old }
    ensures due { result.due ≡ false }
    ensures touched { touched.new.items
        ≡ handles_by table.old row.old conn.now (Ok (WriteCommandPdu handle value.now)) }
    ensures left { LeavesStored (stored_by table.old row.old conn.now
        (Ok (WriteCommandPdu handle value.now))) table.old table.new row.new }
    ensures confirmed { result.confirmed ≡ false }
{
    match att_writes::command(table, row, conn.standing(), handle, value) {
        Err(_) => without_answer(false),
        Ok(()) => {
            touched.push(handle);
            without_answer(false)
        }
    }
}

/// Serves a Prepare Write Request (Core 5.0, Vol 3 Part F, 3.4.6.1).
pub(crate) fn prepare(
    table: &Table,
    conn: &mut Conn,
    handle: u16,
    offset: u16,
    part: &[u8],
    out: &mut PduBuf<'_>,
) -> Served
    requires fits { 5 + length part.now ≤ mtu_of out.old }
    ensures served { ServesRequest (Some (prepare_response (entry_at handle offset part.now)
        (prepare_fault table.now.attributes conn.old.standing conn.old.queue
        (entry_at handle offset part.now)))) out.old out.new result }
    ensures conn { conn.new ≡ record conn.old {
      queue = queue_after conn.old.queue (entry_at handle offset part.now)
          (prepare_fault table.now.attributes conn.old.standing conn.old.queue
          (entry_at handle offset part.now));
    } }
{
    match conn.prepare(table, handle, offset, part) {
        Err(refusal) => refuse(refusal, out),
        Ok(()) => {
            let [handle_low, handle_high] = handle.to_le_bytes();
            let [offset_low, offset_high] = offset.to_le_bytes();
            out.replace(
                &[
                    opcode::PREPARE_WRITE_RESPONSE,
                    handle_low,
                    handle_high,
                    offset_low,
                    offset_high,
                ],
                part,
            );
            with_answer()
        }
    }
}

/// Serves an Execute Write Request that cancels (Core 5.0, Vol 3 Part F, 3.4.6.3).
#[inline(always)]
pub(crate) fn cancel(conn: &mut Conn, out: &mut PduBuf<'_>) -> Served
    ensures served { ServesRequest (Some ExecuteWriteResponse) out.old out.new result }
    ensures conn { conn.new ≡ record conn.old { queue = [] } }
{
    conn.cancel();
    out.replace(&[opcode::EXECUTE_WRITE_RESPONSE], &[]);
    with_answer()
}

/// Serves an Execute Write Request that writes (Core 5.0, Vol 3 Part F, 3.4.6.3).
#[inline(always)]
pub(crate) fn execute(
    table: &mut Table,
    row: &mut ConfigRow,
    conn: &mut Conn,
    out: &mut PduBuf<'_>,
    touched: &mut Touched,
) -> Served
    requires row { IsRowOf table.old.attributes row.old }
    ensures served { ServesRequest (answer_to table.old row.old conn.old
        (Ok (ExecuteWriteRequest ExecuteFlags.Write))) out.old out.new result }
    ensures touched { touched.new.items
        ≡ handles_by table.old row.old conn.old (Ok (ExecuteWriteRequest ExecuteFlags.Write)) }
    ensures left { LeavesStored (stored_by table.old row.old conn.old
        (Ok (ExecuteWriteRequest ExecuteFlags.Write))) table.old table.new row.new }
    ensures conn { conn.new ≡ record conn.old { queue = [] } }
{
    match conn.execute(table, row, touched) {
        Err(refusal) => refuse(refusal, out),
        Ok(()) => {
            out.replace(&[opcode::EXECUTE_WRITE_RESPONSE], &[]);
            with_answer()
        }
    }
}
