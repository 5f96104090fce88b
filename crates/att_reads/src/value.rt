//! Requests for values by handle (Core 5.0, Vol 3 Part F, 3.4.4.3 to 3.4.4.8).

ghost use Rattle.std.specs.Prelude.{◌≡◌, ◌-◌, [], ◌∷◌, map, take, drop};
ghost use Rattle.std.specs.Int.{w16, from_le_bytes};
ghost use Rattle.att_pdu.specs.PduBuf.{contents, mtu_of, IsSameBuffer};
ghost use Rattle.att_numbers.specs.declared.opcode.TheConstants.{READ_BLOB_REQUEST, READ_MULTIPLE_REQUEST};
ghost use Rattle.att_pdu.specs.Response.{sent, ErrorResponse, ReadBlobResponse};
ghost use Rattle.att_reads.specs.Answer.{value_answer, part_answer, multiple_answer};
ghost use Rattle.att_reads.specs.Refusals.{unless_refused, offset_refusal};

use crate::reader::Reader;
use att_numbers::{Refusal, error_code, opcode};
use att_pdu::PduBuf;
use att_policy::Standing;
use att_table::{ConfigRow, Table};

/// Responds to a Read Request.
#[inline(always)]
#[tactic(auto, unfolding(crate::specs::Answer::value_answer))]
pub fn read(reader: Reader<'_>, handle: u16, out: &mut PduBuf<'_>)
    ensures answer { contents out.new
        ≡ sent (value_answer reader.entry.table.now reader.entry.row.now reader.entry.standing.now
        (mtu_of out.old) handle) }
    ensures same_buffer { IsSameBuffer out.old out.new }
{
    match reader.read_open(handle) {
        Some(value) => out.replace_by_front(opcode::READ_RESPONSE, value),
        None => read_guarded(reader.table, reader.row, reader.standing, handle, out),
    }
}

/// Responds if not every client may read the value; out of line, to save registers.
#[inline(never)]
#[tactic(auto, unfolding(crate::specs::Answer::value_answer))]
fn read_guarded(
    table: &Table,
    row: &ConfigRow,
    standing: &Standing,
    handle: u16,
    out: &mut PduBuf<'_>,
)
    ensures answer { contents out.new
        ≡ sent (value_answer table.now row.now standing.entry.now (mtu_of out.old) handle) }
    ensures same_buffer { IsSameBuffer out.old out.new }
{
    let reader = Reader {
        table,
        row,
        standing,
    };
    match reader.read_one(handle) {
        Ok(value) => out.replace_by_front(opcode::READ_RESPONSE, value),
        Err(code) => out.error(Refusal {
            opcode: opcode::READ_REQUEST,
            handle,
            code,
        }),
    }
}

/// Responds to a Read Blob Request.
#[inline(always)]
#[tactic(auto, unfolding(crate::specs::Answer::part_answer))]
pub fn read_blob(reader: Reader<'_>, handle: u16, offset: u16, out: &mut PduBuf<'_>)
    ensures answer { contents out.new
        ≡ sent (part_answer reader.entry.table.now reader.entry.row.now reader.entry.standing.now
        (mtu_of out.old) handle offset) }
    ensures same_buffer { IsSameBuffer out.old out.new }
{
    match reader.read_open(handle) {
        Some(value) => part(value, handle, offset, out),
        None => {
            read_blob_guarded(
                reader.table,
                reader.row,
                reader.standing,
                handle,
                offset,
                out,
            );
        }
    }
}

#[inline(never)]
#[tactic(auto, unfolding(crate::specs::Answer::part_answer))]
fn read_blob_guarded(
    table: &Table,
    row: &ConfigRow,
    standing: &Standing,
    handle: u16,
    offset: u16,
    out: &mut PduBuf<'_>,
)
    ensures answer { contents out.new ≡ sent
        (part_answer table.now row.now standing.entry.now (mtu_of out.old) handle offset) }
    ensures same_buffer { IsSameBuffer out.old out.new }
{
    let reader = Reader {
        table,
        row,
        standing,
    };
    match reader.read_one(handle) {
        Ok(value) => part(value, handle, offset, out),
        Err(code) => out.error(Refusal {
            opcode: opcode::READ_BLOB_REQUEST,
            handle,
            code,
        }),
    }
}

/// Responds with the value from `offset` on.
#[inline(always)]
fn part(value: &[u8], handle: u16, offset: u16, out: &mut PduBuf<'_>)
    ensures answer { contents out.new
        ≡ sent (unless_refused READ_BLOB_REQUEST (offset_refusal handle offset value.now ∷ [])
        (ReadBlobResponse (take (mtu_of out.old - 1) (drop offset value.now)))) }
    ensures same_buffer { IsSameBuffer out.old out.new }
{
    match value.get(usize::from(offset)..) {
        Some(part) => out.replace_by_front(opcode::READ_BLOB_RESPONSE, part),
        None => out.error(Refusal {
            opcode: opcode::READ_BLOB_REQUEST,
            handle,
            code: error_code::INVALID_OFFSET,
        }),
    }
}

/// Responds to a Read Multiple Request with little-endian handles.
///
/// Checks all of them, even those whose values no longer fit.
pub fn read_multiple(reader: Reader<'_>, handles: &[[u8; 2]], out: &mut PduBuf<'_>)
    ensures answer { contents out.new ≡ sent
        (multiple_answer reader.entry.table.now reader.entry.row.now reader.entry.standing.now
        (mtu_of out.old)
        (map (from_le_bytes w16) handles.now)) }
    ensures same_buffer { IsSameBuffer out.old out.new }
{
    out.replace(&[opcode::READ_MULTIPLE_RESPONSE], &[]);
    for octets in handles {
        let handle = u16::from_le_bytes(*octets);
        match reader.read(handle) {
            Ok(value) => out.front(value),
            Err(code) => {
                refuse_multiple(handle, code, out);
                return;
            }
        }
    }
}

/// Rejects the request, out of line: saves registers in the loop.
#[inline(never)]
fn refuse_multiple(handle: u16, code: u8, out: &mut PduBuf<'_>)
    ensures refused { contents out.new
        ≡ sent (ErrorResponse READ_MULTIPLE_REQUEST handle code) }
    ensures same_buffer { IsSameBuffer out.old out.new }
{
    out.error(Refusal {
        opcode: opcode::READ_MULTIPLE_REQUEST,
        handle,
        code,
    });
}
