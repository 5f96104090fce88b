ghost use Rattle.std.specs.Prelude.{◌≡◌, ◌≤◌, nat_lt, ◌==◌, ◌||◌, not, length};
ghost use Rattle.att_numbers.specs.AttributeType.{of_16_bits};
ghost use Rattle.att_pdu.specs.PduBuf.{contents, mtu_of, IsSameBuffer};
ghost use Rattle.att_pdu.specs.Request.{asked};
ghost use Rattle.att_pdu.specs.Response.{sent, sent_if_any};
ghost use Rattle.att_table.specs.Table.{Contents};
ghost use Rattle.att_reads.specs.Access.{IsAlike};
ghost use Rattle.att_reads.specs.Answer.{information_answer, found_answer, values_answer, groups_answer, read_answer};

use crate::list::Listing;
use crate::reader::Reader;
use crate::{find, list, value};
use att_numbers::{Refusal, error_code, opcode};
use att_pdu::{PduBuf, Request, Uuid};
use att_policy::Standing;
use att_table::{ConfigRow, Table, Uncounted, is_service};

/// Writes to `out` the response to a request that reads; empty for other requests.
///
/// The requests are those of Core 5.0, Vol 3 Part F, 3.4.3 and 3.4.4. `row` has the client's
/// configurations, `standing` its security state; `mtu` is the ATT_MTU of `out`.
#[inline(always)]
#[tactic(auto, using(crate::proofs::Alike::alike))]
pub fn answer_read(
    table: &Table,
    row: &ConfigRow,
    standing: &Standing,
    request: &Request<'_>,
    mtu: u16,
    out: &mut PduBuf<'_>,
)
    requires mtu { mtu_of out.old ≡ mtu }
    // The answer has exactly the octets of the definition.
    ensures answer { contents out.new
        ≡ sent_if_any (read_answer table.now row.now standing.entry.now mtu (asked request.now)) }
    // The response is independent of values that the client may not read.
    ensures undisclosed { (other : Contents) → IsAlike standing.entry.now table.now other
        → contents out.new ≡ sent_if_any
        (read_answer other row.now standing.entry.now mtu (asked request.now)) }
    // It never exceeds the ATT_MTU.
    ensures fits { length (sent_if_any
        (read_answer table.now row.now standing.entry.now mtu (asked request.now))) ≤ mtu }
    ensures same_buffer { IsSameBuffer out.old out.new }
{
    let reader = Reader {
        table,
        row,
        standing,
    };
    answer_to(reader, request, out);
}

#[inline(always)]
fn answer_to(reader: Reader<'_>, request: &Request<'_>, out: &mut PduBuf<'_>)
    ensures answer { contents out.new ≡ sent_if_any
        (read_answer reader.entry.table.now reader.entry.row.now reader.entry.standing.now
        (mtu_of out.old) (asked request.now)) }
    ensures same_buffer { IsSameBuffer out.old out.new }
{
    match *request {
        Request::FindInformation { first, last } => {
            find_information(reader.table, first, last, out);
        }
        Request::FindByTypeValue {
            first,
            last,
            attribute_type,
            value,
        } => find_by_type_value(reader, first, last, attribute_type, value, out),
        Request::ReadByType {
            first,
            last,
            attribute_type,
        } => read_by_type(reader, first, last, attribute_type.number(), out),
        Request::Read { handle } => value::read(reader, handle, out),
        Request::ReadBlob { handle, offset } => value::read_blob(reader, handle, offset, out),
        Request::ReadMultiple { handles } => value::read_multiple(reader, handles, out),
        Request::ReadByGroupType {
            first,
            last,
            attribute_type,
        } => read_by_group_type(reader, first, last, attribute_type.number(), out),
        Request::ExchangeMtu { .. }
        | Request::Write { .. }
        | Request::PrepareWrite { .. }
        | Request::ExecuteWrite { .. }
        | Request::Confirmation
        | Request::WriteCommand { .. } => out.clear(),
    }
}

/// Returns true if a range is valid (Core 5.0, Vol 3 Part F, 3.4.3.1).
fn is_range(first: u16, last: u16) -> bool
    ensures { result ≡ not ((first == 0) || nat_lt last first) }
{
    first != 0 && first <= last
}

#[tactic(auto, unfolding(crate::specs::Answer::information_answer))]
fn find_information(table: &Table, first: u16, last: u16, out: &mut PduBuf<'_>)
    ensures answer { contents out.new
        ≡ sent (information_answer table.now (mtu_of out.old) first last) }
    ensures same_buffer { IsSameBuffer out.old out.new }
{
    if !is_range(first, last) {
        out.error(Refusal {
            opcode: opcode::FIND_INFORMATION_REQUEST,
            handle: first,
            code: error_code::INVALID_HANDLE,
        });
        return;
    }
    find::information(table.in_range(first, last), first, out);
}

#[tactic(auto, unfolding(crate::specs::Answer::found_answer))]
fn find_by_type_value(
    reader: Reader<'_>,
    first: u16,
    last: u16,
    attribute_type: u16,
    value: &[u8],
    out: &mut PduBuf<'_>,
)
    ensures answer { contents out.new
        ≡ sent (found_answer reader.entry.table.now reader.entry.row.now reader.entry.standing.now
        (mtu_of out.old) first last (of_16_bits attribute_type) value.now) }
    ensures same_buffer { IsSameBuffer out.old out.new }
{
    if !is_range(first, last) {
        out.error(Refusal {
            opcode: opcode::FIND_BY_TYPE_VALUE_REQUEST,
            handle: first,
            code: error_code::INVALID_HANDLE,
        });
        return;
    }
    let attribute_type = Uuid::Short(attribute_type).number();
    let handles = reader
        .table
        .of_type(attribute_type, first, last, &mut Uncounted);
    find::by_type_value(reader, handles, first, value, out);
}

#[tactic(auto, unfolding(crate::specs::Answer::values_answer))]
fn read_by_type(
    reader: Reader<'_>,
    first: u16,
    last: u16,
    attribute_type: u128,
    out: &mut PduBuf<'_>,
)
    ensures answer { contents out.new ≡ sent
        (values_answer reader.entry.table.now reader.entry.row.now reader.entry.standing.now
        (mtu_of out.old) first last attribute_type) }
    ensures same_buffer { IsSameBuffer out.old out.new }
{
    if !is_range(first, last) {
        out.error(Refusal {
            opcode: opcode::READ_BY_TYPE_REQUEST,
            handle: first,
            code: error_code::INVALID_HANDLE,
        });
        return;
    }
    let handles = reader
        .table
        .of_type(attribute_type, first, last, &mut Uncounted);
    list::answer(Listing::Values, reader, handles, first, out);
}

/// Responds to a Read By Group Type Request; only services can be read so.
#[tactic(auto, unfolding(crate::specs::Answer::groups_answer))]
fn read_by_group_type(
    reader: Reader<'_>,
    first: u16,
    last: u16,
    attribute_type: u128,
    out: &mut PduBuf<'_>,
)
    ensures answer { contents out.new ≡ sent
        (groups_answer reader.entry.table.now reader.entry.row.now reader.entry.standing.now
        (mtu_of out.old) first last attribute_type) }
    ensures same_buffer { IsSameBuffer out.old out.new }
{
    if !is_range(first, last) {
        out.error(Refusal {
            opcode: opcode::READ_BY_GROUP_TYPE_REQUEST,
            handle: first,
            code: error_code::INVALID_HANDLE,
        });
        return;
    }
    if !is_service(attribute_type) {
        out.error(Refusal {
            opcode: opcode::READ_BY_GROUP_TYPE_REQUEST,
            handle: first,
            code: error_code::UNSUPPORTED_GROUP_TYPE,
        });
        return;
    }
    let handles = reader
        .table
        .of_type(attribute_type, first, last, &mut Uncounted);
    list::answer(Listing::Groups, reader, handles, first, out);
}
