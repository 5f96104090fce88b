ghost use Rattle.std.specs.Prelude.{◌≡◌, ◌≤◌, length, take, is_some, Some, None, if◌then◌else◌, IfSome};
ghost use Rattle.std.specs.Option.{option_map};
ghost use Rattle.att_pdu.specs.Grammar.{request_of, is_due};
ghost use Rattle.att_pdu.specs.PduBuf.{contents, mtu_of, IsSameBuffer};
ghost use Rattle.att_pdu.specs.Response.{sent, sent_if_any};
ghost use Rattle.att_table.specs.ConfigRow.{IsRowOf};
ghost use Rattle.gatt_conn.specs.Answer.{answer_to};
ghost use Rattle.gatt_conn.specs.Served.{IsAnswered};
ghost use Rattle.octet_io.specs.declared.pdu.TheConstants.{MAX_PDU};

use crate::conn::Conn;
use crate::serving::{forget_and_serve, serve_apart};
use att_pdu::PduBuf;
use att_table::{ConfigRow, Table};
use att_writes::Touched;
use octet_io::PduOctets;

/// The result of a PDU, apart from the response.
#[derive(Debug, Drop)]
pub struct Answered {
    /// There is a response.
    pub due: bool,
    /// The PDU confirms an indication.
    pub confirmed: bool,
    /// The written handles, each once, in the order of their first writes.
    pub touched: Touched,
}

/// The result of a PDU for `answer_into`.
#[derive(Clone, Copy, Drop)]
pub struct Served {
    pub due: bool,
    pub confirmed: bool,
}

/// The result of a PDU for `answer_over`.
#[derive(Clone, Copy)]
pub struct Placed {
    /// The response's length, if there is one.
    pub len: Option<usize>,
    pub confirmed: bool,
}

/// Serves one PDU: writes the response to `out` and makes permitted changes.
///
/// `out` is empty without a response and must have the connection's ATT_MTU. `row` has the client's
/// configurations of this table.
#[tactic(auto, using(crate::proofs::Dues::answered_where_due, crate::proofs::Dues::put_where_there, crate::proofs::Dues::nothing_where_none), unfolding(att_pdu::specs::Form::form_of))]
pub fn answer(
    table: &mut Table,
    row: &mut ConfigRow,
    conn: &mut Conn,
    pdu: &[u8],
    out: &mut PduBuf<'_>,
) -> Answered
    requires bound { mtu_of out.old ≡ conn.old.mtu }
    requires row { IsRowOf table.old.attributes row.old }

    // One PDU of one connection gets exactly the response of the definition.
    ensures answer { contents out.new
        ≡ sent_if_any (answer_to table.old row.old conn.old (request_of pdu.now conn.old.mtu)) }
    ensures due { result.due ≡ is_due (request_of pdu.now conn.old.mtu) }
    // It leaves exactly the values, row and connection of the definition.
    ensures answered { IsAnswered pdu.now table.old table.new row.old row.new conn.old conn.new
        result.touched.items result.confirmed }
    ensures same_buffer { IsSameBuffer out.old out.new }

    ensures where_due { is_some (answer_to table.old row.old conn.old
        (request_of pdu.now conn.old.mtu)) ≡ is_due (request_of pdu.now conn.old.mtu) }
{
    // Created before its list is filled, so that no list is moved.
    let mut answered = Answered {
        due: false,
        confirmed: false,
        touched: Touched::new(),
    };
    let served = serve_apart(table, row, conn, pdu, out, &mut answered.touched);
    if !served.due {
        out.clear();
    }
    answered.due = served.due;
    answered.confirmed = served.confirmed;
    answered
}

/// Serves one PDU and replaces the contents of `octets` and `touched`.
///
/// `touched` lists each written handle once, in the order of first writes. Without a response,
/// `octets` may still hold its former contents.
#[inline(always)]
#[tactic(auto, using(crate::proofs::Dues::answered_where_due, crate::proofs::Dues::sent_where_due, att_pdu::proofs::Ends::whole))]
pub fn answer_into(
    table: &mut Table,
    row: &mut ConfigRow,
    conn: &mut Conn,
    pdu: &[u8],
    octets: &mut PduOctets,
    touched: &mut Touched,
) -> Served
    requires row { IsRowOf table.old.attributes row.old }

    ensures answer { option_map sent
        (answer_to table.old row.old conn.old (request_of pdu.now conn.old.mtu))
        ≡ (if is_due (request_of pdu.now conn.old.mtu) then Some octets.new.items else None) }
    ensures due { result.due ≡ is_due (request_of pdu.now conn.old.mtu) }
    ensures fits { length octets.new.items ≤ conn.old.mtu }
    ensures answered { IsAnswered pdu.now table.old table.new row.old row.new conn.old conn.new
        touched.new.items result.confirmed }
{
    let mut out = PduBuf::of(octets, conn.mtu());
    forget_and_serve(table, row, conn, pdu, &mut out, touched)
}

/// Serves one PDU like `answer_into`, with the response at the start of `octets`.
///
/// `octets` must have full length, and keeps it.
#[inline(always)]
#[tactic(auto, using(crate::proofs::Dues::answered_where_due, crate::proofs::Dues::placed_where_due))]
pub fn answer_over(
    table: &mut Table,
    row: &mut ConfigRow,
    conn: &mut Conn,
    pdu: &[u8],
    octets: &mut PduOctets,
    touched: &mut Touched,
) -> Placed
    requires room { length octets.old.items ≡ MAX_PDU }
    requires row { IsRowOf table.old.attributes row.old }

    ensures answer { option_map sent
        (answer_to table.old row.old conn.old (request_of pdu.now conn.old.mtu))
        ≡ option_map (λ len. take len octets.new.items) result.len }
    ensures due { is_some result.len ≡ is_due (request_of pdu.now conn.old.mtu) }
    ensures fits { IfSome result.len (λ len. len ≤ conn.old.mtu) }
    ensures within { IfSome result.len (λ len. len ≤ length octets.new.items) }
    ensures answered { IsAnswered pdu.now table.old table.new row.old row.new conn.old conn.new
        touched.new.items result.confirmed }
{
    let mut out = PduBuf::over(octets, conn.mtu());
    let served = forget_and_serve(table, row, conn, pdu, &mut out, touched);
    Placed {
        len: if served.due {
            Some(out.len_over())
        } else {
            None
        },
        confirmed: served.confirmed,
    }
}
