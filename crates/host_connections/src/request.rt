//! Requests of the Attribute Protocol on the connection of a slot.

ghost use Rattle.std.specs.Prelude.{◌≡◌, ◌<◌, ◌==◌, ◌&&◌, true, false, IsSome, is_some, length, if◌then◌else◌, None, IfSome};
ghost use Rattle.std.specs.Bool.{OnFalse};
ghost use Rattle.std.specs.Option.{option_map, option_map_or};
ghost use Rattle.att_pdu.specs.Grammar.{request_of, is_due};
ghost use Rattle.att_table.specs.ConfigRow.{IsRowOf};
ghost use Rattle.gatt_conn.specs.Answer.{answer_to};
ghost use Rattle.gatt_conn.specs.Served.{IsAnswered};
ghost use Rattle.host_connections.specs.Hearing.{row_by_key, slot_row_in_force};
ghost use Rattle.host_connections.specs.Request.{IsAnsweredByRow, with_response, bond_served, confirmed_of, handles_written_by, overflows, slot_after_request, table_after, with_owed_after};
ghost use Rattle.gatt_subs.specs.Indications.{after_confirmation, confirmed_handle, is_told};
ghost use Rattle.gatt_subs.specs.Rows.{row_of, ChangesBond};

use crate::notifications::standing;
use crate::slot::Slot;
use arrayvec::ArrayVec;
use att_pdu::{PduBuf, answer_due};
use att_table::{ConfigRow, Table};
use gatt_conn::{Conn, Touched, answer_over};
use gatt_subs::{PendingOfTable, Rows};
use le_acl::{MAX_PDUS, Sender};
use le_hci::Peer;
use le_hci::reason::REMOTE_USER_TERMINATED;
use le_l2cap::channel::ATT;
use le_security::Link;

/// The results of a PDU, besides its writes.
#[derive(Clone, Copy)]
pub struct Brought {
    /// The handle of the value that it confirms.
    pub confirmed: Option<u16>,
    /// The connection is ended because there is no space for an answer.
    pub ended: bool,
}

impl Slot {
    /// Serves a PDU as `Slots::serve` does. Borrows the changer, because only a confirmation reads
    /// it.
    #[inline(always)]
    pub(crate) fn serve_pdu(
        &mut self,
        table: &mut Table,
        rows: &mut Rows,
        changer: &Option<u16>,
        now: u64,
        pdu: &[u8],
        written: &mut Touched,
    ) -> Brought
        requires there { IsSome self.old }
        requires row { IfSome self.old
            (λ slot_state. IsRowOf table.old.attributes
            (slot_row_in_force (row_of rows.old slot_state.peer) slot_state)) }
        ensures after { self.new
            ≡ option_map
            (λ slot_state. slot_after_request table.old now (row_of rows.old slot_state.peer)
            pdu.now slot_state) self.old }
        ensures table { IfSome self.old (λ slot_state. table.new
            ≡ table_after table.old now (row_of rows.old slot_state.peer) pdu.now slot_state) }
        ensures bond { IfSome self.old
            (λ slot_state. ChangesBond (bond_served table.old now changer.now
            (row_of rows.old slot_state.peer) pdu.now slot_state) slot_state.peer rows.old
            rows.new) }
        ensures written { IfSome self.old (λ slot_state. written.new.items
            ≡ handles_written_by table.old now (row_of rows.old slot_state.peer) pdu.now
            slot_state) }
        ensures ended { IfSome self.old
            (λ slot_state. result.ended ≡ overflows pdu.now slot_state) }
        ensures confirmed { IfSome self.old
            (λ slot_state. result.confirmed ≡ confirmed_of pdu.now slot_state) }
    {
        if is_full(&self.conn, &self.sender, pdu) {
            self.end(REMOTE_USER_TERMINATED);
            written.clear();
            return Brought {
                confirmed: None,
                ended: true,
            };
        }
        let has_key = self.link.facts().is_some();
        let standing = standing(&self.link, self.key_known, self.until, now);
        self.conn.stand(standing);
        let confirmed = answer_by_row(
            table,
            rows,
            &self.peer,
            has_key,
            &mut self.row,
            &mut self.conn,
            pdu,
            &mut self.sender,
            written,
        );
        owe_unless_told(
            confirmed,
            &self.link,
            &self.pending,
            changer,
            &self.peer,
            rows,
        );
        Brought {
            confirmed: take_confirmation(confirmed, &mut self.pending),
            ended: false,
        }
    }
}

fn is_full(conn: &Conn, sender: &Sender, pdu: &[u8]) -> bool
    ensures full { result
        ≡ (is_due (request_of pdu.now conn.now.mtu)
        && (length sender.now.outgoing.queue == MAX_PDUS)) }
    ensures room { OnFalse result
        (is_due (request_of pdu.now conn.now.mtu) ≡ true
        → length sender.now.outgoing.queue < MAX_PDUS) }
{
    sender.backlog() == MAX_PDUS && answer_due(pdu, conn.mtu())
}

/// Returns true if a confirmation shows that the peer knows that the table was replaced.
fn knows_change(link: &Link, pending: &PendingOfTable, changer: Option<u16>) -> bool
    ensures { result ≡ (is_some link.now.key
        && option_map_or (is_told pending.now) changer false) }
{
    match changer {
        Some(handle) => link.facts().is_some() && pending.told(handle),
        None => false,
    }
}

/// Processes a confirmation, if this is one. Returns the handle of the confirmed value.
fn take_confirmation(confirmed: bool, pending: &mut PendingOfTable) -> Option<u16>
    ensures pending { pending.new
        ≡ (if confirmed then after_confirmation pending.old else pending.old) }
    ensures confirmed { result ≡ (if confirmed then confirmed_handle pending.old else None) }
{
    if confirmed { pending.confirm() } else { None }
}

/// Clears the peer's pending Service Changed if this is confirmed.
#[inline(always)]
#[tactic(auto, using(crate::proofs::Bonds::confirmed_owed, crate::proofs::Bonds::unconfirmed_owed))]
fn owe_unless_told(
    confirmed: bool,
    link: &Link,
    pending: &PendingOfTable,
    changer: &Option<u16>,
    peer: &Peer,
    rows: &mut Rows,
)
    ensures { ChangesBond (with_owed_after (confirmed && (is_some link.now.key
        && option_map_or (is_told pending.now) changer.now false))) peer.now rows.old rows.new }
{
    if confirmed && knows_change(link, pending, *changer) {
        rows.owe(peer, false);
    }
}

/// Serves a PDU by the row in force. Returns true if it confirms an indication.
#[inline(always)]
#[tactic(auto, using(crate::proofs::Bonds::row_put))]
fn answer_by_row(
    table: &mut Table,
    rows: &mut Rows,
    peer: &Peer,
    has_key: bool,
    own: &mut ConfigRow,
    conn: &mut Conn,
    pdu: &[u8],
    sender: &mut Sender,
    written: &mut Touched,
) -> bool
    requires row { IsRowOf table.old.attributes
        (row_by_key has_key (row_of rows.old peer.now) own.old) }
    requires room { is_due (request_of pdu.now conn.old.mtu) ≡ true
        → length sender.old.outgoing.queue < MAX_PDUS }
    ensures { IsAnsweredByRow pdu.now has_key peer.now
        (row_by_key has_key (row_of rows.old peer.now) own.old)
        (row_by_key has_key (row_of rows.new peer.now) own.new)
        table.old table.new rows.old rows.new own.old own.new conn.old conn.new
        sender.old.outgoing sender.new.outgoing written.new.items result }
{
    if has_key {
        if let Some(row) = rows.of(peer) {
            return answer(table, row, conn, pdu, sender, written);
        }
    }
    answer(table, own, conn, pdu, sender, written)
}

/// Serves a PDU and queues its answer, for which there is space. Returns true if the PDU confirms
/// an indication.
#[inline(always)]
#[tactic(auto, using(gatt_conn::proofs::Dues::none_where_not_due))]
fn answer(
    table: &mut Table,
    row: &mut ConfigRow,
    conn: &mut Conn,
    pdu: &[u8],
    sender: &mut Sender,
    written: &mut Touched,
) -> bool
    requires row { IsRowOf table.old.attributes row.old }
    requires room { is_due (request_of pdu.now conn.old.mtu) ≡ true
        → length sender.old.outgoing.queue < MAX_PDUS }
    ensures queued { sender.new.outgoing ≡ with_response sender.old.outgoing
        (answer_to table.old row.old conn.old (request_of pdu.now conn.old.mtu)) }
    ensures answered { IsAnswered pdu.now table.old table.new row.old row.new conn.old conn.new
        written.new.items result }
{
    let Ok(room) = sender.room_to_overwrite() else {
        return answer_nothing(table, row, conn, pdu, written);
    };
    let placed = answer_over(table, row, conn, pdu, room, written);
    if let Some(len) = placed.len {
        sender.push_prefix(ATT, len);
    }
    placed.confirmed
}

/// Serves a PDU without an answer. Returns true if it confirms an indication. Not inlined, so that
/// only such a PDU needs the buffer.
#[cold]
#[inline(never)]
fn answer_nothing(
    table: &mut Table,
    row: &mut ConfigRow,
    conn: &mut Conn,
    pdu: &[u8],
    written: &mut Touched,
) -> bool
    requires row { IsRowOf table.old.attributes row.old }
    requires none_due { is_due (request_of pdu.now conn.old.mtu) ≡ false }
    ensures answered { IsAnswered pdu.now table.old table.new row.old row.new conn.old conn.new
        written.new.items result }
{
    let mut unsent = ArrayVec::new();
    let mut out = PduBuf::new(&mut unsent, conn.mtu());
    let answered = gatt_conn::answer(table, row, conn, pdu, &mut out);
    *written = answered.touched;
    answered.confirmed
}
