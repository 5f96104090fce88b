//! The values that a connection is sent unasked at the end of an event (Core 5.0, Vol 3 Part F,
//! 3.4.7).

ghost use Rattle.std.specs.Prelude.{◌≡◌, ◌-◌, ◌≤◌, ◌<◌, true, false, [], ◌∷◌, ◌++◌, length, take, is_some, IfSome};
ghost use Rattle.std.specs.Bool.{OnTrue, OnFalse};
ghost use Rattle.std.specs.Option.{option_copied, option_map, option_map_or};
ghost use Rattle.host_connections.specs.Commands.{gives};
ghost use Rattle.host_connections.specs.SlotState.{standing_with};
ghost use Rattle.att_table.specs.ConfigRow.{bits_at};
ghost use Rattle.att_table.specs.Facts.{IsTable};
ghost use Rattle.host_connections.specs.Hearing.{row_by_key, slot_row_in_force, delivery_when_indicating};
ghost use Rattle.host_connections.specs.OfTable.{HasBondsOfTable, SlotIsOfTable};
ghost use Rattle.host_connections.specs.Places.{waits};
ghost use Rattle.host_connections.specs.Slots.{slot_heard, slot_notified, slot_notified_alone};
ghost use Rattle.gatt_laws.specs.machine.Heard.{att_pdu};
ghost use Rattle.gatt_subs.specs.Alone.{telling_of};
ghost use Rattle.gatt_subs.specs.Rows.{owes, row_of};
ghost use Rattle.le_acl.specs.Outgoing.{with_pdu};
ghost use Rattle.octet_io.specs.Number.{two_octets};
ghost use Rattle.att_pdu.specs.declared.pdu_buf.TheConstants.{MAX_MTU, MIN_MTU};
ghost use Rattle.le_acl.specs.declared.pdus.TheConstants.{MAX_PDUS};

use crate::moment::Moment;
use crate::slot::{Slot, Use};
use att_numbers::opcode::{HANDLE_VALUE_INDICATION, HANDLE_VALUE_NOTIFICATION};
use att_policy::Standing;
use att_table::{ConfigRow, Table};
use gatt_subs::{PendingOfTable, Raised, Rows, Telling};
use le_acl::Sender;
use le_hci::Peer;
use le_l2cap::channel::ATT;
use le_security::Link;

#[inline(always)]
fn indicate(
    table: &Table,
    row: &ConfigRow,
    standing: &Standing,
    mtu: u16,
    now: u64,
    pending: &mut PendingOfTable,
    sender: &mut Sender,
)
    requires least { MIN_MTU ≤ mtu }
    requires most { mtu ≤ MAX_MTU }
    ensures { record { pending = pending.new; outgoing = sender.new.outgoing }
        ≡ delivery_when_indicating table.now
        (record { row = row.now; standing = standing.entry.now; mtu = mtu }) now
        (record { pending = pending.old; outgoing = sender.old.outgoing }) }
{
    if let Some(handle) = pending.release(table, row, standing, sender.backlog(), now) {
        queue_value(
            HANDLE_VALUE_INDICATION,
            handle,
            table.value(handle),
            mtu,
            sender,
        );
    }
}

fn queue_telling(telling: Telling, raised: &Raised<'_>, mtu: u16, sender: &mut Sender)
    requires least { MIN_MTU ≤ mtu }
    requires most { mtu ≤ MAX_MTU }
    requires room { length sender.old.outgoing.queue < MAX_PDUS }
    ensures { sender.new.outgoing
        ≡ with_pdu sender.old.outgoing (att_pdu
        (telling_of raised.now.table.values raised.now.handle mtu telling)) }
{
    let opcode = match telling {
        Telling::Notification => HANDLE_VALUE_NOTIFICATION,
        Telling::Indication => HANDLE_VALUE_INDICATION,
    };
    queue_value(opcode, raised.handle(), raised.octets(), mtu, sender);
}

/// Queues a PDU with an opcode, a handle, and the first part of a value that fits.
fn queue_value(opcode: u8, handle: u16, value: &[u8], mtu: u16, sender: &mut Sender)
    requires least { MIN_MTU ≤ mtu }
    requires most { mtu ≤ MAX_MTU }
    requires room { length sender.old.outgoing.queue < MAX_PDUS }
    ensures { sender.new.outgoing
        ≡ with_pdu sender.old.outgoing
        (ATT, opcode ∷ two_octets handle ++ take (mtu - 3) value.now) }
{
    let [low, high] = handle.to_le_bytes();
    let front = &value[..value.len().min(usize::from(mtu) - 3)];
    sender.queue(ATT, &[opcode, low, high], front);
}

/// Returns the row of the peer's bond if the link has a key and the peer a bond, else the
/// connection's own.
pub(crate) fn row_in_force<'a>(
    link: &Link,
    peer: &Peer,
    own: &'a ConfigRow,
    rows: &'a Rows,
) -> &'a ConfigRow
    ensures { result.now ≡ row_by_key (is_some link.now.key) (row_of rows.now peer.now) own.now }
{
    if link.facts().is_some() {
        if let Some(row) = rows.row(peer) {
            return row;
        }
    }
    own
}

impl Slot {
    /// Returns the row in force, if there is a connection.
    pub(crate) fn row<'a>(&'a self, rows: &'a Rows) -> Option<&'a ConfigRow>
        ensures { option_copied result ≡ option_map
            (λ slot_state. slot_row_in_force (row_of rows.now slot_state.peer) slot_state)
            self.now }
    {
        if self.used == Use::Free {
            return None;
        }
        Some(row_in_force(&self.link, &self.peer, &self.row, rows))
    }

    pub(crate) fn bits(&self, rows: &Rows, handle: u16) -> u8
        ensures { result ≡ bits_at (option_map_or
            (λ slot_state. slot_row_in_force (row_of rows.now slot_state.peer) slot_state) self.now
            []) handle }
    {
        match self.row(rows) {
            Some(row) => row.get(handle),
            None => 0,
        }
    }

    /// Notifies a written value, or adds it to the values that wait to be indicated, if the
    /// connection may be notified of it. A notification above the backlog limit is skipped. Returns
    /// true if a notification is queued.
    #[inline(always)]
    pub(crate) fn notify(&mut self, raised: &Raised<'_>, moment: Moment<'_>) -> bool
        requires table { IsTable moment.table.now }
        requires bonds { HasBondsOfTable moment.table.now.attributes moment.rows.now }
        requires slot { SlotIsOfTable moment.table.now.attributes self.old }
        ensures notified { self.new
            ≡ slot_notified raised.now.table moment.entry.now moment.entry.rows.now
            raised.now.handle self.old }
        ensures unnotified { OnFalse result (gives self.new ≡ gives self.old) }
        ensures told { OnTrue result (waits self.new ≡ waits self.old) }
    {
        if self.used != Use::Live {
            return false;
        }
        let row = row_in_force(&self.link, &self.peer, &self.row, moment.rows);
        let standing = standing(&self.link, self.key_known, self.until, moment.now);
        let backlog = self.sender.backlog();
        let notified = self.pending.raise_value(raised, row, &standing, backlog);
        if notified {
            queue_value(
                HANDLE_VALUE_NOTIFICATION,
                raised.handle(),
                raised.octets(),
                self.conn.mtu(),
                &mut self.sender,
            );
        }
        notified
    }

    /// Notifies or indicates the only written value at once, unless another waits, if the
    /// connection may be notified of it. A notification above the backlog limit is skipped. Returns
    /// true if it is queued.
    pub(crate) fn notify_alone(&mut self, raised: &Raised<'_>, moment: Moment<'_>) -> bool
        requires table { IsTable moment.table.now }
        requires bonds { HasBondsOfTable moment.table.now.attributes moment.rows.now }
        requires slot { SlotIsOfTable moment.table.now.attributes self.old }
        ensures notified { self.new
            ≡ slot_notified_alone raised.now.table moment.entry.now moment.entry.rows.now
            raised.now.handle self.old }
        ensures untold { OnFalse result (gives self.new ≡ gives self.old) }
        ensures told { OnTrue result (waits self.new ≡ waits self.old) }
    {
        if self.used != Use::Live {
            return false;
        }
        let row = row_in_force(&self.link, &self.peer, &self.row, moment.rows);
        let standing = standing(&self.link, self.key_known, self.until, moment.now);
        let backlog = self.sender.backlog();
        let Some(telling) = self
            .pending
            .raise_alone(raised, row, &standing, backlog, moment.now)
        else {
            return false;
        };
        queue_telling(telling, raised, self.conn.mtu(), &mut self.sender);
        true
    }

    /// Sends the next indication, if one may be sent. Returns false if no value waits.
    #[inline(always)]
    #[tactic(auto, using(crate::proofs::Quiet::nothing_heard))]
    pub(crate) fn indicate(&mut self, moment: Moment<'_>) -> bool
        ensures heard { self.new
            ≡ slot_heard moment.entry.table.now moment.entry.now moment.entry.rows.now []
            self.old }
        ensures unchanged { OnFalse result (self.new ≡ self.old) }
        ensures idle { OnFalse result (waits self.new ≡ false) }
    {
        if self.used != Use::Live {
            return self.waits();
        }
        if !self.pending.waits() {
            return false;
        }
        indicate(
            moment.table,
            row_in_force(&self.link, &self.peer, &self.row, moment.rows),
            &standing(&self.link, self.key_known, self.until, moment.now),
            self.conn.mtu(),
            moment.now,
            &mut self.pending,
            &mut self.sender,
        );
        true
    }

    pub(crate) fn waits(&self) -> bool
        ensures { result ≡ waits self.now }
    {
        self.used != Use::Free && self.pending.waits()
    }

    /// Cheap check: false means that no value waits.
    pub(crate) fn may_wait(&self) -> bool
        ensures { OnFalse result (waits self.now ≡ false) }
    {
        self.pending.waits()
    }

    /// Returns true if Service Changed is pending for the connection's peer.
    pub fn is_owed(&self, rows: &Rows) -> bool
        ensures { IfSome self.now (λ slot_state. result ≡ owes rows.now slot_state.peer) }
    {
        rows.owed(&self.peer)
    }
}

#[inline(always)]
pub(crate) fn standing(link: &Link, key_known: bool, until: u64, now: u64) -> Standing
    ensures { result ≡ standing_with link.now key_known until now }
{
    Standing {
        key: link.facts(),
        key_known,
        until,
        now,
    }
}
