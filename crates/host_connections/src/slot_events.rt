//! Events, except requests, of the connection of a slot.

ghost use Rattle.std.specs.Prelude.{◌≡◌, ◌<◌, ◌≤◌, ◌^◌, ◌==◌, ◌&&◌, not, is_some, [], length, Some, None, IfOk, IfSome};
ghost use Rattle.std.specs.Option.{option_copied, option_map, option_map_or, option_to_list};
ghost use Rattle.gatt_laws.specs.machine.Effect.{channel_answer, gained_encryption};
ghost use Rattle.host_connections.specs.SlotEffects.{new_slot_state, after_authorizing, slot_after_packets_completed, slot_after_ending, after_key_asked, after_link_step, after_loss, slot_after_other_channel, after_table, after_time, has_no_room, with_channel_answer};
ghost use Rattle.host_connections.specs.Slots.{late_handle};
ghost use Rattle.le_acl.specs.declared.sender.TheConstants.{MAX_ACL_LEN, MIN_ACL_LEN};
ghost use Rattle.le_security.specs.Keys.{key_asked_for};
ghost use Rattle.le_security.specs.Link.{Encryption, Refresh, after_step};
ghost use Rattle.att_pdu.specs.declared.pdu_buf.TheConstants.{MAX_MTU, MIN_MTU};
ghost use Rattle.octet_io.specs.declared.pdu.TheConstants.{MAX_PDU};

use crate::slot::{Slot, Use};
use att_table::{ConfigRow, Table};
use gatt_conn::Conn;
use gatt_subs::PendingOfTable;
use le_acl::{MAX_PDUS, MIN_ACL_LEN, Sender};
use le_hci::Peer;
use le_hci::reason::{AUTHENTICATION_FAILURE, REMOTE_USER_TERMINATED};
use le_l2cap::channel::{LE_SIGNALLING, SECURITY_MANAGER};
use le_l2cap::{security, signalling};
use le_security::{Key, Keys, Link};
use std::alloc::{AllocError, Global};

impl Slot {
    pub(crate) fn new(alloc: Global) -> Result<Slot, AllocError>
        ensures { IfOk result (λ slot. slot ≡ None) }
    {
        Ok(Slot {
            used: Use::Free,
            handle: 0,
            peer: Peer {
                kind: 0,
                address: [0; 6],
            },
            key_known: false,
            until: 0,
            row: ConfigRow::new(),
            link: Link::new(),
            conn: Conn::new(alloc)?,
            pending: PendingOfTable::new(),
            sender: Sender::new(alloc, 1, MIN_ACL_LEN)?,
            reply: None,
            reason: None,
        })
    }

    pub(crate) fn connect(
        &mut self,
        handle: u16,
        peer: Peer,
        key_known: bool,
        rx_mtu: u16,
        share: u16,
        acl_len: u16,
    )
        requires handle { handle < 2 ^ 12 }
        requires rx_mtu_least { MIN_MTU ≤ rx_mtu }
        requires rx_mtu_most { rx_mtu ≤ MAX_MTU }
        requires share { 0 < share }
        requires acl_len_least { MIN_ACL_LEN ≤ acl_len }
        requires acl_len_most { acl_len ≤ MAX_ACL_LEN }
        ensures { self.new ≡ Some (new_slot_state handle peer key_known rx_mtu share acl_len) }
    {
        self.used = Use::Live;
        self.handle = handle;
        self.peer = peer;
        self.key_known = key_known;
        self.until = 0;
        self.row = ConfigRow::new();
        self.link = Link::new();
        self.conn.renew();
        self.conn.limit(rx_mtu);
        self.pending = PendingOfTable::new();
        self.sender.reset(share, acl_len);
        self.reply = None;
        self.reason = None;
    }

    pub(crate) fn free(&mut self)
        ensures { self.new ≡ None }
    {
        self.used = Use::Free;
    }

    /// Authorizes the connection while the time, in milliseconds, is below this.
    pub fn authorize(&mut self, until: u64)
        ensures { self.new ≡ option_map (after_authorizing until) self.old }
    {
        self.until = until;
    }

    pub(crate) fn ask_key(&mut self, keys: &Keys, random_number: [u8; 8], diversifier: u16)
        ensures { self.new ≡ option_map (λ slot_state. after_key_asked
            (key_asked_for keys.now slot_state.peer random_number diversifier) slot_state)
            self.old }
    {
        let found = keys.answer(&self.peer, random_number, diversifier);
        self.link.request(found);
        self.reply = Some(long_term_key(found));
    }

    pub(crate) fn encrypt(&mut self, status: u8, enabled: u8) -> bool
        ensures after { self.new
            ≡ option_map (after_link_step (Encryption status enabled)) self.old }
        ensures gained { IfSome self.old
            (λ slot_state. result ≡ gained_encryption slot_state.link.key
            (after_step slot_state.link (Encryption status enabled)).key) }
    {
        let had_key = self.link.facts().is_some();
        self.link.encryption(status, enabled);
        self.judge_link(had_key)
    }

    pub(crate) fn refresh(&mut self, status: u8) -> bool
        ensures after { self.new ≡ option_map (after_link_step (Refresh status)) self.old }
        ensures gained { IfSome self.old (λ slot_state. result
            ≡ gained_encryption slot_state.link.key
            (after_step slot_state.link (Refresh status)).key) }
    {
        let had_key = self.link.facts().is_some();
        self.link.refresh(status);
        self.judge_link(had_key)
    }

    /// Ends the connection if its link lost its key. Returns true if the link gained one.
    fn judge_link(&mut self, had_key: bool) -> bool
        ensures after { self.new ≡ option_map (after_loss had_key) self.old }
        ensures gained { IfSome self.old
            (λ slot_state. result ≡ (not had_key && is_some slot_state.link.key)) }
    {
        let has_key = self.link.facts().is_some();
        if had_key && !has_key {
            self.end(AUTHENTICATION_FAILURE);
        }
        !had_key && has_key
    }

    pub(crate) fn other_channel(&mut self, channel: u16, payload: &[u8]) -> bool
        ensures after { self.new
            ≡ option_map (slot_after_other_channel channel payload.now) self.old }
        ensures ended { IfSome self.old
            (λ slot_state. result
            ≡ has_no_room (channel_answer channel payload.now) slot_state) }
    {
        match channel {
            LE_SIGNALLING => match signalling(payload) {
                Some(reject) => self.answer(channel, &reject.octets()),
                None => false,
            },
            SECURITY_MANAGER => match security(payload) {
                Some(answer) => self.answer(channel, &answer),
                None => false,
            },
            _ => false,
        }
    }

    /// Queues an answer. Returns true if it ends the connection because there is no space.
    fn answer(&mut self, channel: u16, octets: &[u8]) -> bool
        requires { length octets.now ≤ MAX_PDU }
        ensures after { self.new
            ≡ option_map (with_channel_answer channel (Some octets.now)) self.old }
        ensures ended { IfSome self.old
            (λ slot_state. result ≡ has_no_room (Some octets.now) slot_state) }
    {
        let full = self.sender.backlog() == MAX_PDUS;
        if full {
            self.end(REMOTE_USER_TERMINATED);
        } else {
            self.sender.queue(channel, octets, &[]);
        }
        full
    }

    /// Ends the connection; the Disconnect will have this reason.
    pub fn end(&mut self, reason: u8)
        ensures { self.new ≡ option_map (slot_after_ending reason) self.old }
    {
        if self.used == Use::Live {
            self.used = Use::Ending;
        }
        self.conn.cancel();
        self.pending.end();
        self.sender.flush();
        self.reply = None;
        self.reason = Some(reason);
    }

    pub(crate) fn packets_completed(&mut self, count: u16)
        ensures { self.new ≡ option_map (slot_after_packets_completed count) self.old }
    {
        self.sender.completed(count);
    }

    /// Returns the handle of the connection if it times out at this time.
    pub(crate) fn tick(&mut self, now: u64) -> Option<u16>
        ensures after { self.new ≡ option_map (after_time now) self.old }
        ensures late { option_to_list result ≡ option_map_or (late_handle now) self.old [] }
    {
        if self.pending.tick(now) && self.used != Use::Free {
            Some(self.handle)
        } else {
            None
        }
    }

    /// Replaces the table: retains the configurations that the new one has, and drops what is
    /// prepared or waits.
    pub(crate) fn replace(&mut self, old: &Table, new: &Table)
        ensures { self.new
            ≡ option_map (after_table old.now.attributes new.now.attributes) self.old }
    {
        self.row.keep(old, new);
        if self.used == Use::Live {
            self.conn.cancel();
            self.pending.replace_table();
        }
    }
}

fn long_term_key(found: Option<&Key>) -> Option<[u8; 16]>
    ensures { result ≡ option_map (λ key. key.ltk) (option_copied found.entry) }
{
    match found {
        Some(key) => Some(key.ltk),
        None => None,
    }
}
