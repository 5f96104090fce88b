ghost use Rattle.std.specs.Prelude.{◌≡◌, ◌<◌, ◌≤◌, [], if◌then◌else◌, length, map, true, Some, None, IfSome, IsSome};
ghost use Rattle.std.specs.Option.{option_to_list};
ghost use Rattle.att_attributes.specs.Attributes.{attribute_at, is_fixed_at};
ghost use Rattle.att_table.specs.Table.{room_at};
ghost use Rattle.att_writes.specs.declared.queue.TheConstants.{MAX_PREPARED};
ghost use Rattle.gatt_host.specs.ServerState.{server_after_event, after_ask_key, after_authorize, server_after_packets_completed, after_disconnect, after_disconnection_complete, after_link, after_no_change, after_replacing, server_after_other_channel, server_after_tick, after_update, server_slot_at, with_last, without_notices, ServesRequest};
ghost use Rattle.gatt_host.specs.Meaning.{IsOfItsTable};
ghost use Rattle.gatt_laws.specs.machine.Packets.{entries_of_connections};
ghost use Rattle.host_connections.specs.Slots.{place_holding};
ghost use Rattle.host_connections.specs.OfTable.{AreOfTableIfAny};
ghost use Rattle.le_hci.specs.Event.{completed_packets_of};
ghost use Rattle.le_security.specs.Link.{Encryption, Refresh};

use crate::controller::Controller;
use crate::last_event::LastEvent;
use arrayvec::ArrayVec;
use att_policy::KeyFacts;
use att_table::Table;
use gatt_conn::Touched;
use gatt_subs::Rows;
use host_api::MAX_SLOTS;
use host_connections::{Moment, Skips, Slots};
use le_hci::reason::REMOTE_USER_TERMINATED;
use le_security::Keys;
use std::marker::Model;
use std::mem;

/// Everything that a host stores: what its connections share, and the slots.
#[derive(Drop)]
pub(crate) struct Server {
    pub(crate) table: Table,
    /// Handle of the Service Changed value.
    pub(crate) changer: Option<u16>,
    pub(crate) keys: Keys,
    pub(crate) rows: Rows,
    /// Largest ATT PDU that the host receives.
    pub(crate) rx_mtu: u16,
    /// In milliseconds.
    pub(crate) time: u64,
    pub(crate) controller: Controller,
    /// One for each possible connection.
    pub(crate) slots: Slots,
    pub(crate) last: LastEvent,
    /// Handles that the last request wrote, each once, in the order of the first writes.
    pub(crate) written: Touched,
    /// Connections that the last tick timed out.
    pub(crate) late: ArrayVec<u16, MAX_SLOTS>,
    /// Notifications that the last event skipped, for each connection.
    pub(crate) skipped: Skips,
}

impl Model for Server {
    ghost use Rattle.std.specs.Prelude.{◌≡◌, ◌≤◌, length};
    ghost use Rattle.gatt_host.specs.ServerState.{server_after_event, ServerState};
    ghost use Rattle.att_pdu.specs.declared.pdu_buf.TheConstants.{MAX_MTU, MIN_MTU};

    ghost Value = { ServerState };

    ghost view = { λ h. record {
      table = h.table;
      changer = h.changer;
      keys = h.keys;
      rows = h.rows;
      rx_mtu = h.rx_mtu;
      time = h.time;
      controller = h.controller;
      slots = h.slots;
      last = h.last;
      written = h.written.items;
      late = h.late.items;
      skipped = h.skipped.items;
    } };

    ghost invariant = { λ h. (MIN_MTU ≤ h.rx_mtu) × (h.rx_mtu ≤ MAX_MTU) };
}

// Each event first changes the state and then notifies the connections.
impl Server {
    /// Clears the notices.
    pub(crate) fn forget(&mut self)
        ensures { self.new ≡ without_notices self.old }
    {
        self.last = LastEvent::Quiet;
        self.skipped.clear();
    }

    /// Ends an event that changes no value: pending indications may now be sent.
    pub(crate) fn end_event(&mut self, last: LastEvent)
        ensures { self.new ≡ with_last last (after_no_change self.old) }
    {
        self.notify(None, &[], &[]);
        self.last = last;
    }

    /// Ends an event: notifies the connection in slot `own` of the values `here` and the others of
    /// `handles`, and sends pending indications. Sets no notice yet.
    #[inline(always)]
    fn notify(&mut self, own: Option<usize>, here: &[u16], handles: &[u16])
        requires here { AreOfTableIfAny here.now self.old.table.attributes self.old.rows
            self.old.slots }
        requires handles { AreOfTableIfAny handles.now self.old.table.attributes self.old.rows
            self.old.slots }
        requires few_here { length here.now ≤ MAX_PREPARED }
        requires few { length handles.now ≤ MAX_PREPARED }
        ensures { self.new ≡ server_after_event own here.now handles.now self.old }
    {
        let moment = Moment {
            table: &self.table,
            rows: &self.rows,
            now: self.time,
        };
        self.slots
            .notify(moment, own, here, handles, &mut self.skipped);
        self.last = LastEvent::Quiet;
    }

    /// Sets the time, in milliseconds, and times out connections.
    pub(crate) fn tick(&mut self, now: u64)
        ensures { self.new ≡ server_after_tick now self.old }
    {
        self.time = now;
        self.slots.tick(now, &mut self.late);
        self.end_event(LastEvent::Ticked);
    }

    pub(crate) fn update(&mut self, handle: u16, value: &[u8])
        requires exists { IsSome (attribute_at self.old.table.attributes handle) }
        requires fits { length value.now ≤ room_at self.old.table handle }
        requires exact { is_fixed_at self.old.table.attributes handle ≡ true
            → length value.now ≡ room_at self.old.table handle }
        requires of_table { IsOfItsTable self.old }
        ensures { self.new ≡ after_update handle value.now self.old }
    {
        self.table.set(handle, value);
        self.notify(None, &[], &[handle]);
    }

    #[tactic(auto, using(host_connections::proofs::AtPlace::lent_at))]
    pub(crate) fn authorize(&mut self, place: usize, until: u64)
        requires { place < length self.old.slots }
        ensures { self.new ≡ after_authorize place until self.old }
    {
        self.slots.at(place).authorize(until);
        self.end_event(LastEvent::Quiet);
    }

    #[tactic(auto, using(host_connections::proofs::AtPlace::lent_at))]
    pub(crate) fn disconnect(&mut self, place: usize)
        requires place { place < length self.old.slots }
        requires there { IsSome (server_slot_at self.old place) }
        ensures ended { self.new ≡ after_disconnect place self.old }
    {
        let slot = self.slots.at(place);
        let handle = slot.handle();
        slot.end(REMOTE_USER_TERMINATED);
        self.end_event(LastEvent::Ended {
            handle,
            reason: REMOTE_USER_TERMINATED,
        });
    }

    pub(crate) fn ask_key(&mut self, place: usize, random_number: [u8; 8], diversifier: u16)
        requires { place < length self.old.slots }
        ensures { self.new ≡ after_ask_key place random_number diversifier self.old }
    {
        self.slots
            .ask_key(place, &self.keys, random_number, diversifier);
        self.end_event(LastEvent::Quiet);
    }

    /// Handles a payload on a channel other than that of ATT.
    pub(crate) fn other_channel(&mut self, place: usize, channel: u16, payload: &[u8])
        requires place { place < length self.old.slots }
        requires there { IsSome (server_slot_at self.old place) }
        ensures { self.new ≡ server_after_other_channel place channel payload.now self.old }
    {
        let handle = self.slots.get(place).handle();
        let ended = self.slots.other_channel(place, channel, payload);
        self.end_event(ended_if(ended, handle));
    }

    #[inline(always)]
    #[tactic(auto, using(host_connections::proofs::states::Found::entries_at_places))]
    pub(crate) fn packets_completed(&mut self, entries: &[[u8; 4]])
        ensures { self.new ≡ server_after_packets_completed (entries_of_connections
            (place_holding self.old.slots) (map completed_packets_of entries.now)) self.old }
    {
        self.slots.packets_completed(entries);
        self.end_event(LastEvent::Quiet);
    }

    pub(crate) fn disconnected(&mut self, place: usize)
        requires place { place < length self.old.slots }
        requires there { IsSome (server_slot_at self.old place) }
        ensures { self.new ≡ after_disconnection_complete place self.old }
    {
        let handle = self.slots.get(place).handle();
        self.slots.free(place);
        self.controller.note_disconnected();
        self.end_event(LastEvent::Disconnected { handle });
    }

    #[inline(always)]
    pub(crate) fn serve_pdu(&mut self, place: usize, pdu: &[u8])
        requires place { place < length self.old.slots }
        requires there { IsSome (server_slot_at self.old place) }
        requires of_table { IsOfItsTable self.old }
        ensures { IfSome (server_slot_at self.old place)
            (λ slot_state. ServesRequest place pdu.now slot_state self.old self.new) }
    {
        let handle = self.slots.get(place).handle();
        let brought = self.slots.serve_slot(
            place,
            &mut self.table,
            &mut self.rows,
            &self.changer,
            self.time,
            pdu,
            &mut self.written,
        );
        self.last = LastEvent::Served {
            place,
            handle,
            brought,
        };
        let moment = Moment {
            table: &self.table,
            rows: &self.rows,
            now: self.time,
        };
        self.slots.notify(
            moment,
            Some(place),
            &[],
            self.written.as_slice(),
            &mut self.skipped,
        );
    }

    pub(crate) fn encrypt(&mut self, place: usize, status: u8, enabled: u8)
        requires place { place < length self.old.slots }
        requires there { IsSome (server_slot_at self.old place) }
        requires of_table { IsOfItsTable self.old }
        ensures { self.new ≡ after_link place (Encryption status enabled) self.old }
    {
        let slot = self.slots.get(place);
        let before = slot.key();
        let owed = slot.is_owed(&self.rows);
        let gained = self.slots.encrypt(place, status, enabled);
        self.end_link_event(place, before, gained && owed);
    }

    pub(crate) fn refresh(&mut self, place: usize, status: u8)
        requires place { place < length self.old.slots }
        requires there { IsSome (server_slot_at self.old place) }
        requires of_table { IsOfItsTable self.old }
        ensures { self.new ≡ after_link place (Refresh status) self.old }
    {
        let slot = self.slots.get(place);
        let before = slot.key();
        let owed = slot.is_owed(&self.rows);
        let gained = self.slots.refresh(place, status);
        self.end_link_event(place, before, gained && owed);
    }

    /// Ends an event that changed a link. `before` describes its key before the event.
    fn end_link_event(&mut self, place: usize, before: Option<KeyFacts>, due: bool)
        requires place { place < length self.old.slots }
        requires there { IsSome (server_slot_at self.old place) }
        requires of_table { IsOfItsTable self.old }
        ensures { IfSome (server_slot_at self.old place)
            (λ slot_state. self.new
            ≡ with_last (LastEvent.LinkChanged slot_state.handle before slot_state.link.key)
            (server_after_event (Some place) (if due then option_to_list self.old.changer else [])
            [] self.old)) }
    {
        let slot = self.slots.get(place);
        let handle = slot.handle();
        let after = slot.key();
        self.end_with_changes(
            place,
            due,
            LastEvent::LinkChanged {
                handle,
                before,
                after,
            },
        );
    }

    /// Ends an event. If `due`, sends Service Changed to the slot's connection.
    fn end_with_changes(&mut self, place: usize, due: bool, last: LastEvent)
        requires of_table { IsOfItsTable self.old }
        ensures { self.new ≡ with_last last (server_after_event (Some place)
            (if due then option_to_list self.old.changer else []) [] self.old) }
    {
        match self.changer {
            Some(changer) if due => self.notify(Some(place), &[changer], &[]),
            _ => self.notify(Some(place), &[], &[]),
        }
        self.last = last;
    }

    /// Replaces the table, announces that, and returns the old table.
    pub(crate) fn replace(&mut self, table: Table) -> Table
        ensures given { result ≡ self.old.table }
        ensures after { self.new ≡ after_replacing table self.old }
    {
        self.slots.replace(&self.table, &table);
        self.rows.keep(&self.table, &table);
        let old = mem::replace(&mut self.table, table);
        self.changer = self.table.changer();
        self.rows.owe_changes(self.changer);
        match self.changer {
            Some(changer) => {
                self.table.set(changer, &ALL_CHANGED);
                self.notify(None, &[], &[changer]);
            }
            None => self.notify(None, &[], &[]),
        }
        old
    }
}

/// Returns the event of a connection that ends because an answer finds no space.
fn ended_if(ended: bool, handle: u16) -> LastEvent
    ensures { result
        ≡ (if ended then LastEvent.Ended handle REMOTE_USER_TERMINATED else LastEvent.Quiet) }
{
    if ended {
        LastEvent::Ended {
            handle,
            reason: REMOTE_USER_TERMINATED,
        }
    } else {
        LastEvent::Quiet
    }
}

/// Service Changed value for the whole handle range (Core 5.0, Vol 3 Part G, 7.1).
const ALL_CHANGED: [u8; 4] = [0x01, 0x00, 0xFF, 0xFF];
