//! Reports of the controller as events of connections.

ghost use Rattle.std.specs.Prelude.{◌≡◌, ◌==◌, ◌<◌, ◌≤◌, true, if◌then◌else◌, length, Some};
ghost use Rattle.gatt_laws.specs.machine.Controller as laws;
ghost use Rattle.gatt_laws.specs.machine.Event.{Disconnected, KeyAsked, Encrypted, Refreshed, Nothing};
ghost use Rattle.gatt_laws.specs.machine.Packets.{connection_complete_event, connection_event, connection_event_if_ready, own_event};
ghost use Rattle.gatt_host.specs.Meaning.{context_in, frames_after, IsAfter, IsOfItsTable};
ghost use Rattle.host_connections.specs.Slots.{place_holding, place_serving};
ghost use Rattle.le_hci.specs.Event.{report_of};

use crate::frames::Frames;
use crate::last_event::LastEvent;
use crate::server::Server;
use le_hci::{Event, LAST_CONNECTION_HANDLE, PERIPHERAL, Peer};

impl Server {
    /// Handles a report, which is ignored until the controller is initialised.
    #[inline(always)]
    pub(crate) fn reported(&mut self, frames: &mut Frames, event: &Event<'_>)
        requires enough { length self.old.slots ≤ length frames.old.assembled }
        requires of_table { IsOfItsTable self.old }
        ensures after { IsAfter
            (connection_event_if_ready (context_in self.old) (report_of event.now))
            self.old self.new }
        ensures frames { frames.new ≡ frames_after self.old.time
            (connection_event_if_ready (context_in self.old) (report_of event.now)) frames.old }
    {
        if self.controller.is_ready() {
            self.connection_reported(frames, event);
        } else {
            self.end_event(LastEvent::Quiet);
        }
    }

    #[inline(always)]
    fn connection_reported(&mut self, frames: &mut Frames, event: &Event<'_>)
        requires enough { length self.old.slots ≤ length frames.old.assembled }
        requires ready { laws.is_ready self.old.controller ≡ true }
        requires of_table { IsOfItsTable self.old }
        ensures after { IsAfter
            (connection_event (context_in self.old) (report_of event.now)) self.old self.new }
        ensures frames { frames.new ≡ frames_after self.old.time
            (connection_event (context_in self.old) (report_of event.now)) frames.old }
    {
        match *event {
            Event::DisconnectionComplete { status, handle, .. } => self.disconnection_complete(
                status, handle,
            ),
            Event::EncryptionChange {
                status,
                handle,
                enabled,
            } => self.encryption_changed(status, handle, enabled),
            Event::EncryptionKeyRefreshComplete { status, handle } => self.key_refreshed(
                status, handle,
            ),
            Event::NumberOfCompletedPackets { entries } => self.packets_completed(entries),
            Event::ConnectionComplete {
                status,
                handle,
                role,
                peer,
                ..
            } => self.connected(frames, status, handle, role, peer),
            Event::LongTermKeyRequest {
                handle,
                random_number,
                diversifier,
            } => self.key_asked(handle, random_number, diversifier),
            _ => self.end_event(LastEvent::Quiet),
        }
    }

    fn disconnection_complete(&mut self, status: u8, handle: u16)
        ensures { IsAfter (if status == 0 then own_event
            (place_holding self.old.slots handle) Disconnected else Nothing) self.old self.new }
    {
        if status != 0 {
            return self.end_event(LastEvent::Quiet);
        }
        match self.slots.find_holding(handle) {
            Some(place) => self.disconnected(place),
            None => self.end_event(LastEvent::Quiet),
        }
    }

    fn encryption_changed(&mut self, status: u8, handle: u16, enabled: u8)
        requires of_table { IsOfItsTable self.old }
        ensures { IsAfter (own_event (place_serving self.old.slots handle)
            (Encrypted status enabled)) self.old self.new }
    {
        match self.slots.find_serving(handle) {
            Some(place) => self.encrypt(place, status, enabled),
            None => self.end_event(LastEvent::Quiet),
        }
    }

    fn key_refreshed(&mut self, status: u8, handle: u16)
        requires of_table { IsOfItsTable self.old }
        ensures { IsAfter
            (own_event (place_serving self.old.slots handle) (Refreshed status)) self.old self.new }
    {
        match self.slots.find_serving(handle) {
            Some(place) => self.refresh(place, status),
            None => self.end_event(LastEvent::Quiet),
        }
    }

    fn key_asked(&mut self, handle: u16, random_number: [u8; 8], diversifier: u16)
        ensures { IsAfter (own_event (place_serving self.old.slots handle)
            (KeyAsked random_number diversifier)) self.old self.new }
    {
        match self.slots.find_serving(handle) {
            Some(place) => self.ask_key(place, random_number, diversifier),
            None => self.end_event(LastEvent::Quiet),
        }
    }

    /// Accepts a connection if the host is its peripheral, its handle is valid and unused, and a
    /// slot is free.
    #[tactic(auto, using(crate::proofs::commands::Readies::ready_told))]
    fn connected(&mut self, frames: &mut Frames, status: u8, handle: u16, role: u8, peer: Peer)
        requires enough { length self.old.slots ≤ length frames.old.assembled }
        requires ready { laws.is_ready self.old.controller ≡ true }
        ensures after { IsAfter
            (connection_complete_event (context_in self.old) status handle role peer) self.old
            self.new }
        ensures frames { frames.new
            ≡ frames_after self.old.time
            (connection_complete_event (context_in self.old) status handle role peer)
            frames.old }
    {
        if status != 0 || role != PERIPHERAL || handle > LAST_CONNECTION_HANDLE {
            return self.end_event(LastEvent::Quiet);
        }
        if self.slots.find_holding(handle).is_some() {
            return self.end_event(LastEvent::Quiet);
        }
        match self.slots.find_free() {
            Some(place) => {
                frames.assembled[place].clear();
                frames.arrivals.accept(place, self.time);
                self.connect(place, handle, peer);
            }
            None => self.end_event(LastEvent::Quiet),
        }
    }
}
