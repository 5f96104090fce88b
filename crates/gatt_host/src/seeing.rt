//! The host as an application sees it.

ghost use Rattle.std.specs.Prelude.{◌≡◌, ◌<◌, true, is_some, slice_get, List, Some, None, IsSome, IfSome};
ghost use Rattle.std.specs.Option.{option_copied, option_map};
ghost use Rattle.gatt_laws.specs.laws.Deadline.{deadline};
ghost use Rattle.gatt_laws.specs.laws.Deadline.{IsQuietBeforeTheDeadline, TellsFromTheDeadlineOn};
ghost use Rattle.gatt_laws.specs.machine.Input.{run, Item};
ghost use Rattle.gatt_laws.specs.machine.Controller.{is_ready};
ghost use Rattle.gatt_laws.specs.machine.Start.{Start};
ghost use Rattle.gatt_laws.specs.laws.Telling.{TellsTheApplication};
ghost use Rattle.gatt_host.specs.Connections.{connection_with, connections_in, connections_of, row_in_force_of};
ghost use Rattle.gatt_host.specs.Notices.{notice_of, HasTheValue};
ghost use Rattle.gatt_host.specs.StateRefinement.{rows_of};
ghost use Rattle.gatt_host.specs.HostModel.{RefinesRun};
ghost use Rattle.gatt_host.specs.Telling.{notices_told};
ghost use Rattle.host_connections.specs.Slots.{slots_deadline};
ghost use Rattle.octet_io.specs.Number.{Octets};

use crate::connections::Connections;
use crate::host::Host;
use crate::notice_iterator::Notices;
use crate::server::Server;
use att_table::{ConfigRow, Table};
use gatt_subs::Rows;
use host_api::{Connection, Notice};
use le_security::Keys;

impl Host {
    /// Returns the notices of the last input. An input is a packet, a call, a table, or bytes up to
    /// the end of a packet. After a fault there are none.
    #[tactic(auto, using(crate::proofs::Promises::tells_the_application))]
    pub fn notices(&self) -> Notices<'_>
        // These are the notices of the last input, in order.
        ensures told { result.notices ≡ notices_told self.now }
        // The octets of a written value are those of the table.
        ensures table { result.table ≡ self.now.server.table }
        ensures laws { TellsTheApplication }
    {
        Notices {
            host: self,
            given: 0,
        }
    }

    /// Returns the notice at this index, counted from 0, if it exists.
    pub fn notice(&self, at: usize) -> Option<Notice<'_>>
        ensures notice { option_map notice_of result ≡ slice_get (notices_told self.now) at }
        ensures value { IfSome result (HasTheValue self.now.server.table) }
        ensures few { IsSome result → at < 290 }
    {
        if self.fault.is_some() {
            return None;
        }
        self.server.notice(at)
    }

    /// Returns what each peer with a key has configured, and which peers must get Service Changed.
    #[tactic(auto, using(crate::proofs::model::Rows::rows_where))]
    pub fn rows(&self) -> &Rows
        // The rows of the host.
        ensures server { result.now ≡ self.now.server.rows }
        // As a list: exactly one bond for each peer that has a key.
        ensures run { (start : Start) (input : List Item) (sent : List Octets)
            → RefinesRun (run start input) sent self.now
            → result.now ≡ rows_of (run start input).intake.state }
    {
        &self.server.rows
    }

    /// Returns the current table with its values.
    pub fn table(&self) -> &Table
        // The table of the host.
        ensures server { result.now ≡ self.now.server.table }
        // It is that of each run that the host refines.
        ensures run { (start : Start) (input : List Item) (sent : List Octets)
            → RefinesRun (run start input) sent self.now
            → result.now ≡ (run start input).intake.state.shared.table }
    {
        &self.server.table
    }

    /// Returns the time, in milliseconds, before which the host needs no tick. It is the earliest
    /// time at which an unconfirmed indication is late or the authorization of a serving connection
    /// ends. `None` means neither.
    ///
    /// An earlier tick causes no notice, and only the packets that the event `Nothing` would. Each
    /// request is answered as without it.
    #[tactic(auto, using(crate::proofs::model::Deadlines::tells_from_the_deadline))]
    pub fn deadline(&self) -> Option<u64>
        // The earliest time at which an unconfirmed indication is late, or the authorization of a
        // served connection ends.
        ensures server { result ≡ slots_deadline self.now.server.time self.now.server.slots }
        ensures run { (start : Start) (input : List Item) (sent : List Octets)
            → RefinesRun (run start input) sent self.now
            → result ≡ deadline (run start input).intake.state }
        // For every state and time:
        ensures told { TellsFromTheDeadlineOn }
        // A tick before that time causes no notice and the same packets as the event `Nothing`.
        // Each connection may then do the same as before: the answer to each request, the values
        // that it writes, the values to be notified of.
        ensures quiet { IsQuietBeforeTheDeadline }
    {
        self.server.slots.deadline(self.server.time)
    }

    /// Returns true if the controller is initialised and may have connections. It has then answered
    /// each command from Reset on.
    #[tactic(auto, using(crate::proofs::model::Initialised::initialised_where))]
    pub fn is_initialised(&self) -> bool
        // True exactly if the controller has answered each command of initialisation from Reset on.
        ensures server { result ≡ is_ready self.now.server.controller }
        ensures run { (start : Start) (input : List Item) (sent : List Octets)
            → RefinesRun (run start input) sent self.now
            → result ≡ is_ready (run start input).intake.state.controller }
    {
        self.server.controller.is_ready()
    }

    /// Returns the connections, in slot order.
    pub fn connections(&self) -> Connections<'_>
        // Each connection that has a slot, in the order of the slots, with its ordinal, place,
        // handle, peer, ATT_MTU, key and authorization, whether it is ending, and when it was last
        // heard.
        ensures server { result ≡ connections_in self.now }
        // They are those of the state machine. Ordinals count from 1.
        ensures run { (start : Start) (input : List Item) (sent : List Octets)
            → RefinesRun (run start input) sent self.now
            → result ≡ connections_of (run start input).intake.heard
            (run start input).intake.state }
    {
        Connections {
            slots: &self.server.slots,
            arrivals: &self.frames.arrivals,
            place: 0,
        }
    }

    /// Returns the connection with this handle, if there is one.
    pub fn connection(&self, handle: u16) -> Option<Connection>
        // The connection with the handle, if one has it.
        ensures server { result ≡ connection_with handle (connections_in self.now) }
        ensures run { (start : Start) (input : List Item) (sent : List Octets)
            → RefinesRun (run start input) sent self.now
            → result ≡ connection_with handle (connections_of (run start input).intake.heard
            (run start input).intake.state) }
    {
        for connection in self.connections() {
            if connection.handle == handle {
                return Some(connection);
            }
        }
        None
    }

    /// Returns the configurations in force of the connection with this handle, if there is one:
    /// those of its peer if the link has a key, else its own.
    pub fn row(&self, handle: u16) -> Option<&ConfigRow>
        ensures in_force { option_copied result ≡ row_in_force_of self.now handle }
    {
        let place = self.server.slots.find_holding(handle)?;
        self.server.slots.row(place, &self.server.rows)
    }

    /// Returns the table with its values, the keys and the rows, even after a fault.
    pub fn into_parts(self) -> (Table, Keys, Rows)
        // Table, keys and rows can be taken out of each host, also of one that has stopped.
        ensures table { result.0 ≡ self.server.table }
        ensures keys { result.1 ≡ self.server.keys }
        ensures rows { result.2 ≡ self.server.rows }
    {
        let Server {
            table,
            keys,
            rows,
            ..
        } = self.server;
        (table, keys, rows)
    }
}
