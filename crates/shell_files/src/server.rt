ghost use Rattle.std.specs.Prelude.{◌≡◌, Some, None, if◌then◌else◌, IfErr, IfOk};
ghost use Rattle.std.specs.Option.{option_map};
ghost use Rattle.att_pdu.specs.Response.{sent};
ghost use Rattle.att_table.specs.ConfigRow.{IsRowOf};
ghost use Rattle.shell_files.specs.Att.{answer_from, door, door_server, server_after, server_with};
ghost use Rattle.shell_files.specs.Session.{IsStartFault};

use crate::fault::ShellFault;
use arrayvec::ArrayVec;
use att_table::examples::DOOR;
use att_table::{ConfigRow, Table, TableFault};
use gatt_conn::{Conn, answer_into};
use octet_io::PduOctets;
use std::alloc::Global;
use std::marker::Model;

/// The example door lock's table, and one connection of an unknown peer.
#[derive(Drop)]
pub(crate) struct DoorServer {
    table: Table,
    row: ConfigRow,
    conn: Conn,
}

impl Model for DoorServer {
    ghost use Rattle.att_table.specs.ConfigRow.{IsRowOf};
    ghost use Rattle.shell_files.specs.Att.{Server};

    ghost Value = { Server };

    ghost view = { λ server.
        record { table = server.table; row = server.row; conn = server.conn } };

    ghost invariant = { λ server. IsRowOf server.table.attributes server.row };
}

impl DoorServer {
    /// Returns a server with a new connection.
    pub(crate) fn new(alloc: Global) -> Result<DoorServer, ShellFault>
        ensures server { IfOk result (λ server. server ≡ door_server) }
        ensures refused { IfErr result IsStartFault }
    {
        let table = door_table(alloc)?;
        Ok(DoorServer {
            table,
            row: ConfigRow::new(),
            conn: Conn::new(alloc)?,
        })
    }

    /// Serves a PDU. Returns true if it has an answer, which `octets` then contains.
    pub(crate) fn answer(&mut self, pdu: &[u8], octets: &mut PduOctets) -> bool
        ensures answer { option_map sent (answer_from self.old pdu.now)
            ≡ (if result then Some octets.new.items else None) }
        ensures server { self.new ≡ server_after self.old pdu.now }
    {
        answer_from(&mut self.table, &mut self.row, &mut self.conn, pdu, octets)
    }
}

fn answer_from(
    table: &mut Table,
    row: &mut ConfigRow,
    conn: &mut Conn,
    pdu: &[u8],
    octets: &mut PduOctets,
) -> bool
    requires row { IsRowOf table.old.attributes row.old }
    ensures answer { option_map sent (answer_from (server_with table.old row.old conn.old) pdu.now)
        ≡ (if result then Some octets.new.items else None) }
    ensures server { server_with table.new row.new conn.new
        ≡ server_after (server_with table.old row.old conn.old) pdu.now }
    ensures table { IsRowOf table.new.attributes row.new }
{
    let mut touched = ArrayVec::new();
    answer_into(table, row, conn, pdu, octets, &mut touched).due
}

#[tactic(auto, unfolding(crate::specs::Att::door))]
fn door_table(alloc: Global) -> Result<Table, ShellFault>
    ensures door { IfOk result (λ table. table ≡ door) }
    ensures refused { IfErr result IsStartFault }
{
    match Table::read(alloc, DOOR) {
        Ok(table) => Ok(table),
        Err(TableFault::OutOfMemory) => Err(ShellFault::Memory),
        Err(fault) => Err(ShellFault::Table(fault.number())),
    }
}
