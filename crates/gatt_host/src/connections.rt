//! Iteration over the connections of a host.

ghost use Rattle.std.specs.Prelude.{length};
ghost use Rattle.std.specs.Iterator.{at_most};
ghost use Rattle.gatt_host.specs.Connections.{HandsOutTheFirst};

use host_api::Connection;
use host_connections::{Arrivals, Slots};
use std::iter::FusedIterator;
use std::marker::Model;

/// Iterator over the connections of a host, in slot order.
#[derive(Drop)]
pub struct Connections<'a> {
    pub(crate) slots: &'a Slots,
    pub(crate) arrivals: &'a Arrivals,
    pub(crate) place: usize,
}

impl<'a> Model for Connections<'a> {
    ghost use Rattle.std.specs.Prelude.{List};
    ghost use Rattle.host_connections.specs.Connections.{connections_left};
    ghost use Rattle.host_api.specs.declared.connection.Connection.{Connection};

    ghost Value = { List Connection };

    ghost view = { λ c. connections_left c.slots.now c.arrivals.now c.place };
}

impl<'a> Iterator for Connections<'a> {
    type Item = Connection;

    ghost next_gives = { HandsOutTheFirst };

    ghost remaining = { λ left. at_most (length left) };

    fn next(&mut self) -> Option<Connection> {
        let (behind, connection) = self.slots.next_connection(self.arrivals, self.place)?;
        self.place = behind;
        Some(connection)
    }
}

impl<'a> FusedIterator for Connections<'a> {}
