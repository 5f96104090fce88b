//! The connections of slots, as the application sees them.

ghost use Rattle.std.specs.Prelude.{◌≡◌, ◌<◌, ◌≤◌, length};
ghost use Rattle.host_connections.specs.Connections.{slot_seen, FindsNext};
ghost use Rattle.host_api.specs.declared.TheConstants.{MAX_SLOTS};

use crate::arrivals::Arrivals;
use crate::slot::{Slot, Use};
use host_api::Connection;

impl Slot {
    fn connection(&self, arrivals: &Arrivals, place: usize) -> Option<Connection>
        requires { place < MAX_SLOTS }
        ensures { result ≡ slot_seen arrivals.now place self.now }
    {
        if self.used == Use::Free {
            return None;
        }
        Some(Connection {
            ordinal: arrivals.ordinals[place],
            slot: place,
            handle: self.handle,
            peer: self.peer,
            mtu: self.conn.mtu(),
            key: self.link.facts(),
            authorized_until: self.until,
            ending: self.used == Use::Ending,
            heard: arrivals.heard[place],
        })
    }
}

/// Returns the first connection from a place on, and the place after its slot.
pub(crate) fn next_connection(
    slots: &[Slot],
    arrivals: &Arrivals,
    from: usize,
) -> Option<(usize, Connection)>
    requires { length slots.now ≤ MAX_SLOTS }
    ensures { FindsNext slots.now arrivals.now from result }
{
    for place in from..slots.len() {
        if let Some(connection) = slots[place].connection(arrivals, place) {
            return Some((place + 1, connection));
        }
    }
    None
}
