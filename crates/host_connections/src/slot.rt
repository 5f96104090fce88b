ghost use Rattle.std.specs.Prelude.{◌≡◌, ◌<◌, ◌^◌, IfSome};

use att_policy::KeyFacts;
use att_table::ConfigRow;
use gatt_conn::Conn;
use gatt_subs::PendingOfTable;
use le_acl::Sender;
use le_hci::Peer;
use le_security::Link;
use std::marker::Model;

/// The use of a slot. An ending connection is being disconnected, and nothing more is sent on it.
#[derive(Clone, Copy, PartialEq, Eq)]
pub(crate) enum Use {
    Free,
    Live,
    Ending,
}

/// A slot, with memory for all that its connection may need.
#[derive(Drop)]
pub struct Slot {
    pub(crate) used: Use,
    pub(crate) handle: u16,
    pub(crate) peer: Peer,
    /// A key of the peer is known.
    pub(crate) key_known: bool,
    /// The connection is authorized while the time, in milliseconds, is below this.
    pub(crate) until: u64,
    /// The connection's own configurations, while its link has no key.
    pub(crate) row: ConfigRow,
    pub(crate) link: Link,
    pub(crate) conn: Conn,
    pub(crate) pending: PendingOfTable,
    pub(crate) sender: Sender,
    /// The pending reply to a request for the key: the key, or that there is none.
    pub(crate) reply: Option<Option<[u8; 16]>>,
    /// The reason of a Disconnect that is not sent yet.
    pub(crate) reason: Option<u8>,
}

impl Model for Slot {
    ghost use Rattle.std.specs.Prelude.{◌<◌, ◌^◌, Option};
    ghost use Rattle.host_connections.specs.SlotState.{SlotState};
    ghost use Rattle.host_connections.specs.Use.{slot_state_where};

    ghost Value = { Option SlotState };

    ghost view = { λ slot. slot_state_where slot.used slot.handle slot.peer slot.key_known
        slot.until slot.row slot.link slot.conn slot.pending slot.sender slot.reply slot.reason };

    ghost invariant = { λ slot. slot.handle < 2 ^ 12 };
}

impl Slot {
    /// Returns the handle of the connection.
    pub fn handle(&self) -> u16
        ensures { IfSome self.now (λ slot_state. result ≡ slot_state.handle) }
    {
        self.handle
    }

    /// Returns the facts of the link's key, if the link has one.
    pub fn key(&self) -> Option<KeyFacts>
        ensures { IfSome self.now (λ slot_state. result ≡ slot_state.link.key) }
    {
        self.link.facts()
    }
}
