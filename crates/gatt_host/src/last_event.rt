//! The last event, as the source of the notices.

use att_policy::KeyFacts;
use host_connections::Brought;
use le_hci::Peer;

/// The last event. The notices are computed from it on demand.
#[derive(Clone, Copy)]
pub(crate) enum LastEvent {
    /// No notice.
    Quiet,
    Connected {
        handle: u16,
        peer: Peer,
    },
    Disconnected {
        handle: u16,
    },
    /// The key of a link changed from `before` to `after`.
    LinkChanged {
        handle: u16,
        before: Option<KeyFacts>,
        after: Option<KeyFacts>,
    },
    /// A connection was served a PDU. `Server::written` has the handles that it wrote.
    Served {
        place: usize,
        handle: u16,
        brought: Brought,
    },
    /// The host ends a connection for a reason.
    Ended {
        handle: u16,
        reason: u8,
    },
    /// The time was set. `Server::late` has the connections that timed out.
    Ticked,
}
