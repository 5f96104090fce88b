//! The notices that a listener has received, which only proofs read.

ghost use Rattle.std.specs.Prelude.{◌≡◌, List, [], ◌∷◌, ◌++◌};
ghost use Rattle.std.specs.Borrow.{ftrue};
ghost use Rattle.device_loop.specs.ReceivedCode.{coded_received};
ghost use Rattle.gatt_host.specs.Notices.{received_from};
ghost use Rattle.gatt_laws.specs.machine.Notice as machine;

use gatt_host::Notice;
use std::marker::Model;

/// The notices so far, with their values. A program keeps none of them.
#[derive(Drop)]
pub struct Received {
    kept: u8,
    pub ghost notices: { List machine.Received } by { coded_received },
}

impl Model for Received {
    ghost also_owns = { λ _. ftrue };
}

impl Received {
    /// Returns no notices.
    pub fn none() -> Received
        ensures { result.notices ≡ [] }
    {
        Received { kept: 0 }
    }

    /// Returns the notices with one more at their end.
    pub fn with(&self, _notice: &Notice<'_>) -> Received
        ensures { result.notices ≡ self.now.notices ++ received_from _notice.now ∷ [] }
    {
        Received { kept: 0 }
    }
}
