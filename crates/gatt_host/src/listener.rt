//! Listeners, which receive the notices of a host.

ghost use Rattle.std.specs.Prelude.{◌≡◌, List, Option, None, [], ◌∷◌};
ghost use Rattle.std.specs.Bool.{OnFalse};
ghost use Rattle.gatt_laws.specs.machine.Notice.{Received};
ghost use Rattle.gatt_host.specs.Listening.{Hears};
ghost use Rattle.gatt_host.specs.Notices.{received_from};
ghost use Rattle.gatt_host.specs.Telling.{received_told};

use crate::host::Host;
use host_api::Notice;

/// Receives the notices of a host, one after another.
pub trait Listener {
    /// Notices received so far, with their values, if they are known.
    ghost heard: { Self → Option (List Received) } = { λ listener. None };

    /// Receives one more notice.
    fn hear(&mut self, notice: Notice<'_>)
        ensures heard { Hears (received_from notice.entry ∷ []) (heard self.old) (heard self.new) };

    /// Returns true if it receives notices; `hear` is not called otherwise.
    fn listens(&self) -> bool
        ensures deaf { OnFalse result (heard self.now ≡ None) }
    {
        true
    }
}

/// A listener that receives nothing.
#[derive(Clone, Copy, Debug, Drop)]
pub(crate) struct Nobody;

impl Listener for Nobody {
    fn hear(&mut self, _notice: Notice<'_>) {}

    fn listens(&self) -> bool {
        false
    }
}

/// Delivers the notices of the last input to a listener, with their values.
pub fn deliver_notices<L: Listener>(host: &Host, listener: &mut L)
    ensures hears { Hears (received_told host.now) (L.heard listener.old) (L.heard listener.new) }
{
    if listener.listens() {
        deliver_each(host, listener);
    }
}

fn deliver_each<L: Listener>(host: &Host, listener: &mut L)
    ensures hears { Hears (received_told host.now) (L.heard listener.old) (L.heard listener.new) }
{
    for notice in host.notices() {
        listener.hear(notice);
    }
}
