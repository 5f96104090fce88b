//! Events of a host, one after another: from its controller or its application.

ghost use Rattle.std.specs.Prelude.{◌≡◌, ◌∷◌, [], List, Option};
ghost use Rattle.std.specs.Io.KnownBytes.{Consumes};
ghost use Rattle.gatt_host.specs.Asked.{refusal_in_result};
ghost use Rattle.gatt_laws.specs.machine.Calls.{Call};
ghost use Rattle.octet_io.specs.Number.{Octets};
ghost use Rattle.device_loop.specs.Happenings.{next_calls, next_entry, next_octets, Answered, HistoryEntry, Hands, Records, Waited};

use gatt_host::{App, AppFault};

/// The next event.
#[derive(Clone, Copy)]
pub enum Next<'a> {
    /// Octets from the controller, which may begin and end anywhere in a packet.
    Octets(&'a [u8]),
    /// A call of the application, or a tick.
    Call(App<'a>),
    /// The stream from the controller has ended.
    Ended,
    /// The stream from the controller cannot be read.
    Failed,
}

/// Events from the controller and the application, each in its own order.
pub trait Happenings {
    /// Future octets from the controller, if known.
    ghost octets: { Self → Option Octets };

    /// Future calls of the application, if known.
    ghost calls: { Self → Option (List Call) };

    /// Past events and the answers to calls, if known.
    ghost history: { Self → Option (List HistoryEntry) };

    /// Waits for the next event and returns it. The octets of the controller or of a value may be
    /// in `buffer`. If nothing happens before `deadline`, in milliseconds, the event must be a
    /// tick.
    fn next<'a>(&mut self, deadline: Option<u64>, buffer: &'a mut [u8]) -> Next<'a>
        ensures octets { Consumes (octets self.old) (octets self.new) (next_octets result) }
        ensures calls { Hands (calls self.old) (calls self.new) (next_calls result) }
        ensures history { Records (Waited deadline ∷ next_entry result ∷ [])
            (history self.old) (history self.new) };

    /// Receives the answer to the last call: done, or the reason of the refusal.
    fn answered(&mut self, answer: Result<(), AppFault>)
        ensures octets { octets self.new ≡ octets self.old }
        ensures calls { calls self.new ≡ calls self.old }
        ensures history { Records (Answered (refusal_in_result answer) ∷ [])
            (history self.old) (history self.new) };
}
