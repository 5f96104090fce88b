//! A device of two sides, all of whose octets and calls are known.

ghost use Rattle.std.specs.Prelude.{◌≡◌, map, None, Some};
ghost use Rattle.gatt_host.specs.Calls.{call_of};
ghost use Rattle.host_tests.specs.Sides.{FeedsBoth};

use device_loop::{End, Happenings, Next, serve_happenings};
use gatt_host::{App, AppFault, Host, HostFault, Listener};
use octet_io::Sink;

/// A controller that sends these octets and an application that makes these calls. They take turns
/// while both have something left.
#[derive(Drop)]
pub struct TwoSides {
    /// The octets to come.
    pub octets: &'static [u8],
    /// The calls to be made.
    pub calls: &'static [App<'static>],
    /// The maximum number of octets of an event.
    pub most: usize,
    /// If true, the next event is a call if there is one.
    pub calls_next: bool,
    /// The number of calls that were refused.
    pub refused: usize,
}

impl Happenings for TwoSides {
    ghost octets = { λ sides. Some sides.octets.now };

    ghost calls = { λ sides. Some (map call_of sides.calls.now) };

    ghost history = { λ _. None };

    fn next<'a>(&mut self, _deadline: Option<u64>, _buffer: &'a mut [u8]) -> Next<'a> {
        if (self.calls_next || self.octets.is_empty())
            && let [call, rest @ ..] = self.calls
        {
            self.calls_next = false;
            self.calls = rest;
            return Next::Call(*call);
        }
        if self.octets.is_empty() {
            return Next::Ended;
        }
        self.calls_next = true;
        let (octets, rest) = self
            .octets
            .split_at_checked(self.most)
            .unwrap_or((self.octets, &[]));
        self.octets = rest;
        Next::Octets(octets)
    }

    fn answered(&mut self, answer: Result<(), AppFault>) {
        if answer.is_err() {
            self.refused = self.refused.saturating_add(1);
        }
    }
}

/// Serves a host the octets and calls of two sides, one in each of at most `turns` turns.
pub fn serve_both<W: Sink, L: Listener>(
    host: &mut Host,
    sides: &mut TwoSides,
    out: &mut W,
    listener: &mut L,
    turns: u64,
) -> Result<End, HostFault>
    // The host is fed what is gone from the two sides, each in its order, and nothing else.
    ensures both { host.old.fault ≡ None
        → FeedsBoth sides.old.octets.now sides.new.octets.now
        (map call_of sides.old.calls.now) (map call_of sides.new.calls.now) host.old host.new
        (W.contents out.old) (W.contents out.new) }
{
    serve_happenings(host, sides, out, listener, turns)
}
