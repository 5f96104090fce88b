//! Arrivals of connections.

ghost use Rattle.std.specs.Prelude.{◌≡◌, ◌<◌};
ghost use Rattle.host_connections.specs.Arrivals.{no_arrivals, with_accepted, with_heard};

use host_api::MAX_SLOTS;

/// The connections in the order of acceptance, and when each was last heard.
#[derive(Clone, Copy)]
pub struct Arrivals {
    /// The number of accepted connections, at most 2^64 - 1.
    pub accepted: u64,
    /// The number of each slot's last connection, from 1; 0 if it had none.
    pub ordinals: [u64; MAX_SLOTS],
    /// The time of that connection's last packet, in milliseconds.
    pub heard: [u64; MAX_SLOTS],
}

impl Arrivals {
    /// Returns the arrivals of a host without connections.
    pub fn none() -> Arrivals
        ensures { result ≡ no_arrivals }
    {
        Arrivals {
            accepted: 0,
            ordinals: [0; MAX_SLOTS],
            heard: [0; MAX_SLOTS],
        }
    }

    /// Counts a connection that takes the slot at a place; the time is in milliseconds.
    pub fn accept(&mut self, place: usize, time: u64)
        requires { place < MAX_SLOTS }
        ensures { self.new ≡ with_accepted place time self.old }
    {
        self.accepted = self.accepted.saturating_add(1);
        self.ordinals[place] = self.accepted;
        self.heard[place] = time;
    }

    /// Notes the time, in milliseconds, of a packet for a slot.
    pub fn note_packet(&mut self, place: usize, time: u64)
        requires { place < MAX_SLOTS }
        ensures { self.new ≡ with_heard place time self.old }
    {
        self.heard[place] = time;
    }
}
