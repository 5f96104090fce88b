//! The octets that wait for a controller. All times are in milliseconds.

ghost use Rattle.std.specs.Prelude.{◌≡◌, ◌≤◌, length, IfErr, IfOk};
ghost use Rattle.std.specs.Bool.{OnFalse, OnTrue};
ghost use Rattle.device_io.specs.Outbound.{after_accepted, fits, nothing_waits, stalled_since, with_octets};

use app_lines::Outbox;
use std::alloc::{AllocError, Global};

/// The most octets that may wait for a controller or for an application.
///
/// One read of a controller causes at most 360,000 for an application: 8 clients each execute 32
/// prepared writes, and the rest are Write Commands.
pub const MOST_WAITING: usize = 1_048_576;

/// The octets that wait for a controller, and since when it has accepted none of them.
#[derive(Drop)]
pub(crate) struct Outbound {
    outbox: Outbox,
    since: u64,
}

impl Outbound {
    pub(crate) fn new(alloc: Global) -> Outbound
        ensures { result ≡ nothing_waits }
    {
        Outbound {
            outbox: Outbox::new(alloc, MOST_WAITING),
            since: 0,
        }
    }

    /// Returns the waiting octets, the next to be sent first.
    pub(crate) fn waiting(&self) -> &[u8]
        ensures { result.now ≡ self.now.outbox.octets }
    {
        self.outbox.waiting()
    }

    /// Returns since when it has accepted none of the waiting octets, if any wait.
    pub(crate) fn stalled_since(&self) -> Option<u64>
        ensures { result ≡ stalled_since self.now }
    {
        if self.outbox.waiting().is_empty() {
            None
        } else {
            Some(self.since)
        }
    }

    /// Queues octets. Returns false and changes nothing if too many wait.
    ///
    /// An error changes nothing either: memory was refused.
    pub(crate) fn queue(&mut self, octets: &[u8], now: u64) -> Result<bool, AllocError>
        ensures fits { IfOk result (λ is_queued. is_queued ≡ fits self.old octets.now) }
        ensures queued { IfOk result
            (λ is_queued. OnTrue is_queued (self.new ≡ with_octets self.old octets.now now)) }
        ensures unchanged { IfOk result (λ is_queued. OnFalse is_queued (self.new ≡ self.old)) }
        ensures refused { IfErr result (λ _. self.new ≡ self.old) }
    {
        let was_empty = self.outbox.waiting().is_empty();
        let is_queued = self.outbox.push(octets)?;
        if is_queued && was_empty {
            self.since = now;
        }
        Ok(is_queued)
    }

    /// Removes the first `count` octets, which the controller has accepted.
    pub(crate) fn accepted(&mut self, count: usize, now: u64)
        requires { count ≤ length self.old.outbox.octets }
        ensures { self.new ≡ after_accepted self.old count now }
    {
        self.outbox.remove_sent(count);
        if count > 0 {
            self.since = now;
        }
    }
}
