//! The clock of the time limits of peers: controller, application and visitors.
//!
//! It does not count the time that the device itself takes: while it saves, while it is stopped, or
//! while the machine is suspended.

ghost use Rattle.std.specs.Prelude.{◌≡◌};
ghost use Rattle.device_session.specs.PeerClock.{counted_after};

/// The most that counts of a wait, or of the time between two waits, in milliseconds.
const MOST: u64 = 500;

/// The longest wait while a time limit runs, in milliseconds.
pub(crate) const LONGEST_WAIT: u64 = 250;

/// The time that counts for the patience with peers, in milliseconds.
#[derive(Clone, Copy)]
pub(crate) struct PeerClock {
    counted: u64,
    /// The device's time at the last count.
    seen: u64,
}

impl PeerClock {
    /// Returns a clock that begins at 0.
    pub(crate) fn new(now: u64) -> PeerClock
        ensures counted { result.counted ≡ 0 }
        ensures seen { result.seen ≡ now }
    {
        PeerClock {
            counted: 0,
            seen: now,
        }
    }

    /// Returns the counted time.
    pub(crate) fn time(&self) -> u64
        ensures { result ≡ self.now.counted }
    {
        self.counted
    }

    /// Counts the time since the last count, but at most `MOST`.
    pub(crate) fn count(&mut self, now: u64)
        ensures counted { self.new.counted ≡ counted_after self.old.counted self.old.seen now }
        ensures seen { self.new.seen ≡ now }
    {
        let passed = now.saturating_sub(self.seen).min(MOST);
        self.counted = self.counted.saturating_add(passed);
        self.seen = now;
    }

    /// Counts none of the time since the last count.
    pub(crate) fn skip(&mut self, now: u64)
        ensures counted { self.new.counted ≡ self.old.counted }
        ensures seen { self.new.seen ≡ now }
    {
        self.seen = now;
    }
}
