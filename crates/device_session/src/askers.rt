//! The order of the lines of the application and of its visitor. All times are in milliseconds.

ghost use Rattle.std.specs.Prelude.{◌≡◌};
ghost use Rattle.device_session.specs.Askers.{after_choice, at_first, IsHeardInTime};

/// The most turns that a visitor waits for an application that keeps sending.
pub(crate) const MOST_WAITS: u32 = 128;

/// The time after which the line of a waiting visitor goes first.
pub(crate) const HEARING_TIME: u64 = 1_000;

/// The sender of the line to be answered.
#[derive(Clone, Copy, PartialEq, Eq)]
pub(crate) enum Asker {
    Application,
    Visitor,
}

/// The sender of the last line, and the wait of a visitor.
#[derive(Clone, Copy)]
pub(crate) struct Askers {
    pub(crate) asker: Asker,
    /// The turns that a visitor has waited.
    waits: u32,
    /// The time of the first of these turns.
    since: u64,
}

impl Askers {
    pub(crate) fn new() -> Askers
        ensures first { result ≡ at_first }
        // For all earlier and later turns:
        ensures in_time { IsHeardInTime }
    {
        Askers {
            asker: Asker::Application,
            waits: 0,
            since: 0,
        }
    }

    /// Chooses the sender of the next line. An application that `is_busy` goes first, up to a
    /// limit, so that a visitor sees the effects of its lines.
    pub(crate) fn choose(&mut self, is_visited: bool, is_busy: bool, now: u64)
        ensures { self.new ≡ after_choice self.old
            (record { visited = is_visited; busy = is_busy; now = now }) }
    {
        if self.waits == 0 {
            self.since = now;
        }
        let waited = now.saturating_sub(self.since);
        let is_first = is_busy && self.waits < MOST_WAITS && waited < HEARING_TIME;
        self.waits = if is_visited && is_first {
            self.waits + 1
        } else {
            0
        };
        self.asker = if is_visited && !is_first {
            Asker::Visitor
        } else {
            Asker::Application
        };
    }
}
