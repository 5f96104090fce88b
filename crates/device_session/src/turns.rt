//! Turns of the clock, the controller and the application.

ghost use Rattle.std.specs.Prelude.{◌≡◌, false};
ghost use Rattle.device_session.specs.Turns.{after_reading, after_tick, after_work, at_first, reads, tick_at, JudgesAfterWork, ReadsInTurn, SparesOthers, TicksIncrease};

#[derive(Clone, Copy)]
pub(crate) struct Turns {
    /// The last time passed to the host, in milliseconds.
    time: u64,
    /// Set if the last turn was the clock's, and the device has not worked since.
    is_told: bool,
    /// Set if the clock was read after the last work of the device.
    is_current: bool,
    was_read: bool,
}

impl Turns {
    #[tactic(auto, using(crate::proofs::Alternating::ticks_increase, crate::proofs::Alternating::reads_in_turn, crate::proofs::Alternating::spares_others, crate::proofs::Working::judges_after_work))]
    pub(crate) fn new() -> Turns
        ensures first { result ≡ at_first }
        // Each time that the host gets is later than the one before.
        ensures times { TicksIncrease }
        // A controller that is not read while it is readable is read in the next turn in which it
        // is readable.
        ensures controller { ReadsInTurn }
        // It is not read in two turns running while other input is there.
        ensures others { SparesOthers }
        // After any turns and any work: the host gets octets and lines only at a time that was read
        // after the last work of the device, for example a save.
        ensures work { JudgesAfterWork }
    {
        Turns {
            time: 0,
            is_told: false,
            is_current: false,
            was_read: false,
        }
    }

    pub(crate) fn time(&self) -> u64
        ensures { result ≡ self.now.time }
    {
        self.time
    }

    /// Returns true if the clock was read after the last work of the device.
    pub(crate) fn is_current(&self) -> bool
        ensures { result ≡ self.now.is_current }
    {
        self.is_current
    }

    /// Notes that the device has worked: the clock is to be read again.
    pub(crate) fn worked(&mut self)
        ensures { self.new ≡ after_work self.old }
    {
        self.is_told = false;
        self.is_current = false;
    }

    /// Returns true if the host has just got the time, and resets that.
    pub(crate) fn was_told(&mut self) -> bool
        ensures told { result ≡ self.old.is_told }
        ensures reset { self.new ≡ record self.old { is_told = false } }
    {
        let was_told = self.is_told;
        self.is_told = false;
        was_told
    }

    /// Returns the time if it has advanced.
    pub(crate) fn tick(&mut self, now: u64) -> Option<u64>
        ensures time { result ≡ tick_at self.old now }
        ensures turn { self.new ≡ after_tick self.old now }
    {
        self.is_current = true;
        if now <= self.time {
            return None;
        }
        self.time = now;
        self.is_told = true;
        Some(now)
    }

    /// Returns true if the controller is read now. It takes turns with other input.
    pub(crate) fn is_read(&mut self, is_readable: bool, has_other: bool) -> bool
        ensures read { result ≡ reads self.old is_readable has_other }
        ensures turn { self.new ≡ after_reading self.old is_readable has_other }
    {
        self.was_read = is_readable && !(self.was_read && has_other);
        self.was_read
    }
}
