//! When the watchdog of a supervisor is fed. Times are in milliseconds.

ghost use Rattle.std.specs.Prelude.{◌≡◌, ◌+◌, ◌-◌, ◌^◌, min, Some, IfSome, IsTrue, IsFalse};
ghost use Rattle.std.specs.Option.{option_map};
ghost use Rattle.device_io.specs.Served.{is_late};
ghost use Rattle.device_io.specs.Notify.{half_in_millis};

/// The next feeding of a watchdog, if there is one, and the time between two.
#[derive(Clone, Copy)]
pub(crate) struct Watchdog {
    due: Option<u64>,
    interval: u64,
}

impl Watchdog {
    /// Returns a watchdog that waits for so many microseconds, and is fed at half of that. It is
    /// fed for the first time at once.
    pub(crate) fn new(micros: Option<u64>) -> Watchdog
        ensures due { result.due ≡ option_map (λ _. 0) micros }
        ensures interval { IfSome micros (λ micros. result.interval ≡ half_in_millis micros) }
    {
        match micros {
            Some(micros) => Watchdog {
                due: Some(0),
                interval: half_in_millis(micros),
            },
            None => Watchdog {
                due: None,
                interval: 0,
            },
        }
    }

    /// Returns when it is fed next.
    pub(crate) fn due(&self) -> Option<u64>
        ensures { result ≡ self.now.due }
    {
        self.due
    }

    /// Returns true if it is fed now. It is due again after the interval.
    pub(crate) fn is_fed(&mut self, now: u64) -> bool
        ensures fed { result ≡ is_late self.old.due now }
        ensures next { IsTrue result
            → self.new.due ≡ Some (min (now + self.old.interval) (2 ^ 64 - 1)) }
        ensures waits { IsFalse result → self.new ≡ self.old }
        ensures interval { self.new.interval ≡ self.old.interval }
    {
        match self.due {
            Some(due) if due <= now => {
                self.due = Some(now.saturating_add(self.interval));
                true
            }
            _ => false,
        }
    }
}

fn half_in_millis(micros: u64) -> u64
    ensures { result ≡ half_in_millis micros }
{
    let millis = micros / 2_000;
    if millis == 0 { 1 } else { millis }
}
