//! The delay before an application is accepted again after a failure.
//!
//! Without it, the device would retry at once and for ever, for example for lack of descriptors.

ghost use Rattle.std.specs.Prelude.{◌≡◌, not};
ghost use Rattle.device_session.specs.Acceptance.{accepting, accepts_at, after_failure, after_success};

/// The delay, in milliseconds.
const ACCEPT_TIME: u64 = 1_000;

/// The state of the listener for applications.
#[derive(Clone, Copy)]
pub(crate) struct Acceptance {
    retry: Option<u64>,
    /// Set if accepting has failed since the last application.
    is_failing: bool,
}

impl Acceptance {
    pub(crate) fn new() -> Acceptance
        ensures { result ≡ accepting }
    {
        Acceptance {
            retry: None,
            is_failing: false,
        }
    }

    pub(crate) fn due(&self) -> Option<u64>
        ensures { result ≡ self.now.retry }
    {
        self.retry
    }

    /// Returns true if an application must be accepted now.
    pub(crate) fn is_due(&self, connects: bool, now: u64) -> bool
        ensures { result ≡ accepts_at self.now connects now }
    {
        match self.retry {
            Some(retry) => retry <= now,
            None => connects,
        }
    }

    /// Notes that accepting did not fail, and whether an application was there.
    pub(crate) fn succeed(&mut self, is_accepted: bool)
        ensures { self.new ≡ after_success self.old is_accepted }
    {
        self.retry = None;
        self.is_failing = self.is_failing && !is_accepted;
    }

    /// Notes a failure. Returns true if it is the first since the last application.
    pub(crate) fn fail(&mut self, now: u64) -> bool
        ensures first { result ≡ not self.old.is_failing }
        ensures failed { self.new ≡ after_failure now }
    {
        let is_first = !self.is_failing;
        self.is_failing = true;
        self.retry = Some(now.saturating_add(ACCEPT_TIME));
        is_first
    }
}
