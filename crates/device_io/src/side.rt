//! The controller that is served, or the reason why none is.

ghost use Rattle.std.specs.Prelude.{◌≡◌, false, is_none, None, Some};
ghost use Rattle.std.specs.Option.{option_copied};
ghost use Rattle.device_io.specs.Controller as spec;
ghost use Rattle.device_io.specs.declared.side.Side.TheVariants.{Next, Nobody};

use crate::connecting::Connecting;
use crate::connector::Connector;
use crate::log::Log;
use crate::missed::Missed;
use crate::served::Served;
use crate::transport::Transport;
use std::alloc::Global;
use std::time::Clock;

/// The controller that is served, if any. `missed` is why none is, as the log says.
#[derive(Drop)]
pub(crate) enum Side {
    Nobody {
        missed: Option<Missed>,
    },
    /// A connection is being made.
    Next {
        connecting: Connecting,
        missed: Option<Missed>,
    },
    Served(Served),
}

impl Side {
    pub(crate) fn served(&self) -> Option<&Served>
        ensures { option_copied result ≡ spec.served_by self.now }
    {
        match self {
            Side::Served(served) => Some(served),
            Side::Nobody { .. } | Side::Next { .. } => None,
        }
    }

    /// Returns why nobody is served, as the log says.
    pub(crate) fn missed(&self) -> Option<Missed>
        ensures { result ≡ spec.missed_in self.now }
    {
        match self {
            Side::Nobody { missed } => *missed,
            Side::Next { missed, .. } => *missed,
            Side::Served(_) => None,
        }
    }

    pub(crate) fn is_answered(&self) -> bool
        ensures { result ≡ spec.is_answered_in self.now }
    {
        match self {
            Side::Next { connecting, .. } => connecting.is_answered(),
            Side::Nobody { .. } | Side::Served(_) => false,
        }
    }

    /// Ends a connection that is being made, and returns it.
    pub(crate) fn abandon(&mut self) -> Option<Connecting>
        ensures connecting { is_none result ≡ is_none (spec.connecting_in self.old) }
        ensures abandoned { self.new ≡ spec.abandoned self.old }
    {
        match std::mem::replace(self, Side::Nobody { missed: None }) {
            Side::Next { connecting, missed } => {
                *self = Side::Nobody { missed };
                Some(connecting)
            }
            side => {
                *self = side;
                None
            }
        }
    }

    /// Notes that a connection is being made.
    pub(crate) fn begin(&mut self, transport: Transport)
        ensures { self.new ≡ Next (record { is_answered = false }) (spec.missed_in self.old) }
    {
        *self = Side::Next {
            connecting: Connecting::new(transport),
            missed: self.missed(),
        };
    }

    /// Serves a controller that is reached at `now`.
    pub(crate) fn serve(&mut self, alloc: Global, transport: Transport, patience: u64, now: u64)
        ensures { self.new ≡ spec.after_entry now None }
    {
        transport.notice_vanished_peer(patience.saturating_mul(2));
        *self = Side::Served(Served::new(alloc, transport, now));
    }

    /// Ends a connection that is being made, and was not answered in time.
    pub(crate) fn end_unanswered<R: Clock + Eprint>(
        &mut self,
        connector: &Connector<'_>,
        log: &Log<'_, R>,
    )
        ensures { self.new ≡ spec.unanswered self.old }
    {
        if matches!(self, Side::Next { .. }) {
            self.miss(Missed::Silent, connector, log);
        }
    }

    /// Logs why no controller is reached, unless the log says so already.
    pub(crate) fn miss<R: Clock + Eprint>(
        &mut self,
        missed: Missed,
        connector: &Connector<'_>,
        log: &Log<'_, R>,
    )
        ensures { self.new ≡ Nobody (Some missed) }
    {
        if self.missed() != Some(missed) {
            missed.say(connector, log);
        }
        *self = Side::Nobody {
            missed: Some(missed),
        };
    }

    pub(crate) fn lose(&mut self)
        ensures { self.new ≡ spec.lost self.old }
    {
        if self.served().is_some() {
            *self = Side::Nobody { missed: None };
        }
    }
}
