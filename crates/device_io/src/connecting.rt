//! A connection to a controller that is being made.

ghost use Rattle.std.specs.Prelude.{◌≡◌, false, true};

use crate::missed::Missed;
use crate::poller::{Poller, Source};
use crate::transport::Transport;
use std::marker::Model;

/// A connection that is being made. It is made, or has failed, once it is answered.
#[derive(Drop)]
pub(crate) struct Connecting {
    transport: Transport,
    is_answered: bool,
}

impl Model for Connecting {
    ghost use Rattle.device_io.specs.Connecting as value;

    ghost Value = { value.Connecting };

    ghost view = { λ connecting. record { is_answered = connecting.is_answered } };
}

impl Connecting {
    pub(crate) fn new(transport: Transport) -> Connecting
        ensures { result.is_answered ≡ false }
    {
        Connecting {
            transport,
            is_answered: false,
        }
    }

    pub(crate) fn is_answered(&self) -> bool
        ensures { result ≡ self.now.is_answered }
    {
        self.is_answered
    }

    /// Notes that it is answered.
    pub(crate) fn answer(&mut self)
        ensures { self.new.is_answered ≡ true }
    {
        self.is_answered = true;
    }

    /// Returns its transport, or why it is not made.
    pub(crate) fn made(self, poller: &Poller) -> Result<Transport, Missed> {
        let transport = self.transport;
        if let Some(error) = transport.connect_error() {
            return Err(Missed::of(&error));
        }
        if poller.again(&transport, Source::Controller).is_err() {
            return Err(Missed::Unwatched);
        }
        Ok(transport)
    }
}
