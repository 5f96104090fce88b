//! The reasons for which no controller is reached.

ghost use Rattle.std.specs.Prelude.{◌≡◌};
ghost use Rattle.std.specs.IoError.{raw_os_error};
ghost use Rattle.device_io.specs.Missed.{missed_by};

use crate::connector::Connector;
use crate::log::Log;
use std::alloc::{AllocError, Global};
use std::io;
use std::time::Clock;

/// Why no controller is reached.
#[derive(Clone, Copy, PartialEq, Eq)]
pub(crate) enum Missed {
    /// A call of the system fails with the error of this number.
    Failed(i32),
    /// A line belongs to another user, who is not root.
    OtherUser,
    /// Another program has locked the line.
    Taken,
    /// An address does not answer.
    Silent,
    /// The system cannot wait for what was opened.
    Unwatched,
}

impl Missed {
    /// Returns the reason that an error is.
    pub(crate) fn of(error: &io::Error) -> Missed
        ensures { result ≡ missed_by (raw_os_error error.now) }
    {
        match error.raw_os_error() {
            Some(number) => Missed::Failed(number),
            None => Missed::Unwatched,
        }
    }

    /// Logs the reason, with the place in which a connector looks for its controller.
    pub(crate) fn say<R: Clock + Eprint>(self, connector: &Connector<'_>, log: &Log<'_, R>) {
        if let Ok(line) = self.line(log.alloc, connector) {
            log.say_of("controller:", line.as_str());
        }
    }

    fn line(self, alloc: Global, connector: &Connector<'_>) -> Result<String, AllocError> {
        let reason = self.text(alloc)?;
        let reason = reason.as_str();
        match connector {
            Connector::Listen(_) => format!(in alloc; "not accepted: {reason}"),
            Connector::Connect(address) => format!(in alloc; "{address}: {reason}"),
            Connector::Serial(path) => format!(in alloc; "{path}: {reason}"),
        }
    }

    fn text(self, alloc: Global) -> Result<String, AllocError> {
        match self {
            Missed::Failed(number) => {
                let error = io::Error::from_raw_os_error(number);
                format!(in alloc; "{error}")
            }
            Missed::OtherUser => format!(in alloc; "belongs to another user"),
            Missed::Taken => format!(in alloc; "another program has it"),
            Missed::Silent => format!(in alloc; "no answer"),
            Missed::Unwatched => format!(in alloc; "no line or socket that can be waited for"),
        }
    }
}
