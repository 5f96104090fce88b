ghost use Rattle.std.specs.Prelude.{◌≡◌};
ghost use Rattle.host_api.specs.Refusals.{number_of_refusal, text_of_refusal};

use std::error::Error;
use std::fmt;

/// A call of the application.
#[derive(Clone, Copy, Debug, PartialEq, Eq)]
pub enum App<'a> {
    /// Writes a characteristic value.
    Update(u16, &'a [u8]),
    /// Authorizes a connection while the time, in milliseconds, is below this; 0 withdraws it.
    Authorize(u16, u64),
    /// Ends a connection: Remote User Terminated Connection (0x13). Nothing more is sent to it.
    Disconnect(u16),
    /// Sets the time, in milliseconds.
    Tick(u64),
}

/// The reason why a host refuses a call or table: `Stopped` first, then the others in order.
#[derive(Clone, Copy, Debug, PartialEq, Eq)]
pub enum AppFault {
    /// No attribute has the handle.
    NoSuchHandle,
    /// The attribute is no characteristic value.
    NotAValue,
    /// The value is too long, or a fixed value has another length.
    BadLength,
    /// No connection that serves has the handle.
    NoSuchConnection,
    /// The time is before the current one.
    TimeWentBack,
    /// The host has stopped for a fault.
    Stopped,
    /// A table has no Service Changed value, or the two have different handles.
    NoServiceChanged,
}

impl AppFault {
    /// Returns the number of the fault, 1 to 7.
    pub fn number(self) -> u8
        ensures { result ≡ number_of_refusal self }
    {
        match self {
            AppFault::NoSuchHandle => 1,
            AppFault::NotAValue => 2,
            AppFault::BadLength => 3,
            AppFault::NoSuchConnection => 4,
            AppFault::TimeWentBack => 5,
            AppFault::Stopped => 6,
            AppFault::NoServiceChanged => 7,
        }
    }

    /// Returns the text of the fault.
    pub fn text(self) -> &'static str
        ensures { result.now ≡ text_of_refusal self }
    {
        match self {
            AppFault::NoSuchHandle => "there is no attribute with the handle",
            AppFault::NotAValue => "it is no characteristic value",
            AppFault::BadLength => {
                "the value is longer than its largest length, or a fixed one has another length"
            }
            AppFault::NoSuchConnection => "no connection with the handle serves",
            AppFault::TimeWentBack => "the time is earlier than the current time",
            AppFault::Stopped => "the host has stopped",
            AppFault::NoServiceChanged => {
                "a table has no value that tells of changes, or they have it at different handles"
            }
        }
    }
}

impl fmt::Display for AppFault {
    fn fmt<W: fmt::Write>(&self, f: &mut fmt::Formatter<W>) -> fmt::Result {
        f.write_str(self.text())
    }
}

impl Error for AppFault {}
