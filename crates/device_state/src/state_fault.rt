//! The faults of the text of a state.

ghost use Rattle.std.specs.Prelude.{◌≡◌};
ghost use Rattle.device_state.specs.StateFault.{line_after, line_of_fault};
ghost use Rattle.device_state.specs.declared.state_fault.StateFault.TheVariants.{OutOfMemory};

use gatt_subs::RowsFault;
use std::alloc::AllocError;
use std::error::Error;
use std::fmt;

/// The reason why a state is refused. Lines count from 1.
#[derive(Clone, Copy, Debug, PartialEq, Eq)]
pub enum StateFault {
    /// The text does not end with a line `[end]` and a checksum.
    Unended,
    /// The checksum is not that of the lines before it.
    OtherChecksum,
    /// The text is not UTF-8.
    NotText,
    /// The first line is not that of this format.
    OtherFormat,
    /// The line of this number is not allowed in its place.
    BadLine(u64),
    /// The subscriptions after the heading at this line have this fault.
    ///
    /// The fault counts lines from the first one after the heading.
    Subscriptions(u64, RowsFault),
    /// The line of this number is not a handle, a type and octets.
    BadValue(u64),
    OutOfMemory,
}

impl StateFault {
    /// Returns the number of the line that has the fault, if it is a single one.
    pub fn line(self) -> Option<u64>
        ensures { result ≡ line_of_fault self }
    {
        match self {
            StateFault::OtherFormat => Some(1),
            StateFault::BadLine(line) | StateFault::BadValue(line) => Some(line),
            StateFault::Subscriptions(heading, fault) => {
                Some(heading.saturating_add(line_after(fault)))
            }
            StateFault::Unended
            | StateFault::OtherChecksum
            | StateFault::NotText
            | StateFault::OutOfMemory => None,
        }
    }

    /// Returns the fault in words, without the line number.
    pub fn words(self) -> &'static str {
        match self {
            StateFault::Unended => {
                "its last line is not `[end]` with a checksum: it is cut, or text follows that line"
            }
            StateFault::OtherChecksum => {
                "its last line has another checksum than the lines before it; `sed '$d' FILE | sha256sum` prints the one that fits"
            }
            StateFault::NotText => "it is not UTF-8 text",
            StateFault::OtherFormat => "the first line is not `gihandop state 1`",
            StateFault::BadLine(_) => "this line is not allowed here",
            StateFault::Subscriptions(_, RowsFault::BadLine(_)) => {
                "this line is not a subscription"
            }
            StateFault::Subscriptions(_, RowsFault::Twice(_)) => {
                "this line repeats an earlier one"
            }
            StateFault::Subscriptions(_, RowsFault::TooMany) => { "too many subscriptions follow" }
            StateFault::BadValue(_) => {
                "this line is not a value: a handle, a type, and octets in hexadecimal or `-`"
            }
            StateFault::Subscriptions(_, RowsFault::OutOfMemory) | StateFault::OutOfMemory => {
                "memory was refused"
            }
        }
    }
}

fn line_after(fault: RowsFault) -> u64
    ensures { result ≡ line_after fault }
{
    match fault {
        RowsFault::BadLine(line) | RowsFault::Twice(line) => line,
        RowsFault::TooMany | RowsFault::OutOfMemory => 0,
    }
}

impl fmt::Display for StateFault {
    fn fmt<W: fmt::Write>(&self, f: &mut fmt::Formatter<W>) -> fmt::Result {
        match self.line() {
            Some(line) => write!(f, "line {line}: {}", self.words()),
            None => f.write_str(self.words()),
        }
    }
}

impl Error for StateFault {}

impl From<AllocError> for StateFault {
    ghost from_gives = { λ _ fault. fault ≡ OutOfMemory };

    fn from(_: AllocError) -> Self {
        StateFault::OutOfMemory
    }
}
