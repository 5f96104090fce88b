ghost use Rattle.std.specs.Prelude.{◌≡◌};
ghost use Rattle.gatt_subs.specs.declared.rows_fault.RowsFault.TheVariants.{OutOfMemory};
ghost use Rattle.gatt_subs.specs.RowsFault.{rows_fault_number};

use std::alloc::AllocError;
use std::error::Error;
use std::fmt;

/// The first fault in a subscriptions file. Lines count from 1, blank ones too.
#[derive(Clone, Copy, Debug, PartialEq, Eq)]
pub enum RowsFault {
    /// The line is malformed.
    BadLine(u64),
    /// The line repeats the peer and handle, or the pending peer, of an earlier one.
    Twice(u64),
    /// More than 4,096 entries, or 64 peers with a pending indication.
    TooMany,
    OutOfMemory,
}

impl RowsFault {
    /// Returns the fault's number, from 1.
    pub fn number(self) -> u8
        ensures { result ≡ rows_fault_number self }
    {
        match self {
            RowsFault::BadLine(_) => 1,
            RowsFault::Twice(_) => 2,
            RowsFault::TooMany => 3,
            RowsFault::OutOfMemory => 4,
        }
    }
}

impl fmt::Display for RowsFault {
    fn fmt<W: fmt::Write>(&self, f: &mut fmt::Formatter<W>) -> fmt::Result {
        match self {
            RowsFault::BadLine(line) => {
                write!(f, "line {line} says nothing that a rows file may say")
            }
            RowsFault::Twice(line) => write!(f, "line {line} says what an earlier one has said"),
            RowsFault::TooMany => f.write_str("more of them than a rows file may have"),
            RowsFault::OutOfMemory => f.write_str("memory was refused"),
        }
    }
}

impl Error for RowsFault {}

impl From<AllocError> for RowsFault {
    ghost from_gives = { λ _ fault. fault ≡ OutOfMemory };

    fn from(_: AllocError) -> Self {
        RowsFault::OutOfMemory
    }
}
