ghost use Rattle.std.specs.Prelude.{◌≡◌};
ghost use Rattle.le_security.specs.declared.key_fault.KeyFault.TheVariants.{OutOfMemory};
ghost use Rattle.le_security.specs.KeyFault.{key_fault_number};

use std::alloc::AllocError;
use std::error::Error;
use std::fmt;

/// The first fault in a key file.
#[derive(Clone, Copy, Debug, PartialEq, Eq)]
pub enum KeyFault {
    NotToml,
    /// A required key is absent.
    Missing,
    /// A malformed address, or a kind other than `public` and `random`.
    BadAddress,
    /// A malformed random number or Long Term Key.
    BadHex,
    /// A key size outside 7 to 16.
    BadSize,
    /// Same peer, random number and diversifier as an earlier entry.
    Twice,
    /// More than 64 entries.
    TooMany,
    OutOfMemory,
    /// An unknown key, a wrong TOML type, or a diversifier outside 0 to 65,535.
    Shape,
    /// An LE Secure Connections key with nonzero random number or diversifier.
    NotZero,
}

impl KeyFault {
    /// Returns the fault's number, from 1.
    pub fn number(self) -> u8
        ensures { result ≡ key_fault_number self }
    {
        match self {
            KeyFault::NotToml => 1,
            KeyFault::Missing => 2,
            KeyFault::BadAddress => 3,
            KeyFault::BadHex => 4,
            KeyFault::BadSize => 5,
            KeyFault::Twice => 6,
            KeyFault::TooMany => 7,
            KeyFault::OutOfMemory => 8,
            KeyFault::Shape => 9,
            KeyFault::NotZero => 10,
        }
    }
}

impl fmt::Display for KeyFault {
    fn fmt<W: fmt::Write>(&self, f: &mut fmt::Formatter<W>) -> fmt::Result {
        f.write_str(match self {
            KeyFault::NotToml => "it is not TOML",
            KeyFault::Missing => "a key that has to be there is not",
            KeyFault::BadAddress => "an address or a kind is none",
            KeyFault::BadHex => "a rand or an ltk is not that many hexadecimal digits",
            KeyFault::BadSize => "a size is out of its range",
            KeyFault::Twice => "an earlier entry has the same peer, rand and ediv",
            KeyFault::TooMany => "more than 64 entries",
            KeyFault::OutOfMemory => "memory was refused",
            KeyFault::Shape => "a key that is unknown, or of another TOML type than its own",
            KeyFault::NotZero => "a secure key with another rand or ediv than 0",
        })
    }
}

impl Error for KeyFault {}

impl From<AllocError> for KeyFault {
    ghost from_gives = { λ _ fault. fault ≡ OutOfMemory };

    fn from(_refused: AllocError) -> Self {
        KeyFault::OutOfMemory
    }
}
