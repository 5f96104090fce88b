ghost use Rattle.std.specs.Prelude.{◌≡◌};
ghost use Rattle.att_table.specs.declared.table_fault.TableFault.TheVariants.{OutOfMemory};
ghost use Rattle.att_table.specs.TableFault.{table_fault_number};

use std::alloc::AllocError;
use std::error::Error;
use std::fmt;

/// A required key of a table file.
#[derive(Clone, Copy, Debug, PartialEq, Eq)]
pub enum TableKey {
    Service,
    /// Type of a service, characteristic or descriptor.
    Uuid,
    /// Properties of a characteristic or descriptor.
    Properties,
    /// Value of a characteristic or descriptor.
    Value,
}

/// The first fault in a table file.
#[derive(Clone, Copy, Debug, PartialEq, Eq)]
pub enum TableFault {
    NotToml,
    /// A required key is absent.
    Missing(TableKey),
    /// A malformed UUID, or that of a declaration or CCCD for a value.
    BadUuid,
    /// A value that is not an even number of hexadecimal digits.
    BadHex,
    /// A value or `max` above `MAX_VALUE` octets, or a `max` that does not suit the value's length.
    TooLong,
    /// Requirements with an unknown key, a wrong type, or a key size outside 7 to 16.
    BadSecurity,
    /// An unknown or disallowed property, or requirements without a CCCD.
    BadProperty,
    /// More than 1,024 attributes, 64 CCCDs or 65,536 octets of largest lengths.
    TooMany,
    /// An include of a service that is not earlier.
    BadInclude,
    OutOfMemory,
    /// An unknown key, or a value of the wrong TOML type.
    Shape,
}

impl TableFault {
    /// Returns the fault's number, from 1.
    pub fn number(self) -> u8
        ensures { result ≡ table_fault_number self }
    {
        match self {
            TableFault::NotToml => 1,
            TableFault::Missing(_) => 2,
            TableFault::BadUuid => 3,
            TableFault::BadHex => 4,
            TableFault::TooLong => 5,
            TableFault::BadSecurity => 6,
            TableFault::BadProperty => 7,
            TableFault::TooMany => 8,
            TableFault::BadInclude => 9,
            TableFault::OutOfMemory => 10,
            TableFault::Shape => 11,
        }
    }
}

impl fmt::Display for TableKey {
    fn fmt<W: fmt::Write>(&self, f: &mut fmt::Formatter<W>) -> fmt::Result {
        f.write_str(match self {
            TableKey::Service => "service",
            TableKey::Uuid => "uuid",
            TableKey::Properties => "properties",
            TableKey::Value => "value",
        })
    }
}

impl fmt::Display for TableFault {
    fn fmt<W: fmt::Write>(&self, f: &mut fmt::Formatter<W>) -> fmt::Result {
        f.write_str(match self {
            TableFault::NotToml => "it is not TOML",
            TableFault::Missing(name) => {
                return write!(f, "a key that has to be there is not: {name}");
            }
            TableFault::BadUuid => "this is no UUID, or this UUID is not allowed here",
            TableFault::BadHex => "a value is not an even number of hexadecimal digits",
            TableFault::TooLong => "a value of more than 512 octets, or a max out of its range",
            TableFault::BadSecurity =>
                "a need with a key_size out of its range, or with another key",
            TableFault::BadProperty => {
                "a property that is unknown or not allowed there, or a config with nothing to configure"
            }
            TableFault::TooMany =>
                "more attributes, configurations or octets than a table may have",
            TableFault::BadInclude => "an include of a service that is not before it",
            TableFault::OutOfMemory => "memory was refused",
            TableFault::Shape => "a key that is unknown, or of another TOML type than its own",
        })
    }
}

impl Error for TableFault {}

impl From<AllocError> for TableFault {
    ghost from_gives = { λ _ fault. fault ≡ OutOfMemory };

    fn from(_refused: AllocError) -> Self {
        TableFault::OutOfMemory
    }
}
