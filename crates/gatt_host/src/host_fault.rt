ghost use Rattle.std.specs.Prelude.{◌≡◌};
ghost use Rattle.gatt_host.specs.Numbers.{number_of_fault};

use le_hci::InitFault;
use std::error::Error;
use std::fmt;

/// The reason why a host stopped, for good.
#[derive(Clone, Copy, Debug, PartialEq, Eq)]
pub enum HostFault {
    /// This octet is not a packet indicator, at the start of a packet.
    Desync(u8),
    /// The event with this code is too short for its fields, or has another length than it states.
    BadEvent(u8),
    /// The controller could not be initialised.
    Init(InitFault),
    /// The controller reports a hardware error with this code.
    Hardware(u8),
    /// The reader failed.
    Read,
    /// The writer failed.
    Write,
    /// The maximum number of turns was reached.
    Turns,
}

impl HostFault {
    /// Returns the number of the fault, 1 to 7, in the order of the variants.
    pub fn number(self) -> u8
        ensures { result ≡ number_of_fault self }
    {
        match self {
            HostFault::Desync(_) => 1,
            HostFault::BadEvent(_) => 2,
            HostFault::Init(_) => 3,
            HostFault::Hardware(_) => 4,
            HostFault::Read => 5,
            HostFault::Write => 6,
            HostFault::Turns => 7,
        }
    }
}

impl fmt::Display for HostFault {
    fn fmt<W: fmt::Write>(&self, f: &mut fmt::Formatter<W>) -> fmt::Result {
        match self {
            HostFault::Desync(octet) => { write!(f, "the octet {octet:02x} begins no packet") }
            HostFault::BadEvent(code) => write!(
                f,
                "the event {code:02x} is too short for its fields, or has another length than it states"
            ),
            HostFault::Init(fault) => {
                write!(f, "the controller could not be initialised: {fault}")
            }
            HostFault::Hardware(code) => {
                write!(f, "the controller reports an error of its own, {code:02x}")
            }
            HostFault::Read => write!(f, "octets could not be read"),
            HostFault::Write => write!(f, "octets could not be written"),
            HostFault::Turns => write!(f, "as many turns are over as there may be"),
        }
    }
}

impl Error for HostFault {}
