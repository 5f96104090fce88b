//! All faults as one type, with a text for each.

ghost use Rattle.std.specs.Prelude.{◌≡◌};
ghost use Rattle.gatt_host.specs.declared.fault.Fault.TheVariants.{Table, Keys, Rows, Open, Host, Call};

use crate::config::OpenFault;
use crate::host_fault::HostFault;
use att_table::TableFault;
use gatt_subs::RowsFault;
use host_api::AppFault;
use le_security::KeyFault;
use std::error::Error;
use std::fmt;

/// A fault of a file, of opening, of a running host, or of a call. `Display` prints it in words.
#[derive(Clone, Copy, Debug, PartialEq, Eq)]
pub enum Fault {
    /// A table file is rejected.
    Table(TableFault),
    /// A key file is rejected.
    Keys(KeyFault),
    /// A subscriptions file (rows) is rejected.
    Rows(RowsFault),
    /// A host cannot be opened.
    Open(OpenFault),
    /// A host has stopped, for good.
    Host(HostFault),
    /// A call of the application is refused.
    Call(AppFault),
}

impl fmt::Display for Fault {
    fn fmt<W: fmt::Write>(&self, f: &mut fmt::Formatter<W>) -> fmt::Result {
        match self {
            Fault::Table(fault) => write!(f, "table: {fault}"),
            Fault::Keys(fault) => write!(f, "keys: {fault}"),
            Fault::Rows(fault) => write!(f, "rows: {fault}"),
            Fault::Open(fault) => write!(f, "{fault}"),
            Fault::Host(fault) => write!(f, "{fault}"),
            Fault::Call(fault) => write!(f, "{fault}"),
        }
    }
}

impl Error for Fault {}

impl From<TableFault> for Fault {
    ghost from_gives = { λ fault result. result ≡ Table fault };

    fn from(fault: TableFault) -> Fault {
        Fault::Table(fault)
    }
}

impl From<KeyFault> for Fault {
    ghost from_gives = { λ fault result. result ≡ Keys fault };

    fn from(fault: KeyFault) -> Fault {
        Fault::Keys(fault)
    }
}

impl From<RowsFault> for Fault {
    ghost from_gives = { λ fault result. result ≡ Rows fault };

    fn from(fault: RowsFault) -> Fault {
        Fault::Rows(fault)
    }
}

impl From<OpenFault> for Fault {
    ghost from_gives = { λ fault result. result ≡ Open fault };

    fn from(fault: OpenFault) -> Fault {
        Fault::Open(fault)
    }
}

impl From<HostFault> for Fault {
    ghost from_gives = { λ fault result. result ≡ Host fault };

    fn from(fault: HostFault) -> Fault {
        Fault::Host(fault)
    }
}

impl From<AppFault> for Fault {
    ghost from_gives = { λ fault result. result ≡ Call fault };

    fn from(fault: AppFault) -> Fault {
        Fault::Call(fault)
    }
}
