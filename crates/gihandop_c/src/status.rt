//! The numbers that functions return.

ghost use Rattle.std.specs.Prelude.{◌≡◌, ◌+◌, false, true, Some};
ghost use Rattle.att_table.specs.TableFault.{table_fault_number};
ghost use Rattle.host_api.specs.Refusals.{number_of_refusal};
ghost use Rattle.gatt_host.specs.Calls.{refused_of};
ghost use Rattle.gatt_host.specs.Numbers.{number_of_fault};
ghost use Rattle.gatt_subs.specs.RowsFault.{rows_fault_number};
ghost use Rattle.gatt_host.specs.HostModel.{is_own_fault};
ghost use Rattle.gihandop_c.specs.Boundary.{call_status};
ghost use Rattle.gihandop_c.specs.Statuses.{is_status};
ghost use Rattle.gihandop_c.specs.declared.status.TheConstants.{BAD_KEYS, BAD_ROWS, BAD_TABLE, REFUSED, STOPPED};
ghost use Rattle.le_security.specs.KeyFault.{key_fault_number};

use gatt_host::{AppFault, HostFault, KeyFault, RowsFault, TableFault};

pub(crate) const DONE: u32 = 0;
/// There is nothing to return.
pub(crate) const NOTHING: u32 = 1;

pub(crate) const CLOSED: u32 = 2;

pub(crate) const ALREADY_OPEN: u32 = 3;
/// Packets have to be sent first.
pub(crate) const OUTPUT_OWED: u32 = 4;

pub(crate) const SHORT_BUFFER: u32 = 5;

pub(crate) const OUT_OF_MEMORY: u32 = 6;

pub(crate) const BAD_CONFIG: u32 = 7;

pub(crate) const BAD_SIZE: u32 = 8;

/// The host has stopped: this plus the number of its fault, 1 to 4.
pub(crate) const STOPPED: u32 = 20;

/// The host refuses the call: this plus the number of the reason, 1 to 7.
pub(crate) const REFUSED: u32 = 40;

/// The host had stopped before the call.
pub(crate) const HAS_STOPPED: u32 = 46;

/// The table file is refused: this plus the number of its first fault, 1 to 11.
pub(crate) const BAD_TABLE: u32 = 100;

/// The key file is refused: this plus the number of its first fault, 1 to 10.
pub(crate) const BAD_KEYS: u32 = 200;

/// The subscriptions file is refused: this plus the number of its first fault, 1 to 4.
pub(crate) const BAD_ROWS: u32 = 300;

/// The values text is refused: this plus the number of its first fault, 1.
pub(crate) const BAD_VALUES: u32 = 400;

/// A line of the values text is not a value.
pub(crate) const VALUES_BAD_LINE: u32 = 401;

pub(crate) fn of_host_fault(fault: HostFault) -> u32
    ensures number { result ≡ STOPPED + number_of_fault fault }
    ensures words { is_own_fault fault ≡ false → is_status result ≡ true }
{
    STOPPED + u32::from(fault.number())
}

#[tactic(auto, using(crate::proofs::Refusals::same_refusal))]
pub(crate) fn of_refusal(fault: AppFault) -> u32
    ensures number { result ≡ REFUSED + number_of_refusal fault }
    ensures status { result ≡ call_status (Some (refused_of fault)) }
{
    REFUSED + u32::from(fault.number())
}

pub(crate) fn of_table_fault(fault: TableFault) -> u32
    ensures { result ≡ BAD_TABLE + table_fault_number fault }
{
    BAD_TABLE + u32::from(fault.number())
}

pub(crate) fn of_key_fault(fault: KeyFault) -> u32
    ensures { result ≡ BAD_KEYS + key_fault_number fault }
{
    BAD_KEYS + u32::from(fault.number())
}

pub(crate) fn of_rows_fault(fault: RowsFault) -> u32
    ensures { result ≡ BAD_ROWS + rows_fault_number fault }
{
    BAD_ROWS + u32::from(fault.number())
}
