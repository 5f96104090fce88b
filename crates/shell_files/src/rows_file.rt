//! Subscriptions files as inputs.

ghost use Rattle.std.specs.Prelude.{◌≡◌, ◌≢◌, ℕ, IfErr, IfOk, IfSome};
ghost use Rattle.shell_files.specs.RowsFile.{rows_out_of_memory, rows_in, RowsAreRefusedAs, IsRowsRefusal, IsRowsFileFault};

use crate::fault::ShellFault;
use crate::input;
use gatt_subs::Rows;
use std::alloc::Global;
use std::io::Read;

/// Reads a subscriptions file.
pub fn read_rows<R: Read>(alloc: Global, reader: &mut R) -> Result<Rows, ShellFault>
    ensures rows { IfOk result
        (λ rows. IfSome (R.remaining reader.old) (λ octets. rows_in octets ≡ Ok rows)) }
    ensures refused { (number : ℕ) → result ≡ Err (ShellFault.Rows number)
        → number ≢ rows_out_of_memory
        → IfSome (R.remaining reader.old) (λ octets. RowsAreRefusedAs number (rows_in octets)) }
    ensures faults { IfErr result IsRowsFileFault }
{
    let octets = input::read_all(alloc, reader)?;
    judged_rows(alloc, octets.as_slice())
}

/// Returns the subscriptions of a file's bytes, or the number of its first fault.
///
/// Refused memory is a fault of the file.
pub fn judged_rows(alloc: Global, octets: &[u8]) -> Result<Rows, ShellFault>
    ensures rows { IfOk result (λ rows. rows_in octets.now ≡ Ok rows) }
    ensures refused { IfErr result (IsRowsRefusal octets.now) }
{
    match Rows::from_bytes(alloc, octets) {
        Ok(rows) => Ok(rows),
        Err(fault) => Err(ShellFault::Rows(fault.number())),
    }
}
