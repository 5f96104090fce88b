//! Table files as inputs.

ghost use Rattle.std.specs.Prelude.{◌≡◌, ◌≢◌, ◌≤◌, ◌<◌, ℕ, Err, length, is_some, IfErr, IfOk, IfSome, IsOk};
ghost use Rattle.std.specs.Option.{option_map};
ghost use Rattle.shell_files.specs.TableFile.{table_out_of_memory, table_in, HasNextTable, TableIsRefusedAs, IsTableRefusal, IsTableFileFault, IsNextFileFault, next_fault_of};
ghost use Rattle.shell_files.specs.declared.input.TheConstants.{TOML_OCTETS};

use crate::fault::ShellFault;
use crate::input;
use att_table::{Table, TableFault};
use std::alloc::Global;
use std::io::Read;

/// Reads a table file.
pub fn read_table<R: Read>(alloc: Global, reader: &mut R) -> Result<Table, ShellFault>
    ensures table { IfOk result
        (λ table. IfSome (R.remaining reader.old) (λ octets. table_in octets ≡ Ok table)) }
    ensures refused { (number : ℕ) → result ≡ Err (ShellFault.Table number)
        → number ≢ table_out_of_memory
        → IfSome (R.remaining reader.old) (λ octets. TableIsRefusedAs number (table_in octets)) }
    ensures faults { IfErr result IsTableFileFault }
{
    let octets = input::read_at_most(alloc, reader, input::TOML_OCTETS)?;
    judged_table(alloc, octets.as_slice())
}

/// Reads the table file that replaces another, if any. Its fault is `Next`, not `Table`.
pub fn read_next<R: Read>(
    alloc: Global,
    reader: &mut Option<R>,
) -> Result<Option<Table>, ShellFault>
    ensures some { IfOk result (λ next. is_some next ≡ is_some reader.old) }
    ensures next { IfOk result (HasNextTable (option_map R.remaining reader.old)) }
    ensures table { IsOk result
        → IfSome reader.old (λ file. IfSome (R.remaining file)
        (λ octets. IsOk (table_in octets))) }
    ensures refused { (number : ℕ) → result ≡ Err (ShellFault.Next number)
        → number ≢ table_out_of_memory
        → IfSome reader.old (λ file. IfSome (R.remaining file)
        (λ octets. TableIsRefusedAs number (table_in octets))) }
    ensures faults { IfErr result IsNextFileFault }
{
    let Some(reader) = reader else {
        return Ok(None);
    };
    match read_table(alloc, reader) {
        Ok(table) => Ok(Some(table)),
        Err(fault) => Err(next_fault(fault)),
    }
}

fn next_fault(fault: ShellFault) -> ShellFault
    ensures { result ≡ next_fault_of fault }
{
    match fault {
        ShellFault::Table(number) => ShellFault::Next(number),
        other => other,
    }
}

/// Returns the table of a file's bytes, or the number of its first fault.
///
/// Refused memory and a size above `TOML_OCTETS` are faults of the file.
pub fn judged_table(alloc: Global, octets: &[u8]) -> Result<Table, ShellFault>
    ensures table { IfOk result (λ table. table_in octets.now ≡ Ok table) }
    ensures refused { IfErr result (IsTableRefusal octets.now) }
    ensures size { IfOk result (λ _. length octets.now ≤ TOML_OCTETS) }
    ensures large { TOML_OCTETS < length octets.now
        → result ≡ Err (ShellFault.Table table_out_of_memory) }
{
    if octets.len() > input::TOML_OCTETS {
        return Err(ShellFault::Table(TableFault::OutOfMemory.number()));
    }
    match Table::from_bytes(alloc, octets) {
        Ok(table) => Ok(table),
        Err(fault) => Err(ShellFault::Table(fault.number())),
    }
}
