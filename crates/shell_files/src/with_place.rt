//! Files whose refusal has a place.

ghost use Rattle.std.specs.Prelude.{◌≡◌, ◌≢◌, ℕ, IfErr, IfOk, IfSome, IsOk, OnOk};
ghost use Rattle.shell_files.specs.KeyFile.{keys_out_of_memory, keys_in, KeysAreRefusedAs, IsKeyFileFault};
ghost use Rattle.shell_files.specs.RowsFile.{rows_out_of_memory, rows_in, RowsAreRefusedAs, IsRowsFileFault};
ghost use Rattle.shell_files.specs.TableFile.{table_out_of_memory, table_in, TableIsRefusedAs, IsTableFileFault};

use crate::fault::ShellFault;
use crate::input::{TOML_OCTETS, read_all, read_at_most};
use crate::key_file::judged_keys;
use crate::rows_file::judged_rows;
use crate::table_file::judged_table;
use att_table::Table;
use le_security::Keys;
use std::alloc::{AllocError, Global};
use std::io::Read;

/// The text about a file that is too large.
const TOO_LARGE: &[u8] = b"more than 2,097,152 octets";

/// Reads the table of a table file.
///
/// Adds the place and the fault of a refused file to `place`, which is empty if memory is refused
/// for them.
pub fn read_table_at<R: Read>(
    alloc: Global,
    reader: &mut R,
    place: &mut Vec<u8>,
) -> Result<Table, ShellFault>
    ensures table { IfOk result
        (λ table. IfSome (R.remaining reader.old) (λ octets. table_in octets ≡ Ok table)) }
    ensures refused { (number : ℕ) → result ≡ Err (ShellFault.Table number)
        → number ≢ table_out_of_memory
        → IfSome (R.remaining reader.old) (λ octets. TableIsRefusedAs number (table_in octets)) }
    ensures place { IsOk result → place.new ≡ place.old }
    ensures faults { IfErr result IsTableFileFault }
{
    let octets = read_at_most(alloc, reader, TOML_OCTETS)?;
    match judged_table(alloc, octets.as_slice()) {
        Ok(table) => Ok(table),
        Err(fault) => {
            if tell_table_fault(alloc, place, octets.as_slice()).is_err() {
                place.clear();
            }
            Err(fault)
        }
    }
}

/// Adds the place and the fault of a table file with these bytes.
///
/// On `Err` memory was refused and the text is invalid.
pub fn tell_table_fault(
    alloc: Global,
    place: &mut Vec<u8>,
    octets: &[u8],
) -> Result<(), AllocError> {
    if octets.len() > TOML_OCTETS {
        return Ok(place.extend_from_slice(TOO_LARGE)?);
    }
    file_faults::add_table_fault(alloc, place, octets)
}

/// Adds the place and the fault of a key file. Errors: as `tell_table_fault`.
pub fn tell_keys_fault(
    alloc: Global,
    place: &mut Vec<u8>,
    octets: &[u8],
) -> Result<(), AllocError> {
    if octets.len() > TOML_OCTETS {
        return Ok(place.extend_from_slice(TOO_LARGE)?);
    }
    file_faults::add_keys_fault(alloc, place, octets)
}

/// Reads the keys of a key file. The place: as `read_table_at`.
pub fn read_key_file_at<K: Read>(
    alloc: Global,
    reader: &mut K,
    place: &mut Vec<u8>,
) -> Result<Keys, ShellFault>
    ensures keys { IfOk result
        (λ read. IfSome (K.remaining reader.old) (λ octets. keys_in octets ≡ Ok read)) }
    ensures refused { (number : ℕ) → result ≡ Err (ShellFault.Keys number)
        → number ≢ keys_out_of_memory
        → IfSome (K.remaining reader.old) (λ octets. KeysAreRefusedAs number (keys_in octets)) }
    ensures place { IsOk result → place.new ≡ place.old }
    ensures faults { IfErr result IsKeyFileFault }
{
    let octets = read_at_most(alloc, reader, TOML_OCTETS)?;
    match judged_keys(alloc, octets.as_slice()) {
        Ok(keys) => Ok(keys),
        Err(fault) => {
            if tell_keys_fault(alloc, place, octets.as_slice()).is_err() {
                place.clear();
            }
            Err(fault)
        }
    }
}

/// Adds the place and the fault of a subscriptions file. Errors: as `tell_table_fault`.
pub fn tell_rows_fault(
    alloc: Global,
    place: &mut Vec<u8>,
    octets: &[u8],
) -> Result<(), AllocError> {
    file_faults::add_rows_fault(alloc, place, octets)
}

/// Checks a subscriptions file. The place: as `read_table_at`.
pub fn judge_rows_at<R: Read>(
    alloc: Global,
    reader: &mut R,
    place: &mut Vec<u8>,
) -> Result<(), ShellFault>
    ensures accepted { OnOk result
        (IfSome (R.remaining reader.old) (λ octets. IsOk (rows_in octets))) }
    ensures refused { (number : ℕ) → result ≡ Err (ShellFault.Rows number)
        → number ≢ rows_out_of_memory
        → IfSome (R.remaining reader.old) (λ octets. RowsAreRefusedAs number (rows_in octets)) }
    ensures place { IsOk result → place.new ≡ place.old }
    ensures faults { IfErr result IsRowsFileFault }
{
    let octets = read_all(alloc, reader)?;
    match judged_rows(alloc, octets.as_slice()) {
        Ok(_) => Ok(()),
        Err(fault) => {
            if tell_rows_fault(alloc, place, octets.as_slice()).is_err() {
                place.clear();
            }
            Err(fault)
        }
    }
}
