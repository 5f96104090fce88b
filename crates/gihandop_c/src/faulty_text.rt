//! The text with the first fault.

ghost use Rattle.std.specs.Prelude.{◌≡◌, IfOk};
ghost use Rattle.gihandop_c.specs.Explaining.{faulty_keys, faulty_rows, faulty_values, first_faulty, name_of};
ghost use Rattle.gihandop_c.specs.Values.{values_in};
ghost use Rattle.le_security.specs.KeyFile.{keys_in};
ghost use Rattle.gatt_subs.specs.Rows.{rows_in};

use gatt_host::{KeyFault, Keys, Rows, RowsFault, Table, TableFault};
use saved_values::restore_lines;
use std::alloc::{AllocError, Global};
use std::str;

/// A text with a fault.
#[derive(Clone, Copy)]
pub enum FaultyText {
    Table,
    Keys,
    Rows,
    /// The values text, with the number of its first bad line, from 1.
    Values(u64),
}

impl FaultyText {
    /// Returns the prefix of the words for its fault.
    pub(crate) fn name(self) -> &'static [u8]
        ensures { result.now ≡ name_of self }
    {
        match self {
            FaultyText::Table => b"table: ",
            FaultyText::Keys => b"keys: ",
            FaultyText::Rows => b"rows: ",
            FaultyText::Values(_) => b"values: ",
        }
    }
}

/// Returns the first text with a fault, if any. Fails if memory is refused.
pub(crate) fn first_faulty(
    alloc: Global,
    table: &[u8],
    keys: &[u8],
    rows: &[u8],
    values: &[u8],
) -> Result<Option<FaultyText>, AllocError>
    ensures { IfOk result (λ faulty.
        faulty ≡ first_faulty table.now keys.now rows.now values.now) }
{
    match Table::from_bytes(alloc, table) {
        Ok(contents) => faulty_behind(alloc, contents, keys, rows, values),
        Err(TableFault::OutOfMemory) => Err(AllocError),
        Err(_) => Ok(Some(FaultyText::Table)),
    }
}

fn faulty_behind(
    alloc: Global,
    contents: Table,
    keys: &[u8],
    rows: &[u8],
    values: &[u8],
) -> Result<Option<FaultyText>, AllocError>
    ensures { IfOk result (λ faulty. faulty ≡ faulty_keys (keys_in keys.now)
        (faulty_rows (rows_in rows.now) (faulty_values (values_in values.now contents)))) }
{
    match Keys::from_bytes(alloc, keys) {
        Ok(_) => faulty_rows(alloc, contents, rows, values),
        Err(KeyFault::OutOfMemory) => Err(AllocError),
        Err(_) => Ok(Some(FaultyText::Keys)),
    }
}

fn faulty_rows(
    alloc: Global,
    contents: Table,
    rows: &[u8],
    values: &[u8],
) -> Result<Option<FaultyText>, AllocError>
    ensures { IfOk result (λ faulty.
        faulty ≡ faulty_rows (rows_in rows.now) (faulty_values (values_in values.now contents))) }
{
    match Rows::from_bytes(alloc, rows) {
        Ok(_) => Ok(faulty_values(contents, values)),
        Err(RowsFault::OutOfMemory) => Err(AllocError),
        Err(_) => Ok(Some(FaultyText::Rows)),
    }
}

#[tactic(auto, using(octet_io::proofs::Texts::of_text, octet_io::proofs::Texts::of_no_text))]
fn faulty_values(contents: Table, values: &[u8]) -> Option<FaultyText>
    ensures { result ≡ faulty_values (values_in values.now contents) }
{
    let mut table = contents;
    let Ok(text) = str::from_utf8(values) else {
        return Some(FaultyText::Values(1));
    };
    match restore_lines(&mut table, text) {
        Ok(_) => None,
        Err(line) => Some(FaultyText::Values(line.0)),
    }
}
