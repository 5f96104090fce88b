//! Restoring saved values into a table.

ghost use Rattle.std.specs.Prelude.{◌≡◌, if◌then◌else◌, length, IfErr, IfOk, Ok, Err};
ghost use Rattle.att_table.specs.Table.{with_value};
ghost use Rattle.saved_values.specs.Restore.{fits, length_fits, line_restored, values_restored};

use crate::saved_value::read_value;
use crate::saves::is_value_or_descriptor;
use att_table::{Attr, Table};
use std::error::Error;
use std::fmt;
use text_words::first_line;

/// The number of the first line that is not a value, from 1.
#[derive(Clone, Copy, Debug, PartialEq, Eq)]
pub struct BadLine(pub u64);

impl fmt::Display for BadLine {
    fn fmt<W: fmt::Write>(&self, f: &mut fmt::Formatter<W>) -> fmt::Result {
        write!(
            f,
            "line {}: this line is not a value: a handle, a type, and octets in hexadecimal or `-`",
            self.0,
        )
    }
}

impl Error for BadLine {}

/// Restores the values of a text, and returns how many of them do not fit.
///
/// The values before a bad line are restored.
#[tactic(auto, unfolding(crate::specs::Restore::values_restored))]
pub fn restore_lines(table: &mut Table, text: &str) -> Result<usize, BadLine>
    ensures restored { IfOk result (λ left_out.
        values_restored text.now table.old ≡ Ok (table.new, left_out)) }
    ensures bad { IfErr result (λ fault. values_restored text.now table.old ≡ Err fault) }
    ensures attributes { table.new.attributes ≡ table.old.attributes }
{
    let mut rest = text;
    let mut number = 1;
    let mut left_out = 0;
    while let Some((line, behind)) = first_line(rest) {
        left_out += count_left_out(restore_line(table, number, line)?);
        rest = behind;
        number += 1;
    }
    left_out += count_left_out(restore_line(table, number, rest)?);
    Ok(left_out)
}

fn restore_line(table: &mut Table, number: u64, line: &str) -> Result<bool, BadLine>
    ensures restored { IfOk result (λ fits.
        line_restored number table.old line.now ≡ Ok (table.new, fits)) }
    ensures bad { IfErr result (λ fault. line_restored number table.old line.now ≡ Err fault) }
    ensures attributes { table.new.attributes ≡ table.old.attributes }
{
    if line.is_empty() {
        return Ok(true);
    }
    let value = read_value(line).ok_or(BadLine(number))?;
    Ok(restore(table, value.handle(), value.kind(), value.octets()))
}

fn count_left_out(fits: bool) -> usize
    ensures { result ≡ (if fits then 0 else 1) }
{
    if fits { 0 } else { 1 }
}

/// Restores the value at a handle if it fits, and returns true if it does.
///
/// It fits if the attribute is a characteristic value or a descriptor of this type, but not a
/// client characteristic configuration, and may have this number of octets. Otherwise nothing
/// changes.
pub fn restore(table: &mut Table, handle: u16, kind: u128, octets: &[u8]) -> bool
    // A value is put in its place exactly if the attribute at its handle has its type and space for
    // it.
    ensures fits { result ≡ fits table.old handle kind (length octets.now) }
    ensures attributes { table.new.attributes ≡ table.old.attributes }
    ensures values { table.new.values ≡ (if result
        then with_value table.old.values handle octets.now else table.old.values) }
{
    let fits = fits(table, handle, kind, octets.len());
    if fits {
        table.set(handle, octets);
    }
    fits
}

fn fits(table: &Table, handle: u16, kind: u128, count: usize) -> bool
    ensures { result ≡ fits table.now handle kind count }
{
    match table.get(handle) {
        Some(attr) => {
            attr.kind == kind
                && is_value_or_descriptor(attr.role)
                && length_fits(attr.fixed, table.room(handle), count)
        }
        None => false,
    }
}

fn length_fits(fixed: bool, room: usize, count: usize) -> bool
    ensures { result ≡ length_fits fixed room count }
{
    if fixed { count == room } else { count <= room }
}
