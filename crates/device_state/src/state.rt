//! The state of a text.

ghost use Rattle.std.specs.Prelude.{◌≡◌, string_bytes};
ghost use Rattle.std.specs.Result.{result_map_both};
ghost use Rattle.octet_io.specs.Memory.{Gives};
ghost use Rattle.device_state.specs.Reading.{state_of};
ghost use Rattle.device_state.specs.State.{is_end, lines_checked, state_of_lines, state_read};
ghost use Rattle.device_state.specs.declared.state_fault.StateFault.TheVariants.{OutOfMemory};

use crate::reading::Reading;
use crate::state_fault::StateFault;
use crate::state_lines::checksum;
use gatt_subs::Rows;
use saved_values::SavedValue;
use std::alloc::Global;
use std::marker::Model;
use std::str;
use text_words::first_line;

/// The bytes between the lines of a state and its checksum.
const BEFORE_CHECKSUM: &[u8] = b"\n[end] ";

/// The bytes after the lines: `BEFORE_CHECKSUM`, 64 digits and a line feed.
const END: usize = 72;

/// The saved state of a device.
#[derive(Drop)]
pub struct State {
    table_text: String,
    rows: Rows,
    values: Vec<SavedValue>,
}

impl Model for State {
    ghost use Rattle.std.specs.Prelude.{string_bytes};
    ghost use Rattle.device_state.specs.SavedState.{SavedState};

    ghost Value = { SavedState };

    ghost view = { λ state. record {
      table_text = string_bytes state.table_text;
      rows = state.rows;
      values = state.values.items;
    } };
}

impl State {
    pub(crate) fn new(table_text: String, rows: Rows, values: Vec<SavedValue>) -> State
        ensures { result ≡ record {
          table_text = string_bytes table_text;
          rows = rows;
          values = values.items;
        } }
    {
        State {
            table_text,
            rows,
            values,
        }
    }

    /// Reads the text of a state, or returns its first fault.
    ///
    /// The checksum is checked first. Memory may be refused at any point.
    pub fn read(alloc: Global, text: &[u8]) -> Result<State, StateFault>
        // A damaged text is refused by its first fault.
        ensures { Gives OutOfMemory (state_read text.now) result }
    {
        let lines = checked_lines(text)?;
        State::read_octets(alloc, lines)
    }

    fn read_octets(alloc: Global, lines: &[u8]) -> Result<State, StateFault>
        ensures { Gives OutOfMemory (state_of_lines lines.now) result }
    {
        match str::from_utf8(lines) {
            Ok(lines) => State::read_lines(alloc, lines),
            Err(_) => Err(StateFault::NotText),
        }
    }

    #[tactic(auto, unfolding(crate::specs::Reading::state_of))]
    fn read_lines(alloc: Global, text: &str) -> Result<State, StateFault>
        ensures { Gives OutOfMemory (state_of text.now) result }
    {
        let mut reading = Reading::new(alloc);
        let mut rest = text;
        let mut number = 1;
        while let Some((line, behind)) = first_line(rest) {
            reading.take_line(number, line)?;
            rest = behind;
            number += 1;
        }
        reading.take_line(number, rest)?;
        reading.finish(alloc, number + 1)
    }

    /// Returns the text of the table that was served last.
    pub fn table_text(&self) -> &str
        ensures { result.now ≡ self.now.table_text }
    {
        self.table_text.as_str()
    }

    /// Returns the subscriptions, which are not yet fitted to a table.
    pub fn rows(&self) -> &Rows
        ensures { result.now ≡ self.now.rows }
    {
        &self.rows
    }

    /// Returns the saved values, in the order of their lines.
    pub fn values(&self) -> &[SavedValue]
        ensures { result.now ≡ self.now.values }
    {
        &self.values
    }

    /// Returns the table text, the subscriptions and the values.
    pub fn into_parts(self) -> (String, Rows, Vec<SavedValue>)
        ensures table_text { string_bytes result.0 ≡ self.table_text }
        ensures rows { result.1 ≡ self.rows }
        ensures values { result.2.items ≡ self.values }
    {
        (self.table_text, self.rows, self.values)
    }
}

/// Returns all lines except the last one, if that has their checksum.
fn checked_lines(text: &[u8]) -> Result<&[u8], StateFault>
    ensures { result_map_both (λ lines. lines.now) (λ fault. fault) result
        ≡ lines_checked text.now }
{
    let count = text.len().checked_sub(END).ok_or(StateFault::Unended)?;
    let (lines, end) = text.split_at(count);
    if !is_end(end) {
        return Err(StateFault::Unended);
    }
    if &end[7..71] != checksum(&text[..count + 1]).as_slice() {
        return Err(StateFault::OtherChecksum);
    }
    Ok(lines)
}

/// Returns true if these bytes end a state, with any checksum.
fn is_end(octets: &[u8]) -> bool
    ensures { result ≡ is_end octets.now }
{
    octets.starts_with(BEFORE_CHECKSUM) && octets.ends_with(b"\n")
}
