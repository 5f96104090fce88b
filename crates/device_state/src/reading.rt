//! Reading a state line by line.

ghost use Rattle.std.specs.Prelude.{◌≡◌, ◌++◌, ◌∷◌, [], OnOk};
ghost use Rattle.std.specs.Option.{option_map};
ghost use Rattle.octet_io.specs.Memory.{Gives, Leaves};
ghost use Rattle.device_state.specs.Reading.{finished, nothing_read, rows_in, with_line, with_piece};
ghost use Rattle.device_state.specs.StateText.{piece_of};
ghost use Rattle.device_state.specs.declared.state_fault.StateFault.TheVariants.{OutOfMemory};

use crate::state::State;
use crate::state_fault::StateFault;
use gatt_subs::{Rows, RowsFault};
use saved_values::{SavedValue, read_value};
use std::alloc::{AllocError, Global};
use std::marker::Model;

/// The kind of the next line.
#[derive(Clone, Copy)]
pub enum Next {
    First,
    /// The heading of the table text.
    Heading,
    /// The first line of the table text.
    Opening,
    /// Another line of the table text, or the heading of the subscriptions.
    Table,
    /// A subscription, or the heading of the values.
    Subscriptions,
    Values,
}

/// The parts of a state that are read so far.
#[derive(Drop)]
pub struct Reading {
    next: Next,
    table_text: String,
    rows_text: String,
    /// The line of the subscriptions' heading.
    heading: u64,
    values: Vec<SavedValue>,
}

impl Model for Reading {
    ghost use Rattle.std.specs.Prelude.{string_bytes};
    ghost use Rattle.device_state.specs.Reading.{LinesRead};

    ghost Value = { LinesRead };

    ghost view = { λ reading. record {
      next = reading.next;
      table_text = string_bytes reading.table_text;
      rows_text = string_bytes reading.rows_text;
      heading = reading.heading;
      values = reading.values.items;
    } };
}

impl Reading {
    /// Returns a reader before the first line.
    pub fn new(alloc: Global) -> Reading
        ensures { result ≡ nothing_read }
    {
        Reading {
            next: Next::First,
            table_text: String::new(alloc),
            rows_text: String::new(alloc),
            heading: 0,
            values: Vec::new(alloc),
        }
    }

    /// Reads the line of this number.
    pub fn take_line(&mut self, number: u64, line: &str) -> Result<(), StateFault>
        ensures { Leaves OutOfMemory (with_line number self.old line.now) result self.new }
    {
        match self.next {
            Next::First if line == "gihandop state 1" => self.next = Next::Heading,
            Next::First => return Err(StateFault::OtherFormat),
            Next::Heading if line == "[table]" => self.next = Next::Opening,
            Next::Heading => return Err(StateFault::BadLine(number)),
            Next::Opening => return self.take_piece(number, line),
            Next::Table if line == "[subscriptions]" => {
                self.heading = number;
                self.next = Next::Subscriptions;
            }
            Next::Table => {
                self.table_text.push_str("\n")?;
                return self.take_piece(number, line);
            }
            Next::Subscriptions if line == "[values]" => self.next = Next::Values,
            Next::Subscriptions => {
                self.rows_text.push_str(line)?;
                self.rows_text.push_str("\n")?;
            }
            Next::Values => {
                let value = read_value(line).ok_or(StateFault::BadValue(number))?;
                push_value(&mut self.values, value)?;
            }
        }
        Ok(())
    }

    fn take_piece(&mut self, number: u64, line: &str) -> Result<(), StateFault>
        ensures { Leaves OutOfMemory (with_piece number self.old line.now) result self.new }
    {
        let piece = piece_of(line).ok_or(StateFault::BadLine(number))?;
        self.table_text.push_str(piece)?;
        self.next = Next::Table;
        Ok(())
    }

    /// Returns the state if it is complete before this line number.
    pub fn finish(self, alloc: Global, number: u64) -> Result<State, StateFault>
        ensures { Gives OutOfMemory (finished number self) result }
    {
        let Next::Values = self.next else {
            return Err(StateFault::BadLine(number));
        };
        let rows = read_rows(alloc, self.heading, self.rows_text.as_str())?;
        Ok(State::new(self.table_text, rows, self.values))
    }
}

fn piece_of(line: &str) -> Option<&str>
    ensures { option_map (λ piece. piece.now) result ≡ piece_of line.now }
{
    line.strip_prefix('|')
}

fn push_value(values: &mut Vec<SavedValue>, value: SavedValue) -> Result<(), AllocError>
    ensures ok { OnOk result (values.new.items ≡ values.old.items ++ value ∷ []) }
{
    values.push(value)?;
    Ok(())
}

fn read_rows(alloc: Global, heading: u64, text: &str) -> Result<Rows, StateFault>
    ensures { Gives OutOfMemory (rows_in heading text.now) result }
{
    match Rows::read(alloc, text) {
        Ok(rows) => Ok(rows),
        Err(RowsFault::OutOfMemory) => Err(StateFault::OutOfMemory),
        Err(fault) => Err(StateFault::Subscriptions(heading, fault)),
    }
}
