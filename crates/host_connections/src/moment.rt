//! The end of an event.

use att_table::Table;
use gatt_subs::Rows;

/// Everything, besides a connection itself, that decides what it is sent at the end of an event.
#[derive(Clone, Copy)]
pub struct Moment<'a> {
    pub table: &'a Table,
    /// The configurations of bonds.
    pub rows: &'a Rows,
    /// The time, in milliseconds.
    pub now: u64,
}
