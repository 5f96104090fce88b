//! Handles with the types that a table has at them.

use crate::text::Text;
use crate::types::add_type_name;
use att_table::{Table, type_octets};

/// The tables by which handles are named.
#[derive(Clone, Copy)]
pub struct Handles<'a> {
    table: Option<&'a Table>,
    next: Option<&'a Table>,
}

impl<'a> Handles<'a> {
    /// Names no handle.
    pub fn unnamed() -> Handles<'a> {
        Handles {
            table: None,
            next: None,
        }
    }

    /// Names the handles of a table. If `next` can replace it, only those with the same type in
    /// both.
    pub fn of(table: &'a Table, next: Option<&'a Table>) -> Handles<'a> {
        Handles {
            table: Some(table),
            next,
        }
    }

    /// Returns the type of the attribute at a handle, if it has a name here.
    fn type_at(self, handle: u16) -> Option<u128> {
        let kind = self.table?.get(handle)?.kind;
        match self.next {
            Some(next) if next.get(handle)?.kind != kind => None,
            _ => Some(kind),
        }
    }
}

/// Adds a handle, and in parentheses the name of its type, if it is known.
pub(crate) fn add_handle(text: &mut Text, handle: u16, handles: Handles<'_>) {
    text.add_number(handle);
    if let Some(kind) = handles.type_at(handle) {
        text.add(" (");
        add_type_name(text, type_octets(kind).as_slice());
        text.add(")");
    }
}

/// Adds a range of handles.
pub(crate) fn add_range(text: &mut Text, first: u16, last: u16) {
    text.add("handles ");
    text.add_number(first);
    text.add(" to ");
    text.add_number(last);
}
