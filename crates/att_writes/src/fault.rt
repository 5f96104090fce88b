//! The reasons for rejecting a write (Core 5.0, Vol 3 Part F, 3.4.1.1).

ghost use Rattle.std.specs.Prelude.{◌≡◌, ◌≤◌, length, Some, IsNone};
ghost use Rattle.att_attributes.specs.Attributes.{attribute_at};
ghost use Rattle.att_writes.specs.Entry.{entry_of};
ghost use Rattle.att_writes.specs.Fault.{configuration_fault, value_fault, entry_fault};
ghost use Rattle.att_writes.specs.Sizes.{size_with, size_after};

use crate::entry::EntryRef;
use crate::queue::Place;
use att_numbers::error_code;
use att_policy::{Access, Standing, first_broken};
use att_table::{Attr, Role, Table};

/// Returns the error code for an entry after the `earlier` ones, if it is rejected.
#[inline(always)]
pub(crate) fn fault_of(
    access: Access,
    table: &Table,
    standing: &Standing,
    earlier: &[Place],
    entry: EntryRef<'_>,
) -> Option<u8>
    ensures fault { result ≡ entry_fault access table.now.attributes standing.entry.now
        (size_after table.now.attributes table.now.values entry.entry.handle earlier.now)
        (entry_of entry.entry) }
    ensures value { IsNone result → entry.entry.handle ≤ length table.now.values }
{
    let attr = table.get(entry.handle);
    if let Some((_, code)) = first_broken(access, attr.map(|attr| &attr.guard), standing) {
        return Some(code);
    }
    let attr = attr?;
    if attr.role == Role::Configuration {
        configuration_fault(table, entry)
    } else {
        value_fault(table, attr, earlier, entry)
    }
}

fn value_fault(table: &Table, attr: &Attr, earlier: &[Place], entry: EntryRef<'_>) -> Option<u8>
    requires { attribute_at table.now.attributes entry.handle ≡ Some attr.now }
    ensures { result ≡ value_fault table.now.attributes
        (size_after table.now.attributes table.now.values entry.entry.handle earlier.now)
        (entry_of entry.entry) }
{
    let size = size_after(table, attr, earlier, entry.handle);
    let room = if attr.fixed {
        size
    } else {
        usize::from(attr.largest)
    };
    let offset = usize::from(entry.offset);
    if offset > size {
        Some(error_code::INVALID_OFFSET)
    } else if offset + entry.part.len() > room {
        Some(error_code::INVALID_ATTRIBUTE_VALUE_LENGTH)
    } else {
        None
    }
}

/// Returns a value's length after these entries are written.
fn size_after(table: &Table, attr: &Attr, places: &[Place], handle: u16) -> usize
    requires { attribute_at table.now.attributes handle ≡ Some attr.now }
    ensures { result ≡ size_after table.now.attributes table.now.values handle places.now }
{
    let size = table.value(handle).len();
    if attr.fixed {
        size
    } else {
        size_with(handle, size, places)
    }
}

fn size_with(handle: u16, len: usize, places: &[Place]) -> usize
    ensures { result ≡ size_with handle len places.now }
{
    let mut size = len;
    for place in places {
        if place.handle == handle {
            size = usize::from(place.offset) + usize::from(place.len);
        }
    }
    size
}

fn configuration_fault(table: &Table, entry: EntryRef<'_>) -> Option<u8>
    ensures { result ≡ configuration_fault table.now.attributes (entry_of entry.entry) }
{
    if entry.offset != 0 {
        return Some(error_code::INVALID_OFFSET);
    }
    let [low, high] = *entry.part else {
        return Some(error_code::INVALID_ATTRIBUTE_VALUE_LENGTH);
    };
    if high == 0 && low & table.configuration_bits(entry.handle) == low {
        None
    } else {
        Some(error_code::OUT_OF_RANGE)
    }
}
