//! The choice of the values that are saved.

ghost use Rattle.std.specs.Prelude.{◌≡◌};
ghost use Rattle.saved_values.specs.Saves.{is_changed, is_saved, is_value_or_descriptor, is_writable, may_be_saved, value_told};

use att_policy::{Guard, Properties};
use att_table::{Attr, Role, Table};
use bitflags::Flags;

/// The values that a device saves if they differ from its table file.
#[derive(Clone, Copy, Debug, PartialEq, Eq)]
pub enum Saves {
    /// Characteristic values and descriptors that a client may write.
    Writable,
    /// All characteristic values and descriptors.
    All,
}

/// Returns true if a value is saved; `initial` is the table of the file.
pub fn is_saved(attr: &Attr, table: &Table, initial: &Table, saves: Saves) -> bool
    ensures { result ≡ is_saved saves table.now initial.now attr.now }
{
    may_be_saved(attr, saves) && is_changed(table, initial, attr.handle)
}

/// Returns true if the value of an attribute is saved once it has changed.
pub fn may_be_saved(attr: &Attr, saves: Saves) -> bool
    ensures { result ≡ may_be_saved saves attr.now }
{
    match saves {
        Saves::Writable => is_value_or_descriptor(attr.role) && is_writable(&attr.guard),
        Saves::All => is_value_or_descriptor(attr.role),
    }
}

/// Returns true for a characteristic value or a descriptor.
///
/// Returns false for a client characteristic configuration.
pub fn is_value_or_descriptor(role: Role) -> bool
    ensures { result ≡ is_value_or_descriptor role }
{
    match role {
        Role::Value | Role::Descriptor => true,
        Role::Declaration | Role::Configuration => false,
    }
}

fn is_writable(guard: &Guard) -> bool
    ensures { result ≡ is_writable guard.now }
{
    guard.properties.contains(Properties::WRITE)
        || guard
            .properties
            .contains(Properties::WRITE_WITHOUT_RESPONSE)
}

fn is_changed(table: &Table, initial: &Table, handle: u16) -> bool
    ensures { result ≡ is_changed table.now initial.now handle }
{
    match initial.value_of(handle) {
        Some(value) => value != value_told(table, handle),
        None => true,
    }
}

/// Returns the value at a handle, empty if there is no attribute.
pub fn value_told(table: &Table, handle: u16) -> &[u8]
    ensures { result.now ≡ value_told table.now handle }
{
    table.value_of(handle).unwrap_or(&[])
}
