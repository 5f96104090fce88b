//! The common fields of characteristics and other descriptors: a value and its access rules.

ghost use Rattle.std.specs.Prelude.{◌≡◌, ◌≤◌, true, [], length, IfOk};
ghost use Rattle.std.specs.Result.{result_map_both};
ghost use Rattle.toml.specs.View.{view, items_view, table_view};
ghost use Rattle.toml_schema.specs.Reading.{each};
ghost use Rattle.att_table.specs.file.Fields.{attribute_type_in, value_type_at, no_properties, property_step, properties_at, value_read_at, placed_of};

use crate::file::{field, needs, type_text};
use crate::table_fault::{TableFault, TableKey};
use arrayvec::ArrayVec;
use att_attributes::{Attr, Role};
use att_numbers::limit::MAX_VALUE;
use att_policy::{Guard, Properties};
use bitflags::Flags;
use toml::{Table, Value};

/// Reads the type at `uuid`.
pub fn read_type(table: &Table) -> Result<u128, TableFault>
    ensures { result ≡ attribute_type_in (table_view table.now) }
{
    let uuid = toml_schema::text(table, "uuid").ok_or(TableFault::Missing(TableKey::Uuid))?;
    type_text::read_type(uuid).ok_or(TableFault::BadUuid)
}

/// Reads the type at `uuid` and rejects those of declarations and CCCDs.
fn read_value_type(table: &Table) -> Result<u128, TableFault>
    ensures { result ≡ value_type_at (table_view table.now) }
{
    let kind = read_type(table)?;
    if !type_text::is_type_of_value(kind) {
        return Err(TableFault::BadUuid);
    }
    Ok(kind)
}

fn read_properties(table: &Table, allowed: Properties) -> Result<Properties, TableFault>
    ensures { result ≡ properties_at allowed (table_view table.now) }
{
    let words = toml_schema::array(table, "properties").ok_or(TableFault::Missing(
        TableKey::Properties,
    ))?;
    properties_of(words, allowed)
}

fn properties_of(words: &[Value], allowed: Properties) -> Result<Properties, TableFault>
    ensures { result ≡ each (property_step allowed) no_properties (items_view words.now) }
{
    let mut properties = Properties(0);
    'words: for word in words {
        properties = with_property(allowed, properties, word)?;
    }
    Ok(properties)
}

fn with_property(
    allowed: Properties,
    properties: Properties,
    word: &Value,
) -> Result<Properties, TableFault>
    ensures { result ≡ property_step allowed properties (view word.now) }
{
    let word = word.as_str().ok_or(TableFault::Shape)?;
    let property = field::read_property(word).ok_or(TableFault::BadProperty)?;
    if !allowed.contains(property) {
        return Err(TableFault::BadProperty);
    }
    Ok(properties.union(property))
}

fn read_value(table: &Table, value: &mut ArrayVec<u8, MAX_VALUE>) -> Result<(), TableFault>
    requires { value.old.items ≡ [] }
    ensures { result_map_both (λ _. value.new.items) (λ fault. fault) result
        ≡ value_read_at (table_view table.now) }
{
    let text = toml_schema::text(table, "value").ok_or(TableFault::Missing(TableKey::Value))?;
    field::read_value(text, value)
}

/// Reads an attribute, its value into an empty buffer. Checks fields in the format's order.
pub fn read_placed(
    table: &Table,
    role: Role,
    handle: u16,
    allowed: Properties,
    value: &mut ArrayVec<u8, MAX_VALUE>,
) -> Result<Attr, TableFault>
    requires { value.old.items ≡ [] }
    ensures placed { result_map_both (λ attr. (attr, value.new.items)) (λ fault. fault) result
        ≡ placed_of role handle allowed (table_view table.now) }
    ensures handle { IfOk result (λ attr. attr.handle ≡ handle) }
    ensures fits { IfOk result (λ attr. length value.new.items ≤ attr.largest) }
    ensures largest { IfOk result (λ attr. attr.largest ≤ MAX_VALUE) }
    ensures exact { IfOk result
        (λ attr. attr.fixed ≡ true → length value.new.items ≡ attr.largest) }
    ensures role { IfOk result (λ attr. attr.role ≡ role) }
{
    let kind = read_value_type(table)?;
    let properties = read_properties(table, allowed)?;
    read_value(table, value)?;
    let fixed = toml_schema::flag(table, "fixed");
    let largest = field::read_largest(toml_schema::integer(table, "max"), fixed, value.len())?;
    let read = needs::read_need_at(table, "read")?;
    let write = needs::read_need_at(table, "write")?;
    Ok(Attr {
        handle,
        kind,
        largest,
        fixed,
        role,
        guard: Guard {
            properties,
            read,
            write,
        },
    })
}
