//! A line for each attribute of a table.

ghost use Rattle.std.specs.Prelude.{◌≡◌, ◌++◌, [], codes, OnOk};
ghost use Rattle.std.specs.Fmt.{decimal};
ghost use Rattle.std.specs.List.{flat_map};
ghost use Rattle.text_words.specs.Cells.{left, right};
ghost use Rattle.policy_words.specs.Table.{attribute_line, attribute_lines, declared_text, include_text, kind_word, length_text, rest_of_line, shown_table, told_value, used_text};
ghost use Rattle.policy_words.specs.TypeText.{type_text};
ghost use Rattle.att_numbers.specs.AttributeType.{type_octets};

use crate::type_text::add_type;
use crate::uses::add_uses;
use att_numbers::attribute_type::{INCLUDE, PRIMARY_SERVICE, SECONDARY_SERVICE};
use att_table::{Attr, Role, Table, is_service, type_octets};
use policy_rights::all_attributes;
use std::alloc::{AllocError, Global};
use text_words::{add_left, add_number, add_octets, add_right_number};

/// Adds a line for each attribute in order of handles, or `no attributes`.
///
/// A line has the handle, kind, type with name, octets of the value, and permitted uses. On `Err`
/// memory was refused and the text is invalid.
pub fn add_table(alloc: Global, text: &mut Vec<u8>, table: &Table) -> Result<(), AllocError>
    // A line for each attribute.
    ensures ok { OnOk result (text.new.items ≡ text.old.items ++ shown_table table.now) }
{
    add_lines(alloc, text, table, all_attributes(table))
}

fn add_lines(
    alloc: Global,
    text: &mut Vec<u8>,
    table: &Table,
    attributes: &[Attr],
) -> Result<(), AllocError>
    ensures ok { OnOk result (text.new.items
        ≡ text.old.items ++ attribute_lines table.now attributes.now) }
{
    match attributes {
        [] => add_octets(text, b"no attributes\n"),
        _ => add_attributes(alloc, text, table, attributes),
    }
}

fn add_attributes(
    alloc: Global,
    text: &mut Vec<u8>,
    table: &Table,
    attributes: &[Attr],
) -> Result<(), AllocError>
    ensures ok { OnOk result (text.new.items
        ≡ text.old.items ++ flat_map (attribute_line table.now) attributes.now) }
{
    for attr in attributes {
        add_attribute(alloc, text, table, attr)?;
    }
    Ok(())
}

#[tactic(auto, unfolding(crate::specs::Table::attribute_line))]
fn add_attribute(
    alloc: Global,
    text: &mut Vec<u8>,
    table: &Table,
    attr: &Attr,
) -> Result<(), AllocError>
    ensures ok { OnOk result (text.new.items
        ≡ text.old.items ++ attribute_line table.now attr.now) }
{
    add_front(text, attr)?;
    add_rest(alloc, text, table, attr)?;
    add_octets(text, b"\n")
}

fn add_front(text: &mut Vec<u8>, attr: &Attr) -> Result<(), AllocError>
    ensures ok { OnOk result (text.new.items ≡ text.old.items ++ (right 4 (decimal attr.now.handle)
        ++ codes "  " ++ left 14 (kind_word attr.now.role attr.now.kind) ++ codes "  ")) }
{
    add_right_number(text, u64::from(attr.handle), 4)?;
    add_octets(text, b"  ")?;
    add_left(text, kind_word(attr.role, attr.kind).as_bytes(), 14)?;
    add_octets(text, b"  ")
}

#[tactic(auto, unfolding(crate::specs::Table::kind_word))]
fn kind_word(role: Role, kind: u128) -> &'static str
    ensures { result.now ≡ kind_word role kind }
{
    match role {
        Role::Declaration if kind == PRIMARY_SERVICE => "service",
        Role::Declaration if kind == SECONDARY_SERVICE => "secondary",
        Role::Declaration if kind == INCLUDE => "include",
        Role::Declaration => "characteristic",
        Role::Value => "value",
        Role::Configuration => "configuration",
        Role::Descriptor => "descriptor",
    }
}

#[tactic(auto, unfolding(crate::specs::Table::rest_of_line))]
fn add_rest(alloc: Global, text: &mut Vec<u8>, table: &Table, attr: &Attr) -> Result<(), AllocError>
    ensures ok { OnOk result (text.new.items
        ≡ text.old.items ++ rest_of_line table.now attr.now.role attr.now) }
{
    match attr.role {
        Role::Declaration => {
            add_declared(text, table, attr.kind, told_value(table, attr.handle))
        }
        Role::Value | Role::Configuration | Role::Descriptor => add_used(alloc, text, attr),
    }
}

/// Returns the value at a handle; empty if there is none, or for a CCCD.
pub fn told_value(table: &Table, handle: u16) -> &[u8]
    ensures { result.now ≡ told_value table.now handle }
{
    table.value_of(handle).unwrap_or(&[])
}

fn add_declared(
    text: &mut Vec<u8>,
    table: &Table,
    kind: u128,
    value: &[u8],
) -> Result<(), AllocError>
    ensures ok { OnOk result (text.new.items
        ≡ text.old.items ++ declared_text table.now kind value.now) }
{
    if is_service(kind) {
        add_type(text, value)
    } else if kind == INCLUDE {
        add_include(text, table, value)
    } else {
        add_type(text, value.get(3..).unwrap_or(&[]))
    }
}

fn add_include(text: &mut Vec<u8>, table: &Table, value: &[u8]) -> Result<(), AllocError>
    ensures ok { OnOk result (text.new.items
        ≡ text.old.items ++ include_text table.now value.now) }
{
    let [low, high, ..] = value else {
        return Ok(());
    };
    let first = u16::from_le_bytes([*low, *high]);
    add_type(text, told_value(table, first))?;
    add_octets(text, b" at ")?;
    add_number(text, u64::from(first))
}

fn add_used(alloc: Global, text: &mut Vec<u8>, attr: &Attr) -> Result<(), AllocError>
    ensures ok { OnOk result (text.new.items ≡ text.old.items ++ used_text attr.now) }
{
    add_type_cell(alloc, text, attr.kind)?;
    add_octets(text, b"  ")?;
    add_length_cell(alloc, text, attr)?;
    add_uses(alloc, text, &attr.guard)
}

fn add_type_cell(alloc: Global, text: &mut Vec<u8>, kind: u128) -> Result<(), AllocError>
    ensures ok { OnOk result (text.new.items
        ≡ text.old.items ++ left 40 (type_text (type_octets kind))) }
{
    let mut cell = Vec::new(alloc);
    add_type(&mut cell, type_octets(kind).as_slice())?;
    add_left(text, &cell, 40)
}

/// Adds the lengths that a value may have, filled with spaces.
pub(crate) fn add_length_cell(
    alloc: Global,
    text: &mut Vec<u8>,
    attr: &Attr,
) -> Result<(), AllocError>
    ensures ok { OnOk result (text.new.items
        ≡ text.old.items ++ left 5 (length_text attr.now.role attr.now)) }
{
    let mut cell = Vec::new(alloc);
    add_length(&mut cell, attr)?;
    add_left(text, &cell, 5)
}

/// Adds the lengths that a value may have, in octets.
#[tactic(auto, unfolding(crate::specs::Table::length_text))]
pub fn add_length(text: &mut Vec<u8>, attr: &Attr) -> Result<(), AllocError>
    ensures ok { OnOk result (text.new.items
        ≡ text.old.items ++ length_text attr.now.role attr.now) }
{
    if attr.role == Role::Configuration {
        return add_octets(text, b"2");
    }
    if !attr.fixed {
        add_octets(text, b"0-")?;
    }
    add_number(text, u64::from(attr.largest))
}
