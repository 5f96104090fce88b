//! The attributes that an expectation names.

ghost use Rattle.std.specs.Prelude.{◌≡◌, ◌-◌, ◌++◌, drop, take, IfOk, OnOk};
ghost use Rattle.std.specs.List.{flat_map};
ghost use Rattle.std.specs.Option.{option_copied};
ghost use Rattle.att_table.specs.Changer.{last_service};
ghost use Rattle.policy_expectations.specs.Named.{attribute_if, descriptors_of, end_of_characteristic, fitting_value, fitting_values, is_fitting, is_in_named_service, is_in_service_of_type, named_among, attributes_named_by, numbered, of_type};

use crate::expectation::Expectation;
use att_table::{Attr, Role, Table, is_service, type_octets};
use policy_rights::all_attributes;
use policy_words::told_value;
use std::alloc::{AllocError, Global};

/// Adds the attributes that an expectation names, in order of handles.
///
/// On `Err` memory was refused and the attributes are invalid.
pub(crate) fn add_named(
    alloc: Global,
    named: &mut Vec<Attr>,
    table: &Table,
    expected: &Expectation,
) -> Result<(), AllocError>
    ensures ok { OnOk result
        (named.new.items ≡ named.old.items ++ attributes_named_by table.now expected.now) }
{
    let values = fitting_values(alloc, table, expected)?;
    let values = numbered(&values, expected.number);
    add_among(named, table, expected.descriptor, values)
}

/// Returns the values of characteristics that fit, in order of handles.
fn fitting_values(
    alloc: Global,
    table: &Table,
    expected: &Expectation,
) -> Result<Vec<Attr>, AllocError>
    ensures { IfOk result (λ values. values.items ≡ fitting_values table.now expected.now) }
{
    let mut values = Vec::new(alloc);
    add_fitting(&mut values, table, expected, all_attributes(table))?;
    Ok(values)
}

fn add_fitting(
    values: &mut Vec<Attr>,
    table: &Table,
    expected: &Expectation,
    attributes: &[Attr],
) -> Result<(), AllocError>
    ensures ok { OnOk result (values.new.items
        ≡ values.old.items ++ flat_map (fitting_value table.now expected.now) attributes.now) }
{
    for attr in attributes {
        add_fitting_value(values, table, expected, attr)?;
    }
    Ok(())
}

fn add_fitting_value(
    values: &mut Vec<Attr>,
    table: &Table,
    expected: &Expectation,
    attr: &Attr,
) -> Result<(), AllocError>
    ensures ok { OnOk result (values.new.items
        ≡ values.old.items ++ fitting_value table.now expected.now attr.now) }
{
    add_if(values, is_fitting(table, expected, attr), attr)
}

fn is_fitting(table: &Table, expected: &Expectation, attr: &Attr) -> bool
    ensures { result ≡ is_fitting table.now expected.now attr.now }
{
    attr.role == Role::Value
        && attr.kind == expected.characteristic
        && is_in_named_service(table, expected.service, attr.handle)
}

/// Returns true if an attribute is in a service of a type, or if none is asked for.
fn is_in_named_service(table: &Table, service: Option<u128>, handle: u16) -> bool
    ensures { result ≡ is_in_named_service table.now service handle }
{
    match service {
        Some(service) => is_in_service_of_type(table, service, handle),
        None => true,
    }
}

fn is_in_service_of_type(table: &Table, service: u128, handle: u16) -> bool
    ensures { result ≡ is_in_service_of_type table.now service handle }
{
    match last_service(table.in_range(1, handle.saturating_sub(1))) {
        Some(attr) => told_value(table, attr.handle) == type_octets(service).as_slice(),
        None => false,
    }
}

fn last_service(attributes: &[Attr]) -> Option<&Attr>
    ensures { option_copied result ≡ last_service attributes.now }
{
    attributes.iter().rev().find(|attr| is_service(attr.kind))
}

/// Returns the value with a number, from 1; without a number all values.
fn numbered(values: &[Attr], number: Option<u16>) -> &[Attr]
    ensures { result.now ≡ numbered number values.now }
{
    match number {
        Some(number) => only(values, usize::from(number)),
        None => values,
    }
}

fn only(values: &[Attr], number: usize) -> &[Attr]
    ensures { result.now ≡ drop (number - 1) (take number values.now) }
{
    let end = number.min(values.len());
    values[..end].get(number.saturating_sub(1)..).unwrap_or(&[])
}

/// Adds values, or their descriptors of a type.
fn add_among(
    named: &mut Vec<Attr>,
    table: &Table,
    descriptor: Option<u128>,
    values: &[Attr],
) -> Result<(), AllocError>
    ensures ok { OnOk result (named.new.items
        ≡ named.old.items ++ named_among table.now descriptor values.now) }
{
    match descriptor {
        Some(kind) => add_descriptors(named, table, kind, values),
        None => named.extend_from_slice(values),
    }
}

fn add_descriptors(
    named: &mut Vec<Attr>,
    table: &Table,
    kind: u128,
    values: &[Attr],
) -> Result<(), AllocError>
    ensures ok { OnOk result (named.new.items
        ≡ named.old.items ++ flat_map (descriptors_of table.now kind) values.now) }
{
    for value in values {
        add_descriptors_of(named, table, kind, value)?;
    }
    Ok(())
}

fn add_descriptors_of(
    named: &mut Vec<Attr>,
    table: &Table,
    kind: u128,
    value: &Attr,
) -> Result<(), AllocError>
    ensures ok { OnOk result (named.new.items
        ≡ named.old.items ++ descriptors_of table.now kind value.now) }
{
    let end = end_of_characteristic(table, value.handle);
    add_all_of_type(named, kind, table.in_range(value.handle, end))
}

/// Returns the last handle of the characteristic of a value.
fn end_of_characteristic(table: &Table, handle: u16) -> u16
    ensures { result ≡ end_of_characteristic table.now.attributes handle }
{
    let declaration = handle.saturating_sub(1);
    match table.get(declaration) {
        Some(_) => table.group_end(declaration),
        None => 0,
    }
}

fn add_all_of_type(named: &mut Vec<Attr>, kind: u128, attributes: &[Attr]) -> Result<(), AllocError>
    ensures ok { OnOk result (named.new.items
        ≡ named.old.items ++ flat_map (of_type kind) attributes.now) }
{
    for attr in attributes {
        add_of_type(named, kind, attr)?;
    }
    Ok(())
}

fn add_of_type(named: &mut Vec<Attr>, kind: u128, attr: &Attr) -> Result<(), AllocError>
    ensures ok { OnOk result (named.new.items ≡ named.old.items ++ of_type kind attr.now) }
{
    let is_of_type = attr.role == Role::Descriptor && attr.kind == kind;
    add_if(named, is_of_type, attr)
}

fn add_if(attributes: &mut Vec<Attr>, holds: bool, attr: &Attr) -> Result<(), AllocError>
    ensures ok { OnOk result
        (attributes.new.items ≡ attributes.old.items ++ attribute_if holds attr.now) }
{
    if holds {
        attributes.push(*attr)?;
    }
    Ok(())
}
