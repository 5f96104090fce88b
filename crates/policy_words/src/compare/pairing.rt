//! The attribute of another table that corresponds to one of this.

ghost use Rattle.std.specs.Prelude.{◌≡◌, ◌++◌, IfOk, OnOk, count_by, filter, slice_get};
ghost use Rattle.std.specs.List.{find, flat_map};
ghost use Rattle.std.specs.Option.{option_copied};
ghost use Rattle.att_table.specs.Changer.{last_service};
ghost use Rattle.policy_words.specs.compare.Pairing.{end_of_group, group_at, has_role, is_alike, is_passing_before, is_loose, is_loose_before, is_service_of, loose_handle, other_alike, other_descriptor, other_service, other_value, pair_if_used, pairs_of, other_handle, service_before, service_with, sure_handle, value_before};

use crate::table::told_value;
use att_table::{Attr, Role, Table, is_service};
use policy_rights::{all_attributes, is_used};
use std::alloc::{AllocError, Global};

/// A value or a descriptor, and the one of another table that corresponds to it.
#[derive(Clone, Copy)]
pub(crate) struct Pair {
    pub attr: Attr,
    /// The handle in the other table; `None` if it is uncertain.
    pub there: Option<u16>,
}

/// Returns the values and descriptors of a table, each with the one of another table that
/// corresponds to it.
pub(crate) fn pairs_of(alloc: Global, table: &Table, other: &Table) -> Result<Vec<Pair>, AllocError>
    ensures { IfOk result (λ pairs. pairs.items ≡ pairs_of table.now other.now) }
{
    let mut pairs = Vec::new(alloc);
    add_pairs(&mut pairs, table, other, all_attributes(table))?;
    Ok(pairs)
}

fn add_pairs(
    pairs: &mut Vec<Pair>,
    table: &Table,
    other: &Table,
    attributes: &[Attr],
) -> Result<(), AllocError>
    ensures ok { OnOk result (pairs.new.items
        ≡ pairs.old.items ++ flat_map (pair_if_used table.now other.now) attributes.now) }
{
    for attr in attributes {
        add_pair(pairs, table, other, attr)?;
    }
    Ok(())
}

fn add_pair(
    pairs: &mut Vec<Pair>,
    table: &Table,
    other: &Table,
    attr: &Attr,
) -> Result<(), AllocError>
    ensures ok { OnOk result (pairs.new.items
        ≡ pairs.old.items ++ pair_if_used table.now other.now attr.now) }
{
    if is_used(attr.role) {
        let there = sure_handle(table, other, attr);
        pairs.push(Pair { attr: *attr, there })?;
    }
    Ok(())
}

/// Returns the handle of the attribute to which one surely corresponds.
fn sure_handle(table: &Table, other: &Table, attr: &Attr) -> Option<u16>
    ensures { result ≡ sure_handle table.now other.now attr.now }
{
    match attr.role {
        Role::Value => Some(other_value(table, other, attr)?.handle),
        Role::Descriptor => Some(other_descriptor(table, other, attr)?.handle),
        Role::Declaration | Role::Configuration => None,
    }
}

fn other_value<'a>(table: &Table, other: &'a Table, value: &Attr) -> Option<&'a Attr>
    ensures { option_copied result ≡ other_value table.now other.now value.now }
{
    let service = service_before(table, value.handle)?;
    let there = other_service(table, other, service)?;
    other_alike(
        value,
        group_at(table, service.handle),
        group_at(other, there.handle),
    )
}

fn other_descriptor<'a>(table: &Table, other: &'a Table, descriptor: &Attr) -> Option<&'a Attr>
    ensures { option_copied result ≡ other_descriptor table.now other.now descriptor.now }
{
    let value = value_before(table, descriptor.handle)?;
    let there = other_value(table, other, value)?;
    other_alike(
        descriptor,
        group_at(table, value.handle.saturating_sub(1)),
        group_at(other, there.handle.saturating_sub(1)),
    )
}

pub(crate) fn service_before(table: &Table, handle: u16) -> Option<&Attr>
    ensures { option_copied result ≡ service_before table.now.attributes handle }
{
    last_service(table.in_range(1, handle.saturating_sub(1)))
}

fn last_service(attributes: &[Attr]) -> Option<&Attr>
    ensures { option_copied result ≡ last_service attributes.now }
{
    attributes.iter().rev().find(|attr| is_service(attr.kind))
}

fn value_before(table: &Table, handle: u16) -> Option<&Attr>
    ensures { option_copied result ≡ value_before table.now.attributes handle }
{
    table
        .in_range(1, handle.saturating_sub(1))
        .iter()
        .rev()
        .find(|attr| attr.role == Role::Value)
}

/// Returns the attributes of the service or the characteristic that is declared at a handle.
fn group_at(table: &Table, handle: u16) -> &[Attr]
    ensures { result.now ≡ group_at table.now.attributes handle }
{
    table.in_range(handle, end_of_group(table, handle))
}

fn end_of_group(table: &Table, handle: u16) -> u16
    ensures { result ≡ end_of_group table.now.attributes handle }
{
    match table.get(handle) {
        Some(_) => table.group_end(handle),
        None => 0,
    }
}

fn other_service<'a>(table: &Table, other: &'a Table, service: &Attr) -> Option<&'a Attr>
    ensures { option_copied result ≡ other_service table.now other.now service.now }
{
    service_with(
        table,
        told_value(table, service.handle),
        service.handle,
        other,
    )
}

/// Returns the nth service of a type, if both tables have the same number of them.
fn service_with<'a>(table: &Table, uuid: &[u8], handle: u16, other: &'a Table) -> Option<&'a Attr>
    ensures { option_copied result ≡ service_with table.now uuid.now handle other.now }
{
    if services(table, uuid) != services(other, uuid) {
        return None;
    }
    let number = services_before(table, uuid, handle);
    numbered_service(other, uuid, all_attributes(other), number)
}

fn services(table: &Table, uuid: &[u8]) -> usize
    ensures { result ≡ count_by (is_service_of table.now uuid.now) table.now.attributes }
{
    all_attributes(table)
        .iter()
        .filter(|attr| is_service_of(table, uuid, attr))
        .count()
}

fn services_before(table: &Table, uuid: &[u8], handle: u16) -> usize
    ensures { result ≡ count_by (is_passing_before (is_service_of table.now uuid.now) handle)
        table.now.attributes }
{
    all_attributes(table)
        .iter()
        .filter(|attr| is_service_of(table, uuid, attr) && attr.handle < handle)
        .count()
}

fn is_service_of(table: &Table, uuid: &[u8], attr: &Attr) -> bool
    ensures { result ≡ is_service_of table.now uuid.now attr.now }
{
    is_service(attr.kind) && told_value(table, attr.handle) == uuid
}

fn numbered_service<'a>(
    table: &Table,
    uuid: &[u8],
    attributes: &'a [Attr],
    number: usize,
) -> Option<&'a Attr>
    ensures { option_copied result
        ≡ slice_get (filter (is_service_of table.now uuid.now) attributes.now) number }
{
    let mut left = number;
    for attr in attributes {
        if is_service_of(table, uuid, attr) {
            if left == 0 {
                return Some(attr);
            }
            left -= 1;
        }
    }
    None
}

/// Returns the nth value or descriptor of a type, if both groups have the same number of them.
fn other_alike<'a>(attr: &Attr, attributes: &[Attr], others: &'a [Attr]) -> Option<&'a Attr>
    ensures { option_copied result ≡ other_alike attr.now attributes.now others.now }
{
    if alike(attr, attributes) != alike(attr, others) {
        return None;
    }
    numbered(attr, others, alike_before(attr, attributes))
}

fn alike(attr: &Attr, attributes: &[Attr]) -> usize
    ensures { result ≡ count_by (is_alike attr.now) attributes.now }
{
    attributes
        .iter()
        .filter(|other| is_alike(attr, other))
        .count()
}

fn alike_before(attr: &Attr, attributes: &[Attr]) -> usize
    ensures { result
        ≡ count_by (is_passing_before (is_alike attr.now) attr.now.handle) attributes.now }
{
    attributes
        .iter()
        .filter(|other| is_alike(attr, other) && other.handle < attr.handle)
        .count()
}

fn is_alike(one: &Attr, other: &Attr) -> bool
    ensures { result ≡ is_alike one.now other.now }
{
    has_role(one.role, other.role) && one.kind == other.kind
}

fn has_role(wanted: Role, role: Role) -> bool
    ensures { result ≡ has_role wanted role }
{
    match wanted {
        Role::Value => role == Role::Value,
        Role::Descriptor => role == Role::Descriptor,
        Role::Declaration | Role::Configuration => false,
    }
}

fn numbered<'a>(attr: &Attr, others: &'a [Attr], number: usize) -> Option<&'a Attr>
    ensures { option_copied result ≡ slice_get (filter (is_alike attr.now) others.now) number }
{
    let mut left = number;
    for other in others {
        if is_alike(attr, other) {
            if left == 0 {
                return Some(other);
            }
            left -= 1;
        }
    }
    None
}

/// Returns the handle that an attribute has in the other table.
///
/// The nth uncertain attribute of a type is taken for the nth uncertain one of this type.
pub(crate) fn other_handle(pairs: &[Pair], others: &[Pair], pair: &Pair) -> Option<u16>
    ensures { result ≡ other_handle pairs.now others.now pair.now }
{
    match pair.there {
        Some(handle) => Some(handle),
        None => loose_handle(pairs, pair, others),
    }
}

fn loose_handle(pairs: &[Pair], pair: &Pair, others: &[Pair]) -> Option<u16>
    ensures { result ≡ loose_handle pairs.now pair.now others.now }
{
    Some(
        numbered_loose(pair, others, loose_before(pairs, pair))?
            .attr
            .handle,
    )
}

fn loose_before(pairs: &[Pair], pair: &Pair) -> usize
    ensures { result ≡ count_by (is_loose_before pair.now) pairs.now }
{
    pairs
        .iter()
        .filter(|other| is_loose(pair, other) && other.attr.handle < pair.attr.handle)
        .count()
}

fn numbered_loose<'a>(pair: &Pair, others: &'a [Pair], number: usize) -> Option<&'a Pair>
    ensures { option_copied result ≡ slice_get (filter (is_loose pair.now) others.now) number }
{
    let mut left = number;
    for other in others {
        if is_loose(pair, other) {
            if left == 0 {
                return Some(other);
            }
            left -= 1;
        }
    }
    None
}

fn is_loose(pair: &Pair, other: &Pair) -> bool
    ensures { result ≡ is_loose pair.now other.now }
{
    other.there.is_none() && other.attr.kind == pair.attr.kind
}
