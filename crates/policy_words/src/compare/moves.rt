//! The attributes that have other handles, and the subscriptions that are dropped.

ghost use Rattle.std.specs.Prelude.{◌≡◌, ◌++◌, IfOk, OnOk};
ghost use Rattle.std.specs.List.{flat_map};
ghost use Rattle.att_attributes.specs.Attributes.{type_at};
ghost use Rattle.att_table.specs.ConfigRow.{has_its_meaning};
ghost use Rattle.policy_words.specs.compare.Lines.{alone_line, alone_text, dropped_line, is_closed_to, is_kept, is_still_sent, keeps_bit, kind_if_lasting, lasting_kinds, lasting_line, lasting_text, lasts, lasts_with, moved_line, moved_text};

use crate::columns::Column;
use crate::compare::lines::add_whose;
use crate::compare::pairing::{Pair, other_handle};
use crate::may::is_configuration;
use crate::type_text::add_handle_and_type;
use att_policy::{INDICATION, KeyFacts};
use att_table::{Attr, Role, Table};
use policy_rights::{NOTIFICATION, Right, may_with};
use std::alloc::{AllocError, Global};
use text_words::{add_number, add_octets};

/// Returns a line for each of these attributes that has another handle in the other table.
pub(crate) fn moved_lines(
    alloc: Global,
    pairs: &[Pair],
    others: &[Pair],
) -> Result<Vec<u8>, AllocError>
    ensures { IfOk result (λ lines. lines.items
        ≡ flat_map (moved_line pairs.now others.now) pairs.now) }
{
    let mut lines = Vec::new(alloc);
    for pair in pairs {
        add_moved_line(&mut lines, pairs, others, pair)?;
    }
    Ok(lines)
}

fn add_moved_line(
    text: &mut Vec<u8>,
    pairs: &[Pair],
    others: &[Pair],
    pair: &Pair,
) -> Result<(), AllocError>
    ensures ok { OnOk result
        (text.new.items ≡ text.old.items ++ moved_line pairs.now others.now pair.now) }
{
    add_move(text, &pair.attr, other_handle(pairs, others, pair))
}

#[tactic(auto, unfolding(crate::specs::compare::Lines::moved_text))]
fn add_move(text: &mut Vec<u8>, attr: &Attr, there: Option<u16>) -> Result<(), AllocError>
    ensures ok { OnOk result (text.new.items ≡ text.old.items ++ moved_text attr.now there) }
{
    let Some(handle) = there else {
        return Ok(());
    };
    if handle == attr.handle {
        return Ok(());
    }
    add_handle_and_type(text, attr.handle, attr.kind)?;
    add_octets(text, b" was ")?;
    add_number(text, u64::from(handle))?;
    add_octets(text, b"\n")
}

/// Returns a line for each of these attributes that the other table does not have.
pub(crate) fn alone_lines(
    alloc: Global,
    pairs: &[Pair],
    others: &[Pair],
) -> Result<Vec<u8>, AllocError>
    ensures { IfOk result (λ lines. lines.items
        ≡ flat_map (alone_line pairs.now others.now) pairs.now) }
{
    let mut lines = Vec::new(alloc);
    for pair in pairs {
        add_alone_line(&mut lines, pairs, others, pair)?;
    }
    Ok(lines)
}

fn add_alone_line(
    text: &mut Vec<u8>,
    pairs: &[Pair],
    others: &[Pair],
    pair: &Pair,
) -> Result<(), AllocError>
    ensures ok { OnOk result
        (text.new.items ≡ text.old.items ++ alone_line pairs.now others.now pair.now) }
{
    add_if_alone(text, &pair.attr, other_handle(pairs, others, pair))
}

#[tactic(auto, unfolding(crate::specs::compare::Lines::alone_text))]
fn add_if_alone(text: &mut Vec<u8>, attr: &Attr, there: Option<u16>) -> Result<(), AllocError>
    ensures ok { OnOk result (text.new.items ≡ text.old.items ++ alone_text attr.now there) }
{
    match there {
        Some(_) => Ok(()),
        None => {
            add_handle_and_type(text, attr.handle, attr.kind)?;
            add_octets(text, b"\n")
        }
    }
}

/// Returns a line for each of these configurations whose subscriptions are dropped if the other
/// table replaces this.
pub(crate) fn dropped_lines(
    alloc: Global,
    table: &Table,
    other: &Table,
    attributes: &[Attr],
) -> Result<Vec<u8>, AllocError>
    ensures { IfOk result (λ lines. lines.items
        ≡ flat_map (dropped_line table.now.attributes other.now.attributes) attributes.now) }
{
    let mut lines = Vec::new(alloc);
    for attr in attributes {
        add_dropped_line(&mut lines, table, other, attr)?;
    }
    Ok(lines)
}

#[tactic(auto, unfolding(crate::specs::compare::Lines::dropped_line))]
fn add_dropped_line(
    text: &mut Vec<u8>,
    table: &Table,
    other: &Table,
    attr: &Attr,
) -> Result<(), AllocError>
    ensures ok { OnOk result (text.new.items ≡ text.old.items
        ++ dropped_line table.now.attributes other.now.attributes attr.now) }
{
    if attr.role != Role::Configuration || is_kept(table, other, attr.handle) {
        return Ok(());
    }
    let value = attr.handle.saturating_sub(1);
    add_handle_and_type(text, value, type_at(table, value))?;
    add_octets(text, b"\n")
}

fn is_kept(table: &Table, other: &Table, handle: u16) -> bool
    ensures { result ≡ is_kept table.now.attributes other.now.attributes handle }
{
    other.supports(handle, table.configuration_bits(handle))
        && has_its_meaning(table, other, handle)
}

fn has_its_meaning(table: &Table, other: &Table, handle: u16) -> bool
    ensures { result ≡ has_its_meaning table.now.attributes other.now.attributes handle }
{
    let value = handle.saturating_sub(1);
    is_configuration(table, handle) && type_at(table, value) == type_at(other, value)
}

fn type_at(table: &Table, handle: u16) -> u128
    ensures { result ≡ type_at table.now.attributes handle }
{
    match table.get(handle) {
        Some(attr) => attr.kind,
        None => 0,
    }
}

/// Returns a line for each of these configurations whose subscriptions last in the other table,
/// although it closes them.
pub(crate) fn still_sent_lines(
    alloc: Global,
    table: &Table,
    other: &Table,
    kinds: &[Option<KeyFacts>],
    columns: &[Column],
    attributes: &[Attr],
) -> Result<Vec<u8>, AllocError>
    ensures { IfOk result (λ lines. lines.items ≡ flat_map
        (lasting_line table.now.attributes other.now.attributes kinds.now columns.now)
        attributes.now) }
{
    let mut lines = Vec::new(alloc);
    for attr in attributes {
        add_lasting_line(alloc, &mut lines, table, other, kinds, columns, attr)?;
    }
    Ok(lines)
}

fn add_lasting_line(
    alloc: Global,
    text: &mut Vec<u8>,
    table: &Table,
    other: &Table,
    kinds: &[Option<KeyFacts>],
    columns: &[Column],
    attr: &Attr,
) -> Result<(), AllocError>
    ensures ok { OnOk result (text.new.items ≡ text.old.items ++ lasting_line
        table.now.attributes other.now.attributes kinds.now columns.now attr.now) }
{
    if attr.role != Role::Configuration {
        return Ok(());
    }
    let value = attr.handle.saturating_sub(1);
    let lasting = lasting_kinds(alloc, table, other, kinds, attr.handle)?;
    add_if_lasting(alloc, text, value, type_at(table, value), columns, &lasting)
}

#[tactic(auto, unfolding(crate::specs::compare::Lines::lasting_text))]
fn add_if_lasting(
    alloc: Global,
    text: &mut Vec<u8>,
    value: u16,
    kind: u128,
    columns: &[Column],
    kinds: &[Option<KeyFacts>],
) -> Result<(), AllocError>
    ensures ok { OnOk result
        (text.new.items ≡ text.old.items ++ lasting_text value kind columns.now kinds.now) }
{
    match kinds {
        [] => Ok(()),
        _ => {
            add_handle_and_type(text, value, kind)?;
            add_whose(alloc, text, columns, kinds)
        }
    }
}

/// Returns the kinds of keys whose subscriptions to a value last.
fn lasting_kinds(
    alloc: Global,
    table: &Table,
    other: &Table,
    kinds: &[Option<KeyFacts>],
    handle: u16,
) -> Result<Vec<Option<KeyFacts>>, AllocError>
    ensures { IfOk result (λ lasting. lasting.items ≡ lasting_kinds table.now.attributes
        other.now.attributes kinds.now handle) }
{
    let mut lasting = Vec::new(alloc);
    add_lasting_kinds(&mut lasting, table, other, handle, kinds)?;
    Ok(lasting)
}

fn add_lasting_kinds(
    lasting: &mut Vec<Option<KeyFacts>>,
    table: &Table,
    other: &Table,
    handle: u16,
    kinds: &[Option<KeyFacts>],
) -> Result<(), AllocError>
    ensures ok { OnOk result (lasting.new.items ≡ lasting.old.items ++ flat_map
        (kind_if_lasting table.now.attributes other.now.attributes handle) kinds.now) }
{
    for key in kinds {
        add_if_kind_lasts(lasting, table, other, handle, *key)?;
    }
    Ok(())
}

fn add_if_kind_lasts(
    lasting: &mut Vec<Option<KeyFacts>>,
    table: &Table,
    other: &Table,
    handle: u16,
    key: Option<KeyFacts>,
) -> Result<(), AllocError>
    ensures ok { OnOk result (lasting.new.items ≡ lasting.old.items
        ++ kind_if_lasting table.now.attributes other.now.attributes handle key) }
{
    if lasts(table, other, handle, key) {
        lasting.push(key)?;
    }
    Ok(())
}

fn lasts(table: &Table, other: &Table, handle: u16, key: Option<KeyFacts>) -> bool
    ensures { result ≡ lasts table.now.attributes other.now.attributes handle key }
{
    lasts_with(table, other, handle, key, false) || lasts_with(table, other, handle, key, true)
}

fn lasts_with(
    table: &Table,
    other: &Table,
    handle: u16,
    key: Option<KeyFacts>,
    is_authorized: bool,
) -> bool
    ensures { result
        ≡ lasts_with table.now.attributes other.now.attributes handle key is_authorized }
{
    is_closed_to(table, other, handle.saturating_sub(1), key, is_authorized)
        && is_still_sent(table, other, handle, key, is_authorized)
}

fn is_closed_to(
    table: &Table,
    other: &Table,
    value: u16,
    key: Option<KeyFacts>,
    is_authorized: bool,
) -> bool
    ensures { result
        ≡ is_closed_to table.now.attributes other.now.attributes value key is_authorized }
{
    may_with(table, key, is_authorized, value, Right::Subscribe)
        && !may_with(other, key, is_authorized, value, Right::Subscribe)
}

fn is_still_sent(
    table: &Table,
    other: &Table,
    handle: u16,
    key: Option<KeyFacts>,
    is_authorized: bool,
) -> bool
    ensures { result
        ≡ is_still_sent table.now.attributes other.now.attributes handle key is_authorized }
{
    let value = handle.saturating_sub(1);
    (keeps_bit(table, other, handle, NOTIFICATION)
        && may_with(other, key, is_authorized, value, Right::Notify))
        || (keeps_bit(table, other, handle, INDICATION)
            && may_with(other, key, is_authorized, value, Right::Indicate))
}

/// Returns true if a subscription by this bit is kept.
fn keeps_bit(table: &Table, other: &Table, handle: u16, bit: u8) -> bool
    ensures { result ≡ keeps_bit table.now.attributes other.now.attributes handle bit }
{
    table.supports(handle, bit)
        && other.supports(handle, bit)
        && has_its_meaning(table, other, handle)
}
