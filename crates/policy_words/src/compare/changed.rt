//! The changes of attributes that correspond, a line each.

ghost use Rattle.std.specs.Prelude.{◌≡◌, ◌++◌, codes, IfOk, OnOk};
ghost use Rattle.std.specs.List.{flat_map};
ghost use Rattle.std.specs.Option.{option_and_then, option_copied};
ghost use Rattle.att_attributes.specs.Attributes.{attribute_at};
ghost use Rattle.policy_words.specs.compare.Changed.{after_value, change_text, changed_lines, changes_from, configuration_text, facts_changes, first_text, service_kind_text, need_or_everybody, needs_changes, or_words, properties_text, sizes_text};
ghost use Rattle.policy_words.specs.compare.Pairing.{other_handle};

use crate::compare::pairing::{Pair, other_handle, service_before};
use crate::table::{add_length, told_value};
use crate::type_text::add_handle_and_type;
use crate::uses::{add_heard_words, add_need, add_written_words};
use att_numbers::attribute_type::SECONDARY_SERVICE;
use att_policy::{Need, Properties};
use att_table::{Attr, Role, Table};
use std::alloc::{AllocError, Global};
use text_words::{add_hex, add_octets};

/// Returns the lines of the attributes that correspond to one of the other table.
pub(crate) fn lines_of_changes(
    alloc: Global,
    table: &Table,
    other: &Table,
    pairs: &[Pair],
    others: &[Pair],
) -> Result<Vec<u8>, AllocError>
    ensures { IfOk result (λ lines. lines.items
        ≡ flat_map (changed_lines table.now other.now pairs.now others.now) pairs.now) }
{
    let mut lines = Vec::new(alloc);
    for pair in pairs {
        add_changed_lines(alloc, &mut lines, table, other, pairs, others, pair)?;
    }
    Ok(lines)
}

fn add_changed_lines(
    alloc: Global,
    text: &mut Vec<u8>,
    table: &Table,
    other: &Table,
    pairs: &[Pair],
    others: &[Pair],
    pair: &Pair,
) -> Result<(), AllocError>
    ensures ok { OnOk result (text.new.items ≡ text.old.items
        ++ changed_lines table.now other.now pairs.now others.now pair.now) }
{
    match placed(pairs, others, pair, other) {
        Some(before) => add_changes(alloc, text, table, other, &pair.attr, before),
        None => Ok(()),
    }
}

/// Returns the attribute of the other table at the place of one.
fn placed<'a>(pairs: &[Pair], others: &[Pair], pair: &Pair, other: &'a Table) -> Option<&'a Attr>
    ensures { option_copied result ≡ option_and_then (attribute_at other.now.attributes)
        (other_handle pairs.now others.now pair.now) }
{
    let handle = other_handle(pairs, others, pair)?;
    other.get(handle)
}

fn add_changes(
    alloc: Global,
    text: &mut Vec<u8>,
    table: &Table,
    other: &Table,
    attr: &Attr,
    before: &Attr,
) -> Result<(), AllocError>
    ensures ok { OnOk result (text.new.items ≡ text.old.items
        ++ (needs_changes table.now.attributes other.now.attributes attr.now before.now
        ++ facts_changes table.now other.now attr.now before.now)) }
{
    add_needs_changes(alloc, text, table, other, attr, before)?;
    add_facts_changes(alloc, text, table, other, attr, before)
}

#[tactic(auto, unfolding(crate::specs::compare::Changed::needs_changes))]
fn add_needs_changes(
    alloc: Global,
    text: &mut Vec<u8>,
    table: &Table,
    other: &Table,
    attr: &Attr,
    before: &Attr,
) -> Result<(), AllocError>
    ensures ok { OnOk result (text.new.items ≡ text.old.items
        ++ needs_changes table.now.attributes other.now.attributes attr.now before.now) }
{
    let read = need_or_everybody(alloc, &attr.guard.read)?;
    let read_before = need_or_everybody(alloc, &before.guard.read)?;
    add_change(text, attr, b"read", &read, &read_before)?;
    let write = need_or_everybody(alloc, &attr.guard.write)?;
    let write_before = need_or_everybody(alloc, &before.guard.write)?;
    add_change(text, attr, b"write", &write, &write_before)?;
    let config = config_text(alloc, table, attr.handle)?;
    let config_before = config_text(alloc, other, before.handle)?;
    add_change(text, attr, b"config", &config, &config_before)
}

#[tactic(auto, unfolding(crate::specs::compare::Changed::facts_changes))]
fn add_facts_changes(
    alloc: Global,
    text: &mut Vec<u8>,
    table: &Table,
    other: &Table,
    attr: &Attr,
    before: &Attr,
) -> Result<(), AllocError>
    ensures ok { OnOk result (text.new.items ≡ text.old.items
        ++ facts_changes table.now other.now attr.now before.now) }
{
    let properties = properties_text(alloc, attr.guard.properties)?;
    let properties_before = properties_text(alloc, before.guard.properties)?;
    add_change(text, attr, b"properties", &properties, &properties_before)?;
    let sizes = sizes_text(alloc, attr)?;
    let sizes_before = sizes_text(alloc, before)?;
    add_change(text, attr, b"length", &sizes, &sizes_before)?;
    let value = first_text(alloc, told_value(table, attr.handle))?;
    let value_before = first_text(alloc, told_value(other, before.handle))?;
    add_change(text, attr, b"value", &value, &value_before)?;
    let kind = service_kind_text(service_before(table, attr.handle));
    let kind_before = service_kind_text(service_before(other, before.handle));
    add_change(
        text,
        attr,
        b"service",
        kind.as_bytes(),
        kind_before.as_bytes(),
    )
}

/// Adds a line for what is not the same as before.
#[tactic(auto, unfolding(crate::specs::compare::Changed::change_text))]
fn add_change(
    text: &mut Vec<u8>,
    attr: &Attr,
    label: &[u8],
    now: &[u8],
    before: &[u8],
) -> Result<(), AllocError>
    ensures ok { OnOk result (text.new.items
        ≡ text.old.items ++ change_text attr.now label.now now.now before.now) }
{
    if now == before {
        return Ok(());
    }
    add_handle_and_type(text, attr.handle, attr.kind)?;
    add_octets(text, b"  ")?;
    add_octets(text, label)?;
    add_octets(text, now)?;
    add_octets(text, b", was")?;
    add_octets(text, before)?;
    add_octets(text, b"\n")
}

/// Adds other words in place of none.
fn add_if_empty(words: &mut Vec<u8>, other: &[u8]) -> Result<(), AllocError>
    ensures ok { OnOk result (words.new.items ≡ or_words words.old.items other.now) }
{
    match words.as_slice() {
        [] => add_octets(words, other),
        _ => Ok(()),
    }
}

fn need_or_everybody(alloc: Global, need: &Need) -> Result<Vec<u8>, AllocError>
    ensures { IfOk result (λ words. words.items ≡ need_or_everybody need.now) }
{
    let mut words = Vec::new(alloc);
    add_need(&mut words, need)?;
    add_if_empty(&mut words, b" for everybody")?;
    Ok(words)
}

fn properties_text(alloc: Global, properties: Properties) -> Result<Vec<u8>, AllocError>
    ensures { IfOk result (λ words. words.items ≡ properties_text properties) }
{
    let mut words = Vec::new(alloc);
    add_heard_words(&mut words, properties)?;
    add_written_words(&mut words, properties)?;
    add_if_empty(&mut words, b" none")?;
    Ok(words)
}

fn sizes_text(alloc: Global, attr: &Attr) -> Result<Vec<u8>, AllocError>
    ensures { IfOk result (λ words. words.items ≡ sizes_text attr.now) }
{
    let mut words = Vec::new(alloc);
    add_octets(&mut words, b" ")?;
    add_length(&mut words, attr)?;
    Ok(words)
}

fn first_text(alloc: Global, value: &[u8]) -> Result<Vec<u8>, AllocError>
    ensures { IfOk result (λ words. words.items ≡ first_text value.now) }
{
    let mut words = Vec::new(alloc);
    add_first(&mut words, value)?;
    Ok(words)
}

fn add_first(words: &mut Vec<u8>, value: &[u8]) -> Result<(), AllocError>
    ensures ok { OnOk result (words.new.items ≡ words.old.items ++ first_text value.now) }
{
    match value {
        [] => add_octets(words, b" empty"),
        _ => {
            add_octets(words, b" ")?;
            add_hex(words, value)
        }
    }
}

fn config_text(alloc: Global, table: &Table, handle: u16) -> Result<Vec<u8>, AllocError>
    ensures { IfOk result (λ words. words.items
        ≡ configuration_text (after_value table.now.attributes handle)) }
{
    configuration_text(alloc, after_value(table, handle))
}

/// Returns the attribute after a value.
fn after_value(table: &Table, handle: u16) -> Option<&Attr>
    ensures { option_copied result ≡ after_value table.now.attributes handle }
{
    match table.get(handle) {
        Some(_) => table.get(handle + 1),
        None => None,
    }
}

fn configuration_text(alloc: Global, attr: Option<&Attr>) -> Result<Vec<u8>, AllocError>
    ensures { IfOk result
        (λ words. words.items ≡ configuration_text (option_copied attr.entry)) }
{
    match attr {
        Some(attr) if attr.role == Role::Configuration => need_or_everybody(
            alloc,
            &attr.guard.write,
        ),
        _ => none_text(alloc),
    }
}

fn none_text(alloc: Global) -> Result<Vec<u8>, AllocError>
    ensures { IfOk result (λ words. words.items ≡ codes " none") }
{
    let mut words = Vec::new(alloc);
    add_octets(&mut words, b" none")?;
    Ok(words)
}

fn service_kind_text(service: Option<&Attr>) -> &'static str
    ensures { result.now ≡ service_kind_text (option_copied service.entry) }
{
    match service {
        Some(service) if service.kind == SECONDARY_SERVICE => " secondary",
        Some(_) => " primary",
        None => " none",
    }
}
