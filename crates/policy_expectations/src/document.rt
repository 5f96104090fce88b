//! The expectations in a TOML document.

ghost use Rattle.std.specs.Prelude.{◌≡◌, None, IfErr, IfOk, codes, is_ok, option_map};
ghost use Rattle.std.specs.Option.{option_and_then};
ghost use Rattle.std.specs.Result.{result_ok};
ghost use Rattle.toml.specs.Data.{get_member};
ghost use Rattle.toml.specs.View.{items_view, table_view, view};
ghost use Rattle.policy_expectations.specs.File.{IsFault, are_known, expectation_in, expectation_of, expectation_with, expectations_of, is_expectation_key, is_file_key, is_known_key, items_written, named_in, number_among, number_written, subscribe_written, type_of_member, type_written, uses_in};

use crate::expectation::Expectation;
use crate::fault::{Fault, Stop, Wrong};
use crate::need::{need_of_member, read_need, value_at};
use att_policy::Need;
use att_table::read_type;
use std::alloc::Global;
use toml::{Table, Value};

/// The largest number of expectations, and of characteristics that `number` counts.
const MOST: u16 = 1024;

/// A table of the file, by the keys that it may have.
#[derive(Clone, Copy)]
enum Level {
    File,
    Expectation,
}

/// The attributes that an expectation names.
#[derive(Clone, Copy)]
struct Named {
    characteristic: u128,
    service: Option<u128>,
    number: Option<u16>,
    descriptor: Option<u128>,
}

/// The needs of each use.
#[derive(Clone, Copy)]
struct Uses {
    read: Option<Need>,
    write: Option<Need>,
    command: Option<Need>,
    notify: Option<Need>,
    indicate: Option<Need>,
    subscribe: Option<Need>,
}

/// Returns the expectations of a document, or its first fault.
pub(crate) fn read_document<'a>(
    alloc: Global,
    document: &'a Table,
) -> Result<Vec<Expectation>, Stop<'a>>
    ensures read { IfOk result
        (λ expectations. expectations_of (table_view document.now) ≡ Ok expectations.items) }
    ensures refused { IfErr result (λ stop. IsFault stop
        → result_ok (expectations_of (table_view document.now)) ≡ None) }
{
    check_keys(0, document, Level::File)?;
    let elements = elements_of(document)?;
    let mut expectations = Vec::new(alloc);
    'elements: for element in elements {
        if expectations.len() >= usize::from(MOST) {
            return Err(Stop::Refused(fault_at(0, "expect", Wrong::TooMany)));
        }
        let place = expectations.len() as u16 + 1;
        let expected = read_element(place, element)?;
        if expectations.push(expected).is_err() {
            return Err(Stop::Memory);
        }
    }
    Ok(expectations)
}

/// Returns the elements of the array `expect`, none without it.
fn elements_of(document: &Table) -> Result<&[Value], Fault<'_>>
    ensures { option_map (λ items. items_view items.now) (result_ok result)
        ≡ items_written (get_member (codes "expect") (table_view document.now)) }
{
    match value_at(document, "expect") {
        Some(value) => match value.as_array() {
            Some(elements) => Ok(elements.as_slice()),
            None => Err(fault_at(0, "expect", Wrong::NoTables)),
        },
        None => Ok(&[]),
    }
}

/// Refuses a key that a table may not have.
fn check_keys<'a>(place: u16, table: &'a Table, level: Level) -> Result<(), Fault<'a>>
    ensures { is_ok result ≡ are_known level (table_view table.now) }
{
    if are_known(level, table) {
        Ok(())
    } else {
        Err(unknown_key(place, table, level))
    }
}

fn are_known(level: Level, table: &Table) -> bool
    ensures { result ≡ are_known level (table_view table.now) }
{
    'members: for (name, _value) in table.iter() {
        if !is_known_key(level, name.as_str()) {
            return false;
        }
    }
    true
}

fn is_known_key(level: Level, key: &str) -> bool
    ensures { result ≡ is_known_key level key.now }
{
    match level {
        Level::File => is_file_key(key),
        Level::Expectation => is_expectation_key(key),
    }
}

fn is_file_key(key: &str) -> bool
    ensures { result ≡ is_file_key key.now }
{
    match key {
        "expect" => true,
        _ => false,
    }
}

fn is_expectation_key(key: &str) -> bool
    ensures { result ≡ is_expectation_key key.now }
{
    match key {
        "characteristic" | "service" | "number" | "descriptor" => true,
        "read" | "write" | "command" | "notify" | "indicate" | "subscribe" => true,
        _ => false,
    }
}

/// Returns the first key that a table may not have.
fn unknown_key<'a>(place: u16, table: &'a Table, level: Level) -> Fault<'a> {
    for (name, _value) in table.iter() {
        if !is_known_key(level, name.as_str()) {
            return fault_at(place, name.as_str(), Wrong::UnknownKey);
        }
    }
    fault_at(place, "", Wrong::UnknownKey)
}

fn read_element(place: u16, element: &Value) -> Result<Expectation, Fault<'_>>
    ensures { result_ok result ≡ result_ok (expectation_in place (view element.now)) }
{
    match element.as_table() {
        Some(table) => read_expectation(place, table),
        None => Err(Fault {
            place,
            right: None,
            key: None,
            wrong: Wrong::NoTable,
        }),
    }
}

fn read_expectation(place: u16, table: &Table) -> Result<Expectation, Fault<'_>>
    ensures { result_ok result ≡ result_ok (expectation_of place (table_view table.now)) }
{
    check_keys(place, table, Level::Expectation)?;
    let named = read_named(place, table)?;
    let uses = read_uses(place, table)?;
    Ok(expectation_with(place, named, uses))
}

fn expectation_with(place: u16, named: Named, uses: Uses) -> Expectation
    ensures { result ≡ expectation_with place named uses }
{
    Expectation {
        place,
        characteristic: named.characteristic,
        service: named.service,
        number: named.number,
        descriptor: named.descriptor,
        read: uses.read,
        write: uses.write,
        command: uses.command,
        notify: uses.notify,
        indicate: uses.indicate,
        subscribe: uses.subscribe,
    }
}

#[tactic(auto, unfolding(crate::specs::File::named_in))]
fn read_named(place: u16, table: &Table) -> Result<Named, Fault<'_>>
    ensures { result_ok result ≡ result_ok (named_in (table_view table.now)) }
{
    Ok(Named {
        characteristic: characteristic_of(place, table)?,
        service: type_of_member(place, table, "service")?,
        number: number_of(place, table)?,
        descriptor: type_of_member(place, table, "descriptor")?,
    })
}

#[tactic(auto, unfolding(crate::specs::File::uses_in))]
fn read_uses(place: u16, table: &Table) -> Result<Uses, Fault<'_>>
    ensures { result_ok result ≡ result_ok (uses_in (table_view table.now)) }
{
    let read = need_of_member(place, table, "read")?;
    let write = need_of_member(place, table, "write")?;
    let command = need_of_member(place, table, "command")?;
    let notify = need_of_member(place, table, "notify")?;
    let indicate = need_of_member(place, table, "indicate")?;
    let subscribe = subscribe_at(place, table, notify.or(indicate))?;
    Ok(Uses {
        read,
        write,
        command,
        notify,
        indicate,
        subscribe,
    })
}

/// Returns the need of a subscription; without its key that of being sent the value.
fn subscribe_at(place: u16, table: &Table, sent: Option<Need>) -> Result<Option<Need>, Fault<'_>>
    ensures { result_ok result ≡ subscribe_written sent
        (get_member (codes "subscribe") (table_view table.now)) }
{
    match value_at(table, "subscribe") {
        Some(value) => read_need(place, "subscribe", value),
        None => Ok(sent),
    }
}

fn characteristic_of(place: u16, table: &Table) -> Result<u128, Fault<'_>>
    ensures { result_ok result
        ≡ option_and_then (λ kind. kind)
        (type_of_member (codes "characteristic") (table_view table.now)) }
{
    match type_of_member(place, table, "characteristic")? {
        Some(kind) => Ok(kind),
        None => Err(fault_at(place, "characteristic", Wrong::MissingKey)),
    }
}

fn type_of_member<'a>(
    place: u16,
    table: &'a Table,
    key: &'static str,
) -> Result<Option<u128>, Fault<'a>>
    ensures { result_ok result ≡ type_of_member key.now (table_view table.now) }
{
    match value_at(table, key) {
        Some(value) => type_of(place, key, value),
        None => Ok(None),
    }
}

fn type_of<'a>(place: u16, key: &'static str, value: &'a Value) -> Result<Option<u128>, Fault<'a>>
    ensures { result_ok result ≡ type_written (Some (view value.now)) }
{
    match value.as_str() {
        Some(text) => match read_type(text) {
            Some(kind) => Ok(Some(kind)),
            None => Err(fault_at(place, key, Wrong::NoType)),
        },
        None => Err(fault_at(place, key, Wrong::NoText)),
    }
}

fn number_of(place: u16, table: &Table) -> Result<Option<u16>, Fault<'_>>
    ensures { result_ok result
        ≡ number_written (get_member (codes "number") (table_view table.now)) }
{
    match value_at(table, "number") {
        Some(value) => number_in(place, value.as_integer()),
        None => Ok(None),
    }
}

fn number_in<'a>(place: u16, number: Option<i64>) -> Result<Option<u16>, Fault<'a>>
    ensures { result_ok result ≡ number_among number }
{
    let Some(number) = number else {
        return Err(fault_at(place, "number", Wrong::NoInteger));
    };
    match u16::try_from(number) {
        Ok(number @ 1..=MOST) => Ok(Some(number)),
        _ => Err(fault_at(place, "number", Wrong::BadNumber)),
    }
}

fn fault_at(place: u16, key: &str, wrong: Wrong) -> Fault<'_> {
    Fault {
        place,
        right: None,
        key: Some(key),
        wrong,
    }
}
