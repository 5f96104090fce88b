//! The place and the fault of a bad table file, in words.

use crate::front::{Front, Kept, Level};
use crate::quoted::add_quoted;
use crate::report::Report;
use crate::wrong_key::{Others, add_name, add_range, add_said, add_wrong_key};
use att_table::{TableFault, TableKey};
use toml::Table;

const LEVELS: [Level; 4] = [
    Level::Elements,
    Level::Includes,
    Level::Characteristics,
    Level::Descriptors,
];

/// Each property as an array of its own.
const PROPERTIES: [(&str, &str); 5] = [
    ("read", "[\"read\"]"),
    ("command", "[\"command\"]"),
    ("write", "[\"write\"]"),
    ("notify", "[\"notify\"]"),
    ("indicate", "[\"indicate\"]"),
];

/// A type of attributes that the server adds by itself.
#[derive(Clone, Copy)]
enum AddedType {
    Configuration,
    Declaration,
}

impl AddedType {
    /// Returns the kind of a type that is written with 16 or with 128 bits.
    fn of(uuid: &str) -> Option<AddedType> {
        let short = match uuid.strip_prefix("0000") {
            Some(rest) if is_of_base(rest) => rest.get(..4)?,
            _ => uuid,
        };
        match short {
            "2902" => Some(AddedType::Configuration),
            "2800" | "2801" | "2802" | "2803" => Some(AddedType::Declaration),
            _ => None,
        }
    }
}

/// Returns true if a UUID without its first four digits is of the Bluetooth Base UUID.
fn is_of_base(rest: &str) -> bool {
    match rest.get(4..) {
        Some(base) => base.eq_ignore_ascii_case(BASE),
        None => false,
    }
}

/// The Bluetooth Base UUID after its first eight digits.
const BASE: &str = "-0000-1000-8000-00805f9b34fb";

/// The words about types that the server adds.
const CONFIGURATION: &[u8] =
    b": the server adds 2902 for notify and indicate; write its rules as config = { .. }";

const DECLARATION: &[u8] = b": the server adds the declarations by itself";

/// Adds the place of a document's first fault, and the fault.
pub fn add_table_place(report: &mut Report<'_>, fault: TableFault) {
    let front = report.shortest("service", &LEVELS);
    add_element(report, &front, fault);
    add_fault(report, &front, fault);
}

fn add_fault(report: &mut Report<'_>, front: &Front<'_>, fault: TableFault) {
    match fault {
        TableFault::Shape => add_wrong_key(report, front),
        TableFault::Missing(key) => add_missing(report, front, key),
        TableFault::TooLong => add_too_long(report, front),
        TableFault::BadSecurity => add_need(report, front),
        TableFault::BadProperty => add_property(report, front),
        TableFault::BadUuid => add_bad_uuid(report, front),
        TableFault::BadHex => add_bad_text(report, front, "value"),
        TableFault::NotToml
        | TableFault::TooMany
        | TableFault::BadInclude
        | TableFault::OutOfMemory => report.add_words(),
    }
}

/// Adds the last element of a front, unless it is the root.
///
/// An include is named only if no key is at fault.
fn add_element(report: &mut Report<'_>, front: &Front<'_>, fault: TableFault) {
    report.add_counted(b"service ", front.elements);
    report.add_counted(b", characteristic ", front.characteristics);
    report.add_counted(b", descriptor ", front.descriptors);
    if front.characteristics == 0 && fault != TableFault::Shape {
        report.add_counted(b", include ", front.includes);
    }
}

fn add_missing(report: &mut Report<'_>, front: &Front<'_>, key: TableKey) {
    add_said(report, front, key_name(key), b": the key is missing");
}

fn add_bad_text(report: &mut Report<'_>, front: &Front<'_>, key: &str) {
    add_name(report, front, key);
    report.add_words();
}

/// Adds the fault of a UUID. The server adds some types by itself, and a table may not have them.
fn add_bad_uuid(report: &mut Report<'_>, front: &Front<'_>) {
    match added_type(report, front) {
        Some(AddedType::Configuration) => add_said(report, front, "uuid", CONFIGURATION),
        Some(AddedType::Declaration) => add_said(report, front, "uuid", DECLARATION),
        None => add_bad_text(report, front, "uuid"),
    }
}

fn added_type(report: &mut Report<'_>, front: &Front<'_>) -> Option<AddedType> {
    let mut kept = report.document(front);
    let added = match front.last_element(&mut kept) {
        Some(element) => AddedType::of(toml_schema::text(element, "uuid").unwrap_or("")),
        None => None,
    };
    drop(kept);
    added
}

fn key_name(key: TableKey) -> &'static str {
    match key {
        TableKey::Service => "service",
        TableKey::Uuid => "uuid",
        TableKey::Properties => "properties",
        TableKey::Value => "value",
    }
}

fn add_too_long(report: &mut Report<'_>, front: &Front<'_>) {
    if report.has_fault_without(front, &["max"]) {
        add_said(report, front, "value", b": it has more than 512 octets");
    } else {
        add_bad_largest(report, front);
    }
}

fn add_bad_largest(report: &mut Report<'_>, front: &Front<'_>) {
    add_name(report, front, "max");
    if let Some(length) = value_length(report, front) {
        add_range(report, front, Others::Kept, "max", length);
    }
}

fn value_length(report: &mut Report<'_>, front: &Front<'_>) -> Option<usize> {
    let mut kept = report.document(front);
    let length = match front.last_element(&mut kept) {
        Some(element) => Some(toml_schema::text(element, "value").unwrap_or("").len() / 2),
        None => None,
    };
    drop(kept);
    length
}

fn add_need(report: &mut Report<'_>, front: &Front<'_>) {
    if report.has_fault_without(front, &["config"]) {
        add_used_need(report, front);
    } else {
        add_in_need(report, front, &["read", "write"], "config");
    }
}

fn add_used_need(report: &mut Report<'_>, front: &Front<'_>) {
    if report.has_fault_without(front, &["config", "write"]) {
        add_in_need(report, front, &["config", "write"], "read");
    } else {
        add_in_need(report, front, &["config", "read"], "write");
    }
}

fn add_in_need(report: &mut Report<'_>, front: &Front<'_>, others: &[&str], need: &str) {
    let without = Kept::Without(others);
    let alone = front.with_keys(&without);
    add_wrong_key(report, &alone.with_inner(need));
}

/// Adds the bad property and the permitted ones, or reports a useless `config`.
fn add_property(report: &mut Report<'_>, front: &Front<'_>) {
    let without = front.with_keys(&Kept::Without(&["config"]));
    if report.has_fault(&without) {
        add_bad_property(report, front, &without);
    } else {
        report.add(b", config: there is nothing to configure without notify or indicate");
    }
}

fn add_bad_property(report: &mut Report<'_>, front: &Front<'_>, without: &Front<'_>) {
    let count = report.least(without, Level::Properties);
    add_name(report, front, "properties");
    add_last_property(report, &without.with(Level::Properties, count));
    report.add(b": it is none of ");
    add_allowed(report, front);
}

fn add_last_property(report: &mut Report<'_>, front: &Front<'_>) {
    let mut kept = report.document(front);
    if let Some(element) = front.last_element(&mut kept) {
        add_last_word(report, element);
    }
    drop(kept);
}

fn add_last_word(report: &mut Report<'_>, element: &Table) {
    if let Some(word) = toml_schema::items(element, "properties").last() {
        report.add(b" \"");
        add_quoted(report, word.as_str().unwrap_or(""));
        report.add(b"\"");
    }
}

/// Adds the properties that are permitted without a client configuration.
fn add_allowed(report: &mut Report<'_>, front: &Front<'_>) {
    let mut before: &[u8] = b"";
    for (word, alone) in &PROPERTIES {
        let with = Kept::With("properties", alone, &["config"]);
        if !report.has_fault_with(front, &with) {
            report.add(before);
            report.add(word.as_bytes());
            before = b", ";
        }
    }
}
