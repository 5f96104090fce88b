//! The faulty key of an element, and its right type or range.

use crate::front::{Front, Kept};
use crate::quoted::add_quoted;
use crate::refused::Format;
use crate::report::Report;
use itoa::Buffer;
use toml::Table;

/// A value of each type that a key may have, with the name of the type.
const TYPES: [(&str, &[u8]); 7] = [
    ("\"\"", b"a string"),
    ("true", b"a boolean"),
    ("16", b"an integer"),
    ("{}", b"a table"),
    ("[\"\"]", b"an array of strings"),
    ("[0]", b"an array of integers"),
    ("[{}]", TABLES),
];

const INTEGER: &[u8] = b"an integer";

const TABLES: &[u8] = b"an array of tables";

/// The keys of arrays of tables in a table file, with the headers of their elements.
const TABLE_HEADERS: [(&str, &[u8]); 3] = [
    ("service", b"[[service]]"),
    ("characteristic", b"[[service.characteristic]]"),
    ("descriptor", b"[[service.characteristic.descriptor]]"),
];

/// The key of the array of tables in a key file, with the header of its elements.
const KEY_HEADERS: [(&str, &[u8]); 1] = [("key", b"[[key]]")];

/// A number above any that a key may have.
const TOO_MUCH: usize = 0x10_0000;

/// The treatment of a table's other keys while a number is tried.
#[derive(Clone, Copy)]
pub enum Others {
    /// Keeps them, because the number is checked with or after them.
    Kept,
    /// Drops them, because one of them may have the same fault.
    Left,
}

impl Others {
    fn with<'a>(self, key: &'a str, value: &'a str) -> Kept<'a> {
        match self {
            Others::Kept => Kept::With(key, value, &[]),
            Others::Left => Kept::AloneAs(key, value),
        }
    }
}

/// Adds the name of a key after that of its element.
pub fn add_name(report: &mut Report<'_>, front: &Front<'_>, key: &str) {
    if front.elements > 0 {
        report.add(b", ");
    }
    if let Some(inner) = front.inner {
        report.add(inner.as_bytes());
        report.add(b", ");
    }
    add_quoted(report, key);
}

/// Adds the name of a key after that of its element, and what is wrong with it.
pub fn add_said(report: &mut Report<'_>, front: &Front<'_>, key: &str, said: &[u8]) {
    add_name(report, front, key);
    report.add(said);
}

/// Adds the first key of the last table that is refused even alone, and why.
///
/// It is unknown, has the wrong type, or is a number out of range.
pub fn add_wrong_key(report: &mut Report<'_>, front: &Front<'_>) {
    let mut kept = report.document(front);
    match front.last_table(&mut kept) {
        Some(table) => add_wrong_key_of(report, front, table),
        None => report.add(b": it has to be a table"),
    }
    drop(kept);
}

fn add_wrong_key_of(report: &mut Report<'_>, front: &Front<'_>, table: &Table) {
    for (name, value) in table.iter() {
        let key = name.as_str();
        if report.has_fault_with(front, &Kept::Alone(key)) {
            add_name(report, front, key);
            return add_wrong(report, front, key, value.is_integer());
        }
    }
    report.add_words();
}

fn add_wrong(report: &mut Report<'_>, front: &Front<'_>, key: &str, is_integer: bool) {
    for (value, name) in &TYPES {
        if !report.has_fault_with(front, &Kept::AloneAs(key, value)) {
            return add_right(report, front, key, name, is_integer);
        }
    }
    report.add(b": there is no such key");
    add_header(report, key);
}

/// Adds the header of a table that is an element of an array at a key, if the format has one.
fn add_header(report: &mut Report<'_>, key: &str) {
    let headers = match report.format() {
        Format::Table => TABLE_HEADERS.as_slice(),
        Format::Keys => KEY_HEADERS.as_slice(),
    };
    for (name, header) in headers {
        if key == *name {
            report.add(b"; write ");
            report.add(header);
        }
    }
}

/// Adds the type that a key must have, or its range if it is a number already.
fn add_right(report: &mut Report<'_>, front: &Front<'_>, key: &str, name: &[u8], is_integer: bool) {
    if is_integer && name == INTEGER {
        add_range(report, front, Others::Left, key, 16);
    } else {
        report.add(b": it has to be ");
        report.add(name);
        if name == TABLES {
            add_header(report, key);
        }
    }
}

/// Adds the range of a key, for which `good` is accepted.
pub fn add_range(
    report: &mut Report<'_>,
    front: &Front<'_>,
    others: Others,
    key: &str,
    good: usize,
) {
    let least = if is_accepted(report, front, others, key, 0) {
        0
    } else {
        bound(report, front, others, key, good, 0)
    };
    let greatest = bound(report, front, others, key, good, TOO_MUCH);
    add_numbers(report, least as u64, greatest as u64);
}

fn add_numbers(report: &mut Report<'_>, least: u64, greatest: u64) {
    report.add(b": it has to be ");
    if least != greatest {
        report.add(b"from ");
        report.add_number(least);
        report.add(b" to ");
    }
    report.add_number(greatest);
}

/// Returns the last accepted number between an accepted and a rejected one.
fn bound(
    report: &mut Report<'_>,
    front: &Front<'_>,
    others: Others,
    key: &str,
    good: usize,
    bad: usize,
) -> usize {
    let mut good = good;
    let mut bad = bad;
    for _halving in 0..usize::BITS {
        let middle = usize::midpoint(good, bad);
        if middle == good || middle == bad {
            return good;
        }
        if is_accepted(report, front, others, key, middle) {
            good = middle;
        } else {
            bad = middle;
        }
    }
    good
}

fn is_accepted(
    report: &mut Report<'_>,
    front: &Front<'_>,
    others: Others,
    key: &str,
    number: usize,
) -> bool {
    let mut digits = Buffer::new();
    let digits = digits.format(number as u64);
    !report.has_fault_with(front, &others.with(key, digits))
}
