//! The place and the fault of a bad key file, in words.

use crate::front::{Front, Kept, Level};
use crate::report::Report;
use crate::wrong_key::{Others, add_name, add_range, add_said, add_wrong_key};
use le_security::KeyFault;
use toml::Table;

/// The required keys of an entry, in the order in which the reader misses them.
const WANTED: [&str; 7] = [
    "address",
    "kind",
    "rand",
    "ediv",
    "ltk",
    "size",
    "authenticated",
];

/// Adds the place of a document's first fault, and the fault.
pub fn add_key_place(report: &mut Report<'_>, fault: KeyFault) {
    let front = front_of(report, fault);
    report.add_counted(b"key ", front.elements);
    add_fault(report, &front, fault);
}

/// Returns the front whose last entry is at fault.
fn front_of(report: &mut Report<'_>, fault: KeyFault) -> Front<'static> {
    let is_between_entries = matches!(fault, KeyFault::Twice | KeyFault::TooMany);
    if !is_between_entries && let Some(front) = report.first_alone("key") {
        return front;
    }
    report.shortest("key", &[Level::Elements])
}

fn add_fault(report: &mut Report<'_>, front: &Front<'_>, fault: KeyFault) {
    match fault {
        KeyFault::Shape => add_wrong_key(report, front),
        KeyFault::Missing => add_missing(report, front),
        KeyFault::BadAddress => add_bad_address(report, front),
        KeyFault::BadHex => add_bad_hex(report, front),
        KeyFault::BadSize => add_bad_size(report, front),
        KeyFault::NotToml
        | KeyFault::Twice
        | KeyFault::TooMany
        | KeyFault::OutOfMemory
        | KeyFault::NotZero => report.add_words(),
    }
}

fn add_missing(report: &mut Report<'_>, front: &Front<'_>) {
    let mut kept = report.document(front);
    if let Some(entry) = front.last_element(&mut kept) {
        add_name(report, front, missing(entry));
    }
    drop(kept);
    report.add(b": the key is missing");
}

fn missing(table: &Table) -> &'static str {
    for key in &WANTED {
        if table.get(*key).is_none() {
            return key;
        }
    }
    ""
}

fn add_bad_address(report: &mut Report<'_>, front: &Front<'_>) {
    if stays_with(report, front, "kind", "\"public\"") {
        let said = b": it is not six pairs of hexadecimal digits joined by colons";
        add_said(report, front, "address", said);
    } else {
        add_said(report, front, "kind", b": it is neither public nor random");
    }
}

fn add_bad_hex(report: &mut Report<'_>, front: &Front<'_>) {
    // If both are wrong, `rand` is the first fault.
    let good = "\"00000000000000000000000000000000\"";
    if stays_with(report, front, "ltk", good) {
        add_said(report, front, "rand", b": it is not 16 hexadecimal digits");
    } else {
        add_said(report, front, "ltk", b": it is not 32 hexadecimal digits");
    }
}

fn add_bad_size(report: &mut Report<'_>, front: &Front<'_>) {
    add_name(report, front, "size");
    add_range(report, front, Others::Kept, "size", 16);
}

/// Returns true if the fault remains with a good text at a key.
fn stays_with(report: &mut Report<'_>, front: &Front<'_>, key: &str, good: &str) -> bool {
    report.has_fault_with(front, &Kept::With(key, good, &[]))
}
