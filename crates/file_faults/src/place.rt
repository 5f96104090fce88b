//! The place and the fault of a bad TOML file, in words. Lines, columns and elements count from 1.

use crate::key_place::add_key_place;
use crate::position::{add_no_text, add_no_toml};
use crate::refused::{Fault, Format, Refused, file_fault};
use crate::report::Report;
use crate::table_place::add_table_place;
use std::alloc::{AllocError, Global};
use std::str;

/// Adds the place and the first fault of a table file, or nothing if it has none.
///
/// On `Err` memory was refused and the text is invalid.
pub fn add_table_fault(alloc: Global, text: &mut Vec<u8>, octets: &[u8]) -> Result<(), AllocError> {
    add_file_fault(alloc, text, octets, Format::Table)
}

/// Adds the place and the first fault of a key file, or nothing if it has none.
///
/// On `Err` memory was refused and the text is invalid.
pub fn add_keys_fault(alloc: Global, text: &mut Vec<u8>, octets: &[u8]) -> Result<(), AllocError> {
    add_file_fault(alloc, text, octets, Format::Keys)
}

fn add_file_fault(
    alloc: Global,
    text: &mut Vec<u8>,
    octets: &[u8],
    format: Format,
) -> Result<(), AllocError> {
    let file = match str::from_utf8(octets) {
        Ok(file) => file,
        Err(error) => return add_no_text(text, octets, error.valid_up_to()),
    };
    let Some(fault) = file_fault(alloc, file, format)? else {
        return Ok(());
    };
    match toml::table_from_str(alloc, file) {
        Ok(document) => {
            let document = &document;
            add_place(
                text,
                &Refused {
                    alloc,
                    document,
                    format,
                    fault,
                },
            )
        }
        Err(error) => add_no_toml(text, octets, &error),
    }
}

fn add_place(text: &mut Vec<u8>, refused: &Refused<'_>) -> Result<(), AllocError> {
    let mut report = Report::of(refused);
    match refused.fault {
        Fault::Table(fault) => add_table_place(&mut report, fault),
        Fault::Keys(fault) => add_key_place(&mut report, fault),
    }
    text.extend_from_slice(&report.end()?)
}
