//! The place and the fault of a bad subscriptions file, in words.

use crate::position::add_no_text;
use gatt_subs::{Rows, RowsFault};
use std::alloc::{AllocError, Global};
use std::str;
use text_words::add_octets;

/// Adds the place and the first fault of a subscriptions file, if it has one.
///
/// Lines and columns count from 1. On `Err` memory was refused and the text is invalid.
pub fn add_rows_fault(alloc: Global, text: &mut Vec<u8>, octets: &[u8]) -> Result<(), AllocError> {
    let file = match str::from_utf8(octets) {
        Ok(file) => file,
        Err(error) => return add_no_text(text, octets, error.valid_up_to()),
    };
    match rows_fault(alloc, file)? {
        Some(fault) => add_words(alloc, text, fault),
        None => Ok(()),
    }
}

fn add_words(alloc: Global, text: &mut Vec<u8>, fault: RowsFault) -> Result<(), AllocError> {
    add_octets(text, format!(in alloc; "{fault}")?.as_bytes())
}

fn rows_fault(alloc: Global, file: &str) -> Result<Option<RowsFault>, AllocError> {
    match Rows::read(alloc, file) {
        Ok(_) => Ok(None),
        Err(RowsFault::OutOfMemory) => Err(AllocError),
        Err(fault) => Ok(Some(fault)),
    }
}
