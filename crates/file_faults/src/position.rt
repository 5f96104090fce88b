//! Places at which a file is not text or not TOML.

use std::alloc::AllocError;
use text_words::{add_number, add_octets};
use toml::de::Error;

/// Adds the place at which a text stops being UTF-8, after `valid` bytes.
pub fn add_no_text(text: &mut Vec<u8>, octets: &[u8], valid: usize) -> Result<(), AllocError> {
    add_position(text, octets, valid)?;
    add_octets(text, b": it is not UTF-8")
}

/// Adds the place at which a text stops being TOML, and why. Refused memory has no place.
pub fn add_no_toml(text: &mut Vec<u8>, octets: &[u8], error: &Error) -> Result<(), AllocError> {
    let Some(span) = error.span() else {
        return Err(AllocError);
    };
    add_position(text, octets, span.start)?;
    add_octets(text, b": ")?;
    add_octets(text, error.message().as_bytes())
}

/// A line and a column in characters, both from 1.
#[derive(Clone, Copy)]
struct Position {
    line: u64,
    column: u64,
}

impl Position {
    fn behind(octets: &[u8]) -> Position {
        let mut line: u64 = 1;
        let mut column: u64 = 1;
        for octet in octets {
            if *octet == b'\n' {
                line = line.saturating_add(1);
                column = 1;
            } else if !is_inside(*octet) {
                column = column.saturating_add(1);
            }
        }
        Position { line, column }
    }
}

fn add_position(text: &mut Vec<u8>, octets: &[u8], at: usize) -> Result<(), AllocError> {
    let position = Position::behind(octets.get(..at).unwrap_or(octets));
    add_octets(text, b"line ")?;
    add_number(text, position.line)?;
    add_octets(text, b", column ")?;
    add_number(text, position.column)
}

/// Returns true if a byte continues a UTF-8 character.
fn is_inside(octet: u8) -> bool {
    octet & 0xC0 == 0x80
}
