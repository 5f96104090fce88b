//! Faults of an expectations file, with their places.

ghost use Rattle.std.specs.Prelude.{◌≡◌};
ghost use Rattle.policy_expectations.specs.declared.fault.Stop.TheVariants.{Refused};

use std::alloc::AllocError;
use text_words::{add_number, add_octets};

/// The largest number of characters of a key that a text shows.
const LONGEST: usize = 60;

/// A kind of fault.
#[derive(Clone, Copy)]
pub(crate) enum Wrong {
    UnknownKey,
    MissingKey,
    NoText,
    NoInteger,
    NoBoolean,
    NoTable,
    NoTables,
    /// Neither a word nor a table.
    NoNeed,
    NoType,
    NoWord,
    BadNumber,
    BadKeySize,
    TooMany,
}

/// A fault of an expectations file.
#[derive(Clone, Copy)]
pub(crate) struct Fault<'a> {
    /// The place of the expectation from 1, or 0 for a key of the file.
    pub place: u16,
    /// The use whose table has the key.
    pub right: Option<&'static str>,
    pub key: Option<&'a str>,
    pub wrong: Wrong,
}

/// A reason for which a document gives no expectations.
pub(crate) enum Stop<'a> {
    Refused(Fault<'a>),
    Memory,
}

impl<'a> From<Fault<'a>> for Stop<'a> {
    ghost from_gives = { λ fault stop. stop ≡ Refused fault };

    fn from(fault: Fault<'a>) -> Self {
        Stop::Refused(fault)
    }
}

/// Adds the place of a fault and what is wrong.
pub(crate) fn add_fault(text: &mut Vec<u8>, fault: &Fault<'_>) -> Result<(), AllocError> {
    add_place(text, fault)?;
    add_octets(text, b": ")?;
    add_octets(text, wrong_words(fault.wrong).as_bytes())
}

fn add_place(text: &mut Vec<u8>, fault: &Fault<'_>) -> Result<(), AllocError> {
    if fault.place > 0 {
        add_octets(text, b"expectation ")?;
        add_number(text, u64::from(fault.place))?;
    }
    if let Some(right) = fault.right {
        add_octets(text, b", ")?;
        add_octets(text, right.as_bytes())?;
    }
    match fault.key {
        Some(key) => add_key(text, fault.place, key),
        None => Ok(()),
    }
}

fn add_key(text: &mut Vec<u8>, place: u16, key: &str) -> Result<(), AllocError> {
    if place > 0 {
        add_octets(text, b", ")?;
    }
    add_escaped(text, key)
}

/// Adds the first 60 characters of a key, and `..` if it has more.
///
/// Escapes all except printable ASCII, so that the text is one line.
fn add_escaped(text: &mut Vec<u8>, key: &str) -> Result<(), AllocError> {
    let mut left = LONGEST;
    for character in key.chars() {
        if left == 0 {
            return add_octets(text, b"..");
        }
        left -= 1;
        add_character(text, character)?;
    }
    Ok(())
}

fn add_character(text: &mut Vec<u8>, character: char) -> Result<(), AllocError> {
    for escaped in character.escape_default() {
        let mut octets = [0; 4];
        add_octets(text, escaped.encode_utf8(&mut octets).as_bytes())?;
    }
    Ok(())
}

fn wrong_words(wrong: Wrong) -> &'static str {
    match wrong {
        Wrong::UnknownKey => "there is no such key",
        Wrong::MissingKey => "the key is missing",
        Wrong::NoText => "it has to be a string",
        Wrong::NoInteger => "it has to be an integer",
        Wrong::NoBoolean => "it has to be a boolean",
        Wrong::NoTable => "it has to be a table",
        Wrong::NoTables => "it has to be an array of tables",
        Wrong::NoNeed => "it has to be a string or a table",
        Wrong::NoType => "it is neither four hexadecimal digits nor a UUID",
        Wrong::NoWord => {
            "it is none of everybody, encrypted, authenticated, secure, authorized, nobody"
        }
        Wrong::BadNumber => "it has to be from 1 to 1024",
        Wrong::BadKeySize => "it has to be from 7 to 16",
        Wrong::TooMany => "there are more than 1,024",
    }
}
