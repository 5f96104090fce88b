//! Faults of a line.

ghost use Rattle.std.specs.Prelude.{◌≡◌, ◌++◌, [], get_or, map, OnOk};
ghost use Rattle.text_words.specs.Split.{words_of};
ghost use Rattle.app_lines.specs.Wrong.{printable, quoted, words_of_fault, wrong_line};

use std::alloc::AllocError;
use text_words::first_word;

/// WordFault of a word.
#[derive(Clone, Copy)]
pub enum WordFault {
    /// Not a command.
    NoCommand,
    /// Not an attribute handle.
    NoHandle,
    /// Not a connection name.
    NoConnection,
    /// Not a hexadecimal value.
    NoValue,
    /// Not a time in milliseconds.
    NoTime,
    /// Not a UUID.
    NoType,
    /// Not a number from 1.
    NoNumber,
    /// A word is missing.
    TooFew,
    /// A word too many.
    TooMany,
}

/// The first wrong word of a line.
#[derive(Clone, Copy)]
pub struct WrongWord {
    pub fault: WordFault,
    /// Index of the word, from 0.
    pub place: usize,
}

/// Maximum bytes quoted of a word.
pub const MOST_QUOTED: usize = 32;

/// Appends the line that reports a wrong word.
#[tactic(auto, unfolding(crate::specs::Wrong::wrong_line))]
pub fn add_wrong(text: &mut Vec<u8>, word: &str, fault: WordFault) -> Result<(), AllocError>
    ensures ok { OnOk result (text.new.items ≡ text.old.items ++ wrong_line word.now fault) }
{
    text.extend_from_slice(b"bad: \"")?;
    add_quoted(text, word.as_bytes())?;
    text.extend_from_slice(b"\" ")?;
    text.extend_from_slice(words_of(fault).as_bytes())?;
    text.extend_from_slice(b"\n")
}

fn add_quoted(text: &mut Vec<u8>, word: &[u8]) -> Result<(), AllocError>
    ensures ok { OnOk result (text.new.items ≡ text.old.items ++ quoted word.now) }
{
    if word.len() <= MOST_QUOTED {
        add_printable(text, word)
    } else {
        add_printable(text, word.split_at(MOST_QUOTED).0)
    }
}

/// Appends bytes, with a question mark for each that is not printable ASCII.
fn add_printable(text: &mut Vec<u8>, octets: &[u8]) -> Result<(), AllocError>
    ensures ok { OnOk result (text.new.items ≡ text.old.items ++ map printable octets.now) }
{
    for octet in octets {
        text.push(printable(*octet))?;
    }
    Ok(())
}

fn printable(octet: u8) -> u8
    ensures { result ≡ printable octet }
{
    if (32..=126).contains(&octet) {
        octet
    } else {
        b'?'
    }
}

fn words_of(fault: WordFault) -> &'static str
    ensures { result.now ≡ words_of_fault fault }
{
    match fault {
        WordFault::NoCommand => "is no command",
        WordFault::NoHandle => "is no handle",
        WordFault::NoConnection => "is no connection",
        WordFault::NoValue => "is no value",
        WordFault::NoTime => "is no time",
        WordFault::NoType => "is no UUID",
        WordFault::NoNumber => "is no number from 1 on",
        WordFault::TooFew => "needs more words",
        WordFault::TooMany => "is a word too many",
    }
}

/// Returns the word at an index from 0, or an empty word.
pub fn word_at(line: &str, place: usize) -> &str
    ensures { result.now ≡ get_or (words_of line.now) place [] }
{
    let mut rest = line;
    for _index in 0..place {
        match first_word(rest) {
            Some((_, others)) => rest = others,
            None => return "",
        }
    }
    match first_word(rest) {
        Some((word, _)) => word,
        None => rest,
    }
}
