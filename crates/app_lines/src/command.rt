//! Commands of the application.

ghost use Rattle.std.specs.Prelude.{◌≡◌};
ghost use Rattle.app_lines.specs.Command.{allow_of, command_of, count_at, fault_by_count, find_of};
ghost use Rattle.app_lines.specs.Command.{four_words, handle_at, most_words, name_at, one_word};
ghost use Rattle.app_lines.specs.Command.{three_words, two_words, type_at, update_of, without_return};

use crate::wrong::{WordFault, WrongWord};
use att_table::read_type;
use text_words::{Payload, first_word, read_u16, read_u64};

/// A command of the application.
#[derive(Drop)]
pub enum Command<'a> {
    /// Update the value at a handle.
    Update {
        handle: u16,
        value: Payload<'a>,
    },
    /// Authorize the connection with a name, for a time in milliseconds or without limit.
    Allow {
        name: u64,
        lasting: Option<u64>,
    },
    /// Revoke the authorization of a connection.
    Deny {
        name: u64,
    },
    /// Disconnect.
    Disconnect {
        name: u64,
    },
    /// Return the value at a handle.
    Value {
        handle: u16,
    },
    /// List the connections.
    Connections,
    /// List the subscriptions of a connection.
    Subscriptions {
        name: u64,
    },
    /// Find the handle of a characteristic value, by service type, characteristic type, and number
    /// among several, from 1.
    Find {
        service: u128,
        characteristic: u128,
        number: u16,
    },
    /// Become the application at once.
    Application,
    /// Read the key file again.
    Reload,
    /// Stop the device.
    Stop,
}

/// Reads a line, or returns its first wrong word.
#[tactic(auto, unfolding(crate::specs::Command::command_of))]
pub fn read_line(line: &str) -> Result<Command<'_>, WrongWord>
    // A line means what its words say, or is refused by its wrong word.
    ensures { result ≡ command_of line.now }
{
    let Some((first, rest)) = first_word(line) else {
        return read_one(line);
    };
    let Some((second, rest)) = first_word(rest) else {
        return read_two(first, rest);
    };
    let Some((third, rest)) = first_word(rest) else {
        return read_three(first, second, rest);
    };
    match first_word(rest) {
        None => read_four(first, second, third, rest),
        Some(_) => Err(count_fault(first, 5)),
    }
}

/// Returns a line without its final carriage return.
pub fn without_return(line: &[u8]) -> &[u8]
    ensures { result.now ≡ without_return line.now }
{
    let end = line.len().saturating_sub(1);
    if end < line.len() && line[end] == b'\r' {
        &line[..end]
    } else {
        line
    }
}

#[tactic(auto, unfolding(crate::specs::Command::one_word))]
fn read_one(first: &str) -> Result<Command<'_>, WrongWord>
    ensures { result ≡ one_word first.now }
{
    match first {
        "connections" => Ok(Command::Connections),
        "application" => Ok(Command::Application),
        "reload" => Ok(Command::Reload),
        "stop" => Ok(Command::Stop),
        _ => Err(count_fault(first, 1)),
    }
}

#[tactic(auto, unfolding(crate::specs::Command::two_words))]
fn read_two<'a>(first: &str, second: &'a str) -> Result<Command<'a>, WrongWord>
    ensures { result ≡ two_words first.now second.now }
{
    match first {
        "allow" => match name_at(1, second) {
            Ok(name) => Ok(Command::Allow {
                name,
                lasting: None,
            }),
            Err(wrong) => Err(wrong),
        },
        "deny" => match name_at(1, second) {
            Ok(name) => Ok(Command::Deny { name }),
            Err(wrong) => Err(wrong),
        },
        "disconnect" => match name_at(1, second) {
            Ok(name) => Ok(Command::Disconnect { name }),
            Err(wrong) => Err(wrong),
        },
        "value" => match handle_at(1, second) {
            Ok(handle) => Ok(Command::Value { handle }),
            Err(wrong) => Err(wrong),
        },
        "subscriptions" => match name_at(1, second) {
            Ok(name) => Ok(Command::Subscriptions { name }),
            Err(wrong) => Err(wrong),
        },
        _ => Err(count_fault(first, 2)),
    }
}

#[tactic(auto, unfolding(crate::specs::Command::three_words))]
fn read_three<'a>(first: &str, second: &str, third: &'a str) -> Result<Command<'a>, WrongWord>
    ensures { result ≡ three_words first.now second.now third.now }
{
    match first {
        "update" => read_update(second, third),
        "allow" => read_allow(second, third),
        "find" => read_find(second, third, 1),
        _ => Err(count_fault(first, 3)),
    }
}

#[tactic(auto, unfolding(crate::specs::Command::four_words))]
fn read_four<'a>(
    first: &str,
    second: &str,
    third: &'a str,
    fourth: &str,
) -> Result<Command<'a>, WrongWord>
    ensures { result ≡ four_words first.now second.now third.now fourth.now }
{
    match first {
        "find" => match count_at(3, fourth) {
            Ok(number) => read_find(second, third, number),
            Err(wrong) => Err(wrong),
        },
        _ => Err(count_fault(first, 4)),
    }
}

fn read_update<'a>(handle: &str, value: &'a str) -> Result<Command<'a>, WrongWord>
    ensures { result ≡ update_of handle.now value.now }
{
    match handle_at(1, handle) {
        Ok(handle) => match Payload::read(value) {
            Some(value) => Ok(Command::Update { handle, value }),
            None => Err(wrong(WordFault::NoValue, 2)),
        },
        Err(wrong) => Err(wrong),
    }
}

fn read_allow<'a>(name: &str, time: &'a str) -> Result<Command<'a>, WrongWord>
    ensures { result ≡ allow_of name.now time.now }
{
    match name_at(1, name) {
        Ok(name) => match read_u64(time) {
            Some(lasting) => Ok(Command::Allow {
                name,
                lasting: Some(lasting),
            }),
            None => Err(wrong(WordFault::NoTime, 2)),
        },
        Err(wrong) => Err(wrong),
    }
}

fn read_find<'a>(
    service: &str,
    characteristic: &'a str,
    number: u16,
) -> Result<Command<'a>, WrongWord>
    ensures { result ≡ find_of service.now characteristic.now number }
{
    match type_at(1, service) {
        Ok(service) => match type_at(2, characteristic) {
            Ok(characteristic) => Ok(Command::Find {
                service,
                characteristic,
                number,
            }),
            Err(wrong) => Err(wrong),
        },
        Err(wrong) => Err(wrong),
    }
}

fn name_at(place: usize, word: &str) -> Result<u64, WrongWord>
    ensures { result ≡ name_at place word.now }
{
    match read_u64(word) {
        Some(name) => Ok(name),
        None => Err(wrong(WordFault::NoConnection, place)),
    }
}

fn handle_at(place: usize, word: &str) -> Result<u16, WrongWord>
    ensures { result ≡ handle_at place word.now }
{
    match read_u16(word) {
        Some(handle) => Ok(handle),
        None => Err(wrong(WordFault::NoHandle, place)),
    }
}

fn type_at(place: usize, word: &str) -> Result<u128, WrongWord>
    ensures { result ≡ type_at place word.now }
{
    match read_type(word) {
        Some(kind) => Ok(kind),
        None => Err(wrong(WordFault::NoType, place)),
    }
}

fn count_at(place: usize, word: &str) -> Result<u16, WrongWord>
    ensures { result ≡ count_at place word.now }
{
    match read_u16(word) {
        Some(0) | None => Err(wrong(WordFault::NoNumber, place)),
        Some(number) => Ok(number),
    }
}

fn count_fault(first: &str, count: usize) -> WrongWord
    ensures { result ≡ fault_by_count (most_words first.now) count }
{
    match most_words(first) {
        None => wrong(WordFault::NoCommand, 0),
        Some(most) if most < count => wrong(WordFault::TooMany, most),
        Some(_) => wrong(WordFault::TooFew, 0),
    }
}

/// Returns the maximum number of a command's words, including its own.
#[tactic(auto, unfolding(crate::specs::Command::most_words))]
fn most_words(first: &str) -> Option<usize>
    ensures { result ≡ most_words first.now }
{
    match first {
        "update" => Some(3),
        "allow" => Some(3),
        "deny" => Some(2),
        "disconnect" => Some(2),
        "value" => Some(2),
        "connections" => Some(1),
        "subscriptions" => Some(2),
        "find" => Some(4),
        "application" => Some(1),
        "reload" => Some(1),
        "stop" => Some(1),
        _ => None,
    }
}

fn wrong(fault: WordFault, place: usize) -> WrongWord
    ensures fault { result.fault ≡ fault }
    ensures place { result.place ≡ place }
{
    WrongWord { fault, place }
}
