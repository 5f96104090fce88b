//! The lines of the application, and the calls of the host that they make.

ghost use Rattle.std.specs.Prelude.{◌≡◌, length, take, Err, IfErr, IfOk, Ok};
ghost use Rattle.std.specs.Option.{ok_or, option_map};
ghost use Rattle.app_lines.specs.Command.{command_of};
ghost use Rattle.app_lines.specs.Names.{handle_of as named_handle};
ghost use Rattle.host_api.specs.declared.app.AppFault.TheVariants.{NoSuchConnection};
ghost use Rattle.device_session.specs.Questions as questions;
ghost use Rattle.device_session.specs.Questions.{called, question_by, question_of, question_of_line, question_of_text};
ghost use Rattle.device_session.specs.Lines.{kind_of_line, kind_of_command, kind_of_text};

use app_lines::{Command, Names, WordFault, read_line, without_return, word_at};
use arrayvec::ArrayVec;
use host_api::{App, AppFault};
use std::str;
use text_words::Payload;

/// A line of the application that waits for its answer.
#[derive(Drop)]
pub enum Asked<'a> {
    Nothing,
    /// A command. A call of the host has already been made.
    Command(Command<'a>),
    Wrong { word: &'a str, fault: WordFault },
    /// A line that is not UTF-8.
    NoText,
    TooLong,
}

/// Returns what a line asks.
#[tactic(auto, unfolding(crate::specs::Questions::question_of_line))]
pub(crate) fn read_asked(line: &[u8]) -> Asked<'_>
    ensures { question_of result ≡ question_of_line line.now }
{
    read_octets(without_return(line))
}

fn read_octets(octets: &[u8]) -> Asked<'_>
    ensures { question_of result ≡ question_of_text octets.now }
{
    match str::from_utf8(octets) {
        Ok(text) => read_text(text),
        Err(_) => Asked::NoText,
    }
}

fn read_text(text: &str) -> Asked<'_>
    ensures { question_of result ≡ question_by text.now (command_of text.now) }
{
    match read_line(text) {
        Ok(command) => Asked::Command(command),
        Err(wrong) => Asked::Wrong {
            word: word_at(text, wrong.place),
            fault: wrong.fault,
        },
    }
}

/// The kind of a line.
#[derive(Clone, Copy)]
pub(crate) enum LineKind {
    /// It claims the place of the application.
    Claim,
    /// It calls the host.
    Call,
    /// Any other command.
    Question,
    /// It is no command.
    Wrong,
}

/// Returns the kind of a line.
#[tactic(auto, unfolding(crate::specs::Lines::kind_of_line))]
pub(crate) fn line_kind(line: &[u8]) -> LineKind
    ensures { result ≡ kind_of_line line.now }
{
    kind_of_octets(without_return(line))
}

fn kind_of_octets(octets: &[u8]) -> LineKind
    ensures { result ≡ kind_of_text octets.now }
{
    match str::from_utf8(octets) {
        Ok(text) => kind_of_text(text),
        Err(_) => LineKind::Wrong,
    }
}

fn kind_of_text(text: &str) -> LineKind
    ensures { result ≡ kind_of_command (command_of text.now) }
{
    match read_line(text) {
        Ok(Command::Application) => LineKind::Claim,
        Ok(
            Command::Update { .. }
            | Command::Allow { .. }
            | Command::Deny { .. }
            | Command::Disconnect { .. },
        ) => LineKind::Call,
        Ok(_) => LineKind::Question,
        Err(_) => LineKind::Wrong,
    }
}

/// Returns the call of the host that a command makes, if any. `time` is in milliseconds.
///
/// Puts a value into a prefix of `buffer`. Fails if no connection has the name.
pub(crate) fn call_of<'b>(
    command: &Command<'_>,
    names: &Names,
    time: u64,
    buffer: &'b mut [u8],
) -> Result<Option<App<'b>>, AppFault>
    ensures call { IfOk result (λ call. questions.call_of command.now names.now.named time
        (length buffer.old) ≡ Ok (option_map called call)) }
    ensures refused { IfErr result (λ fault. questions.call_of command.now names.now.named time
        (length buffer.old) ≡ Err fault) }
{
    Ok(Some(match command {
        Command::Update { handle, value } => App::Update(*handle, decode_into(value, buffer)),
        Command::Allow { name, lasting } => {
            App::Authorize(handle_of(names, *name)?, end_of(time, *lasting))
        }
        Command::Deny { name } => App::Authorize(handle_of(names, *name)?, 0),
        Command::Disconnect { name } => App::Disconnect(handle_of(names, *name)?),
        _ => return Ok(None),
    }))
}

fn handle_of(names: &Names, name: u64) -> Result<u16, AppFault>
    ensures { result ≡ ok_or (named_handle name names.now.named) NoSuchConnection }
{
    names.handle_of(name).ok_or(AppFault::NoSuchConnection)
}

fn end_of(time: u64, lasting: Option<u64>) -> u64
    ensures { result ≡ questions.end_of time lasting }
{
    match lasting {
        Some(lasting) => time.saturating_add(lasting),
        None => u64::MAX,
    }
}

/// Decodes a value into a buffer, as far as it fits, and returns the prefix used.
fn decode_into<'b>(value: &Payload<'_>, buffer: &'b mut [u8]) -> &'b [u8]
    ensures { result.now ≡ take (length buffer.old) value.now }
{
    let mut octets = ArrayVec::new();
    value.decode(&mut octets);
    let count = octets.len().min(buffer.len());
    buffer[..count].copy_from_slice(&octets.as_slice()[..count]);
    &buffer[..count]
}
