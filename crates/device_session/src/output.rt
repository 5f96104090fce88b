//! Output to the application, and the log of it.

ghost use Rattle.std.specs.Prelude.{◌≡◌, [], false, map, true, Some};
ghost use Rattle.std.specs.Option.{option_map};
ghost use Rattle.std.specs.Result.{result_ok};
ghost use Rattle.app_lines.specs.Told.{told_line};
ghost use Rattle.device_session.specs.Asking.{stays_open};
ghost use Rattle.device_session.specs.Application.{IsAttended, IsFlushed};
ghost use Rattle.device_session.specs.Seats.{after_welcome, has_read_all, is_there};
ghost use Rattle.device_session.specs.declared.pending.Subject.TheVariants.{Value};
ghost use Rattle.device_session.specs.Telling.{part as text_part, AreLinesTold, AreNoted, AreOthersTold, AreSent, IsAnswer, IsLast, IsNoted, IsPut, IsSavedTold, IsUnsavedTold, IsOwnAnswer, IsSaid, IsSaidOrEnded, IsTold, IsVisitorAnswer};
ghost use Rattle.device_session.specs.Waits.{enters, IsAcceptance, IsLastIf, IsRead};

use crate::acceptance::Acceptance;
use crate::application::Application;
use crate::asking::Closing;
use crate::heard::{Change, Heard};
use crate::missed::Missed;
use crate::pending::{Pending, PendingLine, Subject};
use crate::seats::{Outcome, Seats};
use app_lines::{Told, add_told};
use device_io::{Log, Poller};
use std::alloc::{AllocError, Global};
use std::str;
use std::time::Clock;

/// Answers the application or its visitor, and then closes its connection if it must.
pub(crate) fn reply<R: Clock + Eprint>(
    application: &mut Application,
    seats: &mut Seats,
    log: &Log<'_, R>,
    closing: Closing,
    text: Result<Vec<u8>, AllocError>,
)
    // The answer to a visitor goes to the visitor, and one to the application to nobody else.
    ensures { IsAnswer (option_map (λ text. text.items) (result_ok text)) (stays_open closing)
        seats.old seats.new }
{
    if seats.is_visited() {
        reply_to_visitor(application, seats, log, closing, text);
    } else {
        reply_to_application(application, seats, log, closing, text);
    }
    application.close(seats);
}

#[tactic(auto, using(crate::proofs::Replies::last_said))]
fn reply_to_application<R: Clock + Eprint>(
    application: &mut Application,
    seats: &mut Seats,
    log: &Log<'_, R>,
    closing: Closing,
    text: Result<Vec<u8>, AllocError>,
)
    ensures { IsOwnAnswer (option_map (λ text. text.items) (result_ok text)) (stays_open closing)
        seats.old seats.new }
{
    let Ok(text) = text else {
        log.say("memory: refused for an answer");
        seats.end();
        return;
    };
    say(seats, log, text.as_slice());
    let why = match closing {
        Closing::No => return,
        Closing::LineTooLong => "application ended: its line is too long",
        Closing::FirstLineWrong => "application ended: its first line is no command",
    };
    application.flush(seats);
    seats.end();
    log.say(why);
}

fn reply_to_visitor<R: Clock + Eprint>(
    application: &mut Application,
    seats: &mut Seats,
    log: &Log<'_, R>,
    closing: Closing,
    text: Result<Vec<u8>, AllocError>,
)
    ensures { IsVisitorAnswer (option_map (λ text. text.items) (result_ok text))
        (stays_open closing) seats.old seats.new }
{
    match text {
        Ok(text) => application.answer_visitor(seats, text.as_slice()),
        Err(_) => {
            log.say("memory: refused for an answer");
            seats.answered(false);
        }
    }
    if closing != Closing::No {
        seats.answered(false);
    }
}

/// Sends a text. If memory was refused, logs that and ends the application.
fn say_or_end<R: Clock + Eprint>(
    seats: &mut Seats,
    log: &Log<'_, R>,
    text: Result<Vec<u8>, AllocError>,
    refused: &str,
)
    ensures { IsSaidOrEnded (option_map (λ text. text.items) (result_ok text))
        seats.old seats.new }
{
    match text {
        Ok(text) => say(seats, log, text.as_slice()),
        Err(_) => {
            log.say(refused);
            seats.end();
        }
    }
}

/// Sends a line, unless the application lacks the current state.
pub(crate) fn tell<R: Clock + Eprint>(
    alloc: Global,
    seats: &mut Seats,
    log: &Log<'_, R>,
    told: &Told<'_>,
)
    ensures { IsTold (Some (told_line told.now)) seats.old seats.new }
{
    let mut text = Vec::new(alloc);
    let text = match add_told(&mut text, told) {
        Ok(()) => Ok(text),
        Err(_) => Err(AllocError),
    };
    tell_text(seats, log, text);
}

/// Sends lines, unless the application lacks the current state. If memory was refused, logs that
/// and ends it.
pub(crate) fn tell_text<R: Clock + Eprint>(
    seats: &mut Seats,
    log: &Log<'_, R>,
    text: Result<Vec<u8>, AllocError>,
)
    ensures { IsTold (option_map (λ text. text.items) (result_ok text))
        seats.old seats.new }
{
    if !seats.is_new() {
        say_or_end(seats, log, text, "memory: refused for an application");
    }
}

/// Sends the lines about updates of visitors, if there are any.
pub(crate) fn tell_updates<R: Clock + Eprint>(seats: &mut Seats, log: &Log<'_, R>, lines: Vec<u8>)
    ensures { AreSent lines.items seats.old seats.new }
{
    if !lines.is_empty() {
        tell_text(seats, log, Ok(lines));
    }
}

/// Sends a new application the current state.
pub(crate) fn welcome<R: Clock + Eprint>(
    seats: &mut Seats,
    log: &Log<'_, R>,
    text: Result<Vec<u8>, AllocError>,
)
    ensures { IsSaidOrEnded (option_map (λ text. text.items) (result_ok text))
        (after_welcome seats.old) seats.new }
{
    seats.welcome();
    say_or_end(seats, log, text, "memory: refused for an application");
}

/// Sends the notices of a turn to the application and the log, and notes the values written.
///
/// If their changes are not saved, the lines about these changes wait in `pending`.
pub(crate) fn tell_heard<R: Clock + Eprint>(
    seats: &mut Seats,
    missed: &mut Missed,
    pending: &mut Pending,
    log: &Log<'_, R>,
    heard: &Heard,
    is_saved: bool,
)
    ensures saved { is_saved ≡ true → IsSavedTold heard.now.is_refused heard.now.text
        heard.now.changes heard.now.written seats.old missed.old
        seats.new missed.new }
    ensures unsaved { is_saved ≡ false → IsUnsavedTold heard.now.is_refused heard.now.text
        heard.now.changes seats.old pending.old.lines.items
        seats.new pending.new.lines.items }
    ensures written { is_saved ≡ false → AreNoted (map Value heard.now.written)
        seats.new missed.old missed.new }
    ensures pending { is_saved ≡ true → pending.new.lines.items ≡ pending.old.lines.items }
{
    if heard.is_refused {
        log.say("memory: refused for notices");
        seats.end();
    }
    if is_saved {
        tell_lines(seats, log, heard.text.as_slice());
        note_changes(seats, missed, log, heard.changes.as_slice());
    } else {
        tell_others(
            seats,
            pending,
            log,
            heard.text.as_slice(),
            heard.changes.as_slice(),
        );
    }
    note_written(seats, missed, log, heard.written.as_slice());
    log_lines(log, heard.log.as_slice());
}

/// Notes the changes that an application was notified of.
fn note_changes<R: Clock + Eprint>(
    seats: &Seats,
    missed: &mut Missed,
    log: &Log<'_, R>,
    changes: &[Change],
)
    ensures { AreNoted (map (λ change. change.subject) changes.now) seats.now
        missed.old missed.new }
{
    for change in changes {
        note_told(seats, missed, log, change.subject);
    }
}

/// Notes the values written whose changes are not saved.
fn note_written<R: Clock + Eprint>(
    seats: &Seats,
    missed: &mut Missed,
    log: &Log<'_, R>,
    written: &[u16],
)
    ensures { AreNoted (map Value written.now) seats.now missed.old missed.new }
{
    for attribute in written {
        note_told(seats, missed, log, Subject::Value(*attribute));
    }
}

/// Sends the lines that wait for no save, and stores the others.
fn tell_others<R: Clock + Eprint>(
    seats: &mut Seats,
    pending: &mut Pending,
    log: &Log<'_, R>,
    text: &[u8],
    changes: &[Change],
)
    ensures { AreOthersTold text.now 0 changes.now seats.old pending.old.lines.items
        seats.new pending.new.lines.items }
{
    let mut begin = 0;
    for change in changes {
        tell_lines(seats, log, part(text, begin, change.begin));
        begin = change.end;
        let line = part(text, change.begin, change.end);
        put(seats, pending, log, change.subject, line);
    }
    tell_lines(seats, log, part(text, begin, text.len()));
}

/// Stores a line until its change is saved.
fn put<R: Clock + Eprint>(
    seats: &mut Seats,
    pending: &mut Pending,
    log: &Log<'_, R>,
    subject: Subject,
    line: &[u8],
)
    ensures { IsPut subject line.now seats.old pending.old.lines.items
        seats.new pending.new.lines.items }
{
    if pending.add(subject, line).is_err() {
        log.say("memory: refused for notices");
        seats.end();
    }
}

fn part(text: &[u8], begin: usize, end: usize) -> &[u8]
    ensures { result.now ≡ text_part text.now begin end }
{
    text.get(begin..end).unwrap_or(&[])
}

/// Sends the lines whose changes are saved now, and notes the values written.
pub(crate) fn tell_pending<R: Clock + Eprint>(
    seats: &mut Seats,
    missed: &mut Missed,
    pending: &mut Pending,
    log: &Log<'_, R>,
)
    // Each line goes to the application once, in order.
    ensures told { AreLinesTold pending.old.lines.items seats.old missed.old
        seats.new missed.new }
    ensures pending { pending.new.lines.items ≡ [] }
{
    tell_each(seats, missed, log, pending.lines());
    pending.clear();
}

fn tell_each<R: Clock + Eprint>(
    seats: &mut Seats,
    missed: &mut Missed,
    log: &Log<'_, R>,
    lines: &[PendingLine],
)
    ensures { AreLinesTold lines.now seats.old missed.old seats.new missed.new }
{
    for line in lines {
        tell_lines(seats, log, line.text());
        note_told(seats, missed, log, line.subject());
    }
}

/// Sends lines, unless the application lacks the current state.
fn tell_lines<R: Clock + Eprint>(seats: &mut Seats, log: &Log<'_, R>, lines: &[u8])
    ensures { AreSent lines.now seats.old seats.new }
{
    if !seats.is_new() && !lines.is_empty() {
        say(seats, log, lines);
    }
}

/// Notes that a client wrote a value, and whether an application was notified.
fn note_told<R: Clock + Eprint>(
    seats: &Seats,
    missed: &mut Missed,
    log: &Log<'_, R>,
    subject: Subject,
)
    ensures { IsNoted subject seats.now missed.old missed.new }
{
    let Subject::Value(attribute) = subject else {
        return;
    };
    let noted = if seats.is_there() && !seats.is_new() {
        missed.tell(attribute)
    } else {
        missed.add(attribute)
    };
    if noted.is_err() {
        log.say("memory: refused for values that an application missed");
    }
}

/// Writes what the application accepts. Once it has disconnected, notes what it may have missed.
pub(crate) fn flush<R: Clock + Eprint>(
    application: &mut Application,
    seats: &mut Seats,
    missed: &mut Missed,
    log: &Log<'_, R>,
)
    ensures seats { IsFlushed seats.old seats.new }
    ensures missed { is_there seats.new ≡ true → missed.new ≡ missed.old }
    ensures ended { is_there seats.new ≡ false
        → IsLast (has_read_all seats.new) missed.old missed.new }
{
    application.flush(seats);
    application.close(seats);
    if !seats.is_there() {
        note_end(missed, seats.has_read_all(), log);
    }
}

/// Reads from the application and its visitor, and notifies an application that is replaced.
pub(crate) fn fill<R: Clock + Eprint>(
    alloc: Global,
    application: &mut Application,
    seats: &mut Seats,
    missed: &mut Missed,
    log: &Log<'_, R>,
    now: u64,
)
    ensures { IsRead now seats.old missed.old seats.new missed.new }
{
    attend(application, seats, missed, log, now);
    if seats.is_giving_place() {
        tell(alloc, seats, log, &Told::Replaced);
    }
    match application.fill(seats) {
        Outcome::Replaced => note_end(missed, false, log),
        Outcome::Gone => {
            log.say("application gone");
            note_end(missed, seats.has_read_all(), log);
        }
        Outcome::Nothing | Outcome::Reads(_) | Outcome::Comes => {}
    }
}

fn note_end<R: Clock + Eprint>(missed: &mut Missed, has_read_all: bool, log: &Log<'_, R>)
    ensures { IsLast has_read_all missed.old missed.new }
{
    if missed.end(has_read_all).is_err() {
        log.say("memory: refused for values that an application missed");
    }
}

fn say<R: Clock + Eprint>(seats: &mut Seats, log: &Log<'_, R>, text: &[u8])
    ensures { IsSaid text.now seats.old seats.new }
{
    match seats.tell(text) {
        Ok(true) => {}
        Ok(false) => log.say("application cut off: it does not read"),
        Err(_) => log.say("memory: refused for an application"),
    }
}

/// Logs lines.
pub(crate) fn log_lines<R: Clock + Eprint>(log: &Log<'_, R>, lines: &[u8]) {
    let Ok(text) = str::from_utf8(lines) else {
        return;
    };
    for line in text.split('\n') {
        if !line.is_empty() {
            log.say(line);
        }
    }
}

/// Serves the visitor, which may become the application.
fn attend<R: Clock + Eprint>(
    application: &mut Application,
    seats: &mut Seats,
    missed: &mut Missed,
    log: &Log<'_, R>,
    now: u64,
)
    ensures attended { IsAttended now seats.old seats.new }
    ensures missed { IsLastIf (enters seats.old now) (has_read_all seats.old)
        missed.old missed.new }
{
    let was_there = seats.is_there();
    let has_read_all = seats.has_read_all();
    if let Outcome::Comes = application.attend(seats, now) {
        if !was_there {
            note_end(missed, has_read_all, log);
        }
        log.say("application");
    }
}

/// Accepts the next visitor. Logs only the first failure.
pub(crate) fn accept<R: Clock + Eprint>(
    alloc: Global,
    application: &mut Application,
    seats: &mut Seats,
    acceptance: &mut Acceptance,
    poller: &Poller,
    log: &Log<'_, R>,
    now: u64,
)
    ensures { IsAcceptance now seats.old acceptance.old seats.new acceptance.new }
{
    match application.accept(seats, poller, now) {
        Ok(is_accepted) => acceptance.succeed(is_accepted),
        Err(error) => {
            if acceptance.fail(now)
                && let Ok(reason) = format!(in alloc; "{error}")
            {
                log.say_of("application: not accepted:", reason.as_str());
            }
        }
    }
}
