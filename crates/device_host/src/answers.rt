//! The answers to the lines of an application, and the changes of a turn.

ghost use Rattle.std.specs.Prelude.{◌≡◌, ◌⊎◌, ◌++◌, IfOk, OnOk, Some};
ghost use Rattle.std.specs.List.{flat_map};
ghost use Rattle.gatt_host.specs.Connections.{connections_in};
ghost use Rattle.app_lines.specs.Answers.{done};
ghost use Rattle.app_lines.specs.Told.{lines_of_connection};
ghost use Rattle.device_session.specs.Seats.{after_end, is_visitor};
ghost use Rattle.device_session.specs.Asking.{answer_in, IsAnswerKept};
ghost use Rattle.device_session.specs.Questions.{question_in, question_of};
ghost use Rattle.device_host.specs.Answers.{answer_of, answer_to, connection_named, subscriptions_answer, IsLineAnswered};
ghost use Rattle.device_host.specs.Silence.{IsSameOrEnded, SendsNothing};
ghost use Rattle.device_host.specs.Updates.{line_if_visited, updated_by, with_text, without_updated};

use crate::device::Device;
use crate::keeping::Keeping;
use crate::reload::begin_reload;
use crate::state_lines::{add_connections, add_subscriptions};
use crate::stopping::begin_stop;
use crate::turn_notices::Hearing;
use app_lines::{
    Command, Names, Reply, Told, add_handle_answer, add_outcome, add_reply, add_value_answer,
    add_wrong,
};
use device_session::{Asked, Session};
use gatt_host::{AppFault, Connection, Host};
use std::alloc::{AllocError, Global};
use std::fs::{File, Files};
use std::time::Clock;

/// Notes what an event changed, and prepares the answer to its line.
pub(crate) fn note_event<R: Files<File = File> + Clock + Eprint>(
    device: &mut Device<'_, R>,
    host: &Host,
    hearing: &mut Hearing,
)
    // Nothing is sent to the application before the save.
    ensures application { SendsNothing device.old.session.seats
        device.new.session.seats }
    // A line is answered by what the host then says, and `stop` later.
    ensures answer { IsLineAnswered
        (question_in device.old.session.asking.unanswered device.old.session.asking.line)
        (answer_of (question_in device.old.session.asking.unanswered
        device.old.session.asking.line) (answer_in device.old.session.asking.unanswered)
        hearing.old.heard.names.named host.now)
        device.old.session.asking
        device.new.session.asking }
    // A line about a change that waits for a save is dropped if an update has replaced that.
    ensures pending { device.new.session.pending.lines.items ≡ without_updated (updated_by
        (question_in device.old.session.asking.unanswered device.old.session.asking.line)
        (answer_in device.old.session.asking.unanswered))
        device.old.session.pending.lines.items }
{
    let session = &mut device.session;
    session.know(&hearing.heard);
    if let Some(keeping) = &mut device.keeping {
        note_changes(keeping, session, host, hearing);
    }
    match session.asked() {
        Asked::Nothing => {}
        Asked::Command(Command::Stop) => begin_stop(device),
        Asked::Command(Command::Reload) => begin_reload(device, host),
        _ => {
            note_update(session, host);
            answer_line(device.alloc, session, host);
        }
    }
}

fn note_changes<R: Clock + Eprint>(
    keeping: &mut Keeping,
    session: &Session<'_, R>,
    host: &Host,
    hearing: &mut Hearing,
) {
    if hearing.is_change {
        keeping.note_change();
        hearing.is_change = false;
    }
    if let Some(handle) = updated_handle(session) {
        keeping.note_update(host.table(), handle);
    }
}

/// Returns the handle of the value that the last line has updated, if any.
fn updated_handle<R>(session: &Session<'_, R>) -> Option<u16>
    ensures { result ≡ updated_by
        (question_in session.now.asking.unanswered session.now.asking.line)
        (answer_in session.now.asking.unanswered) }
{
    match session.asked() {
        Asked::Command(Command::Update { handle, .. }) if session.answer().is_ok() => Some(handle),
        _ => None,
    }
}

/// Notes a value that the last line has updated. The application is notified if it did not do so.
fn note_update<R: Clock + Eprint>(session: &mut Session<'_, R>, host: &Host)
    ensures application { IsSameOrEnded session.old.seats session.new.seats }
    ensures asking { session.new.asking ≡ session.old.asking }
    ensures names { session.new.names ≡ session.old.names }
    ensures pending { session.new.pending.lines.items ≡ without_updated (updated_by
        (question_in session.old.asking.unanswered session.old.asking.line)
        (answer_in session.old.asking.unanswered)) session.old.pending.lines.items }
    // The application is notified of an update of its visitor, unless memory was refused for it.
    ensures updated { (session.new.updated.items ≡ with_text (line_if_visited
        (is_visitor session.old.seats.askers.asker) (updated_by
        (question_in session.old.asking.unanswered session.old.asking.line)
        (answer_in session.old.asking.unanswered)) host.now) session.old.updated.items)
        ⊎ (session.new.seats ≡ after_end session.old.seats) }
{
    let Some(handle) = updated_handle(session) else {
        return;
    };
    session.note_update(handle);
    if session.is_visited()
        && let Some(value) = host.table().value_of(handle)
    {
        session.tell_later(&Told::Updated { handle, value });
    }
}

/// Stores the answer to the line that waits.
fn answer_line<R>(alloc: Global, session: &mut Session<'_, R>, host: &Host)
    ensures answer { IsAnswerKept (Some (answer_of
        (question_in session.old.asking.unanswered session.old.asking.line)
        (answer_in session.old.asking.unanswered)
        session.old.names.named host.now)) session.old.asking session.new.asking }
    ensures application { session.new.seats ≡ session.old.seats }
    ensures pending { session.new.pending ≡ session.old.pending }
{
    let text = answer_text(
        alloc,
        &session.asked(),
        session.answer(),
        session.names(),
        host,
    );
    session.answer_later(text);
}

#[tactic(auto, unfolding(app_lines::specs::Reply::reply_line))]
fn answer_text(
    alloc: Global,
    asked: &Asked<'_>,
    outcome: Result<(), AppFault>,
    names: &Names,
    host: &Host,
) -> Result<Vec<u8>, AllocError>
    ensures answer { IfOk result (λ text. text.items
        ≡ answer_of (question_of asked.now) outcome names.now.named host.now) }
{
    let mut text = Vec::new(alloc);
    match asked {
        Asked::Nothing => {}
        Asked::Command(command) => answer_command(&mut text, command, outcome, names, host)?,
        Asked::Wrong { word, fault } => add_wrong(&mut text, word, *fault)?,
        Asked::NoText => add_reply(&mut text, &Reply::Bad("the line is no text"))?,
        Asked::TooLong => add_reply(&mut text, &Reply::Bad("the line is too long"))?,
    }
    Ok(text)
}

/// Adds the answer to a command. A call of the host has already been made.
#[tactic(auto, unfolding(app_lines::specs::Reply::reply_line))]
fn answer_command(
    text: &mut Vec<u8>,
    command: &Command<'_>,
    outcome: Result<(), AppFault>,
    names: &Names,
    host: &Host,
) -> Result<(), AllocError>
    ensures ok { OnOk result (text.new.items
        ≡ text.old.items ++ answer_to command.now outcome names.now.named host.now) }
{
    match command {
        Command::Value { handle } => {
            add_value_answer(text, *handle, host.table().value_of(*handle))
        }
        Command::Connections => add_all_connections(text, names, host),
        Command::Subscriptions { name } => answer_subscriptions(text, *name, names, host),
        Command::Find {
            service,
            characteristic,
            number,
        } => add_handle_answer(text, host.table().find(*service, *characteristic, *number)),
        Command::Application | Command::Reload | Command::Stop => add_reply(text, &Reply::Done),
        _ => add_outcome(text, outcome),
    }
}

#[tactic(auto, unfolding(app_lines::specs::Reply::reply_line))]
fn add_all_connections(text: &mut Vec<u8>, names: &Names, host: &Host) -> Result<(), AllocError>
    ensures ok { OnOk result (text.new.items ≡ text.old.items
        ++ flat_map (lines_of_connection names.now.named) (connections_in host.now) ++ done) }
{
    add_connections(text, names, host)?;
    add_reply(text, &Reply::Done)
}

#[tactic(auto, unfolding(app_lines::specs::Reply::reply_line))]
fn answer_subscriptions(
    text: &mut Vec<u8>,
    name: u64,
    names: &Names,
    host: &Host,
) -> Result<(), AllocError>
    ensures ok { OnOk result (text.new.items ≡ text.old.items ++ subscriptions_answer
        (connection_named name names.now.named host.now) names.now.named host.now) }
{
    let Some(connection) = connection_named(name, names, host) else {
        return add_outcome(text, Err(AppFault::NoSuchConnection));
    };
    add_subscriptions(text, names, host, connection.handle)?;
    add_reply(text, &Reply::Done)
}

fn connection_named(name: u64, names: &Names, host: &Host) -> Option<Connection>
    ensures { result ≡ connection_named name names.now.named host.now }
{
    host.connection(names.handle_of(name)?)
}
