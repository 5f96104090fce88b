//! The answers and notices of a turn, once its changes are saved or known to be unsaved.

ghost use Rattle.std.specs.Prelude.{◌≡◌, true, IfOk, List};
ghost use Rattle.std.specs.List.{flat_map};
ghost use Rattle.octet_io.specs.Number.{Octets};
ghost use Rattle.gatt_laws.specs.machine.Controller.{is_ready};
ghost use Rattle.gatt_host.specs.Connections.{connections_in};
ghost use Rattle.device_session.specs.Notices.{is_nothing};
ghost use Rattle.device_session.specs.Telling.{is_initialised_first};
ghost use Rattle.device_io.specs.Controller.{is_served_initialised};
ghost use Rattle.device_host.specs.Answers.{lines_if_secured, state_lines};
ghost use Rattle.device_host.specs.Order.{AreHeard, AreMissedTold, AreSubscriptionsTold, IsNewsTold, IsRelease, IsTurnTold, IsWelcomed, failure_of, is_saved};

use crate::device::Device;
use crate::state_lines::{add_secured, add_state};
use crate::turn_notices::Hearing;
use app_lines::{Names, Told};
use arrayvec::ArrayVec;
use att_numbers::limit::MAX_ATTRIBUTES;
use device_loop::Saving;
use device_session::{Heard, Keyless, Session};
use gatt_host::{Host, MAX_SLOTS};
use std::alloc::{AllocError, Global};
use std::time::Clock;

const MOST_MISSED: usize = MAX_ATTRIBUTES;

/// Answers, notifies and logs, after the changes of a turn were saved or could not be.
pub(crate) fn tell<R: Clock + Eprint>(
    device: &mut Device<'_, R>,
    host: &Host,
    hearing: &mut Hearing,
    saving: &Saving,
)
    ensures history { device.new.history ≡ device.old.history }
    ensures heard { hearing.new.received ≡ hearing.old.received }
    // No notice is sent twice.
    ensures once { is_nothing hearing.new.heard ≡ true }
    // News, lines that waited, answers, notices, the state and missed values go in this order.
    ensures order { IsTurnTold (is_saved saving.now)
        (is_initialised_first (is_ready host.now.server.controller)
        device.old.session.controller.controller)
        (is_served_initialised device.new.session.controller.controller) device.old.started
        device.old.keeping
        hearing.old.heard device.old.session.names.named host.now
        (record {
          seats = device.old.session.seats;
          missed = device.old.session.missed;
          pending = device.old.session.pending.lines.items;
          asking = device.old.session.asking;
          updated = device.old.session.updated.items;
        })
        (record {
          seats = device.new.session.seats;
          missed = device.new.session.missed;
          pending = device.new.session.pending.lines.items;
          asking = device.new.session.asking;
          updated = device.new.session.updated.items;
        }) }
{
    let is_saved = matches!(saving, Saving::Saved);
    tell_state_of_saving(device, host);
    tell_pending(&mut device.session, is_saved);
    device.session.reply();
    tell_heard(device, host, hearing, is_saved);
    welcome(device, host);
    tell_missed(&mut device.session, host);
    look_for_strangers(&mut device.session, host);
    device.session.flush();
}

/// Tells that the controller is initialised, and that saving begins to fail or succeeds again.
fn tell_state_of_saving<R: Clock + Eprint>(device: &mut Device<'_, R>, host: &Host)
    ensures history { device.new.history ≡ device.old.history }
    ensures news { IsNewsTold
        (is_initialised_first (is_ready host.now.server.controller)
        device.old.session.controller.controller)
        device.old.keeping device.old.session.seats device.new.session.seats }
    ensures failure { failure_of device.new.keeping ≡ failure_of device.old.keeping }
    ensures missed { device.new.session.missed ≡ device.old.session.missed }
    ensures pending { device.new.session.pending ≡ device.old.session.pending }
    ensures updated { device.new.session.updated ≡ device.old.session.updated }
    ensures names { device.new.session.names ≡ device.old.session.names }
    ensures asking { device.new.session.asking ≡ device.old.session.asking }
    ensures started { device.new.started ≡ device.old.started }
{
    device.session.tell_controller(host.is_initialised());
    if let Some(keeping) = &mut device.keeping {
        keeping.tell_news(&mut device.session);
    }
}

/// Sends the lines that waited for a save, if it has succeeded.
fn tell_pending<R: Clock + Eprint>(session: &mut Session<'_, R>, is_saved: bool)
    ensures released { IsRelease is_saved session.old.pending.lines.items
        session.old.seats session.old.missed session.new.seats session.new.missed
        session.new.pending.lines.items }
    ensures updated { session.new.updated ≡ session.old.updated }
    ensures names { session.new.names ≡ session.old.names }
    ensures asking { session.new.asking ≡ session.old.asking }
{
    if is_saved {
        session.tell_pending();
    }
}

/// Sends the notices of a turn, and forgets them.
fn tell_heard<R: Clock + Eprint>(
    device: &mut Device<'_, R>,
    host: &Host,
    hearing: &mut Hearing,
    is_saved: bool,
)
    ensures history { device.new.history ≡ device.old.history }
    ensures heard { hearing.new.received ≡ hearing.old.received }
    ensures once { is_nothing hearing.new.heard ≡ true }
    ensures notices { AreHeard is_saved hearing.old.heard device.old.session.names.named host.now
        device.old.session.seats device.old.session.missed
        device.old.session.pending.lines.items device.new.session.seats
        device.new.session.missed device.new.session.pending.lines.items }
    ensures keeping { device.new.keeping ≡ device.old.keeping }
    ensures updated { device.new.session.updated ≡ device.old.session.updated }
    ensures names { device.new.session.names ≡ device.old.session.names }
    ensures asking { device.new.session.asking ≡ device.old.session.asking }
    ensures started { device.new.started ≡ device.old.started }
{
    if hearing.heard.is_nothing() {
        return;
    }
    device.session.tell_heard(&hearing.heard, is_saved);
    tell_subscriptions(device.alloc, &mut device.session, host, &hearing.heard);
    hearing.heard.clear();
}

fn tell_subscriptions<R: Clock + Eprint>(
    alloc: Global,
    session: &mut Session<'_, R>,
    host: &Host,
    heard: &Heard,
)
    ensures subscriptions { AreSubscriptionsTold heard.now.secured session.old.names.named host.now
        session.old.seats session.new.seats }
    ensures missed { session.new.missed ≡ session.old.missed }
    ensures pending { session.new.pending ≡ session.old.pending }
    ensures updated { session.new.updated ≡ session.old.updated }
    ensures names { session.new.names ≡ session.old.names }
    ensures asking { session.new.asking ≡ session.old.asking }
{
    if !heard.secured().is_empty() {
        let text = secured_text(alloc, session.names(), host, heard);
        session.tell_lines(text);
    }
}

fn secured_text(
    alloc: Global,
    names: &Names,
    host: &Host,
    heard: &Heard,
) -> Result<Vec<u8>, AllocError>
    ensures { IfOk result (λ text. text.items ≡ flat_map
        (lines_if_secured heard.now.secured names.now.named host.now)
        (connections_in host.now)) }
{
    let mut text = Vec::new(alloc);
    add_secured(&mut text, names, host, heard.secured())?;
    Ok(text)
}

/// Sends a new application the current state, and what is not saved.
fn welcome<R: Clock + Eprint>(device: &mut Device<'_, R>, host: &Host)
    ensures history { device.new.history ≡ device.old.history }
    ensures state { IsWelcomed device.old.started
        (is_served_initialised device.old.session.controller.controller)
        device.old.session.names.named host.now (failure_of device.old.keeping)
        device.old.session.seats device.new.session.seats }
    ensures missed { device.new.session.missed ≡ device.old.session.missed }
    ensures pending { device.new.session.pending ≡ device.old.session.pending }
    ensures updated { device.new.session.updated ≡ device.old.session.updated }
    ensures names { device.new.session.names ≡ device.old.session.names }
    ensures asking { device.new.session.asking ≡ device.old.session.asking }
    ensures controller { device.new.session.controller ≡ device.old.session.controller }
{
    let session = &mut device.session;
    if session.has_new_application() {
        let text = state_text(device.alloc, device.started, session, host);
        session.welcome(text);
        if let Some(keeping) = &device.keeping {
            keeping.tell_failure(session);
        }
    }
}

fn state_text<R>(
    alloc: Global,
    started: u64,
    session: &Session<'_, R>,
    host: &Host,
) -> Result<Vec<u8>, AllocError>
    ensures state { IfOk result (λ text. text.items ≡ state_lines started
        (is_served_initialised session.now.controller.controller) session.now.names.named
        host.now) }
{
    let mut text = Vec::new(alloc);
    add_state(
        &mut text,
        started,
        session.is_serving(),
        session.names(),
        host,
    )?;
    Ok(text)
}

/// Sends the application the values that it missed, as far as it accepts lines.
fn tell_missed<R: Clock + Eprint>(session: &mut Session<'_, R>, host: &Host)
    ensures missed { (lines : List Octets)
        × AreMissedTold host.now lines session.old.seats session.new.seats }
    ensures pending { session.new.pending ≡ session.old.pending }
    ensures updated { session.new.updated ≡ session.old.updated }
    ensures names { session.new.names ≡ session.old.names }
    ensures asking { session.new.asking ≡ session.old.asking }
    ensures controller { session.new.controller ≡ session.old.controller }
{
    for _handle in 0..MOST_MISSED {
        if !tell_next_missed(session, host) {
            return;
        }
    }
}

/// Sends the application the next value that it missed. Returns false if there is none, or if it
/// accepts no line now.
fn tell_next_missed<R: Clock + Eprint>(session: &mut Session<'_, R>, host: &Host) -> bool
    ensures missed { (lines : List Octets)
        × AreMissedTold host.now lines session.old.seats session.new.seats }
    ensures pending { session.new.pending ≡ session.old.pending }
    ensures updated { session.new.updated ≡ session.old.updated }
    ensures names { session.new.names ≡ session.old.names }
    ensures asking { session.new.asking ≡ session.old.asking }
    ensures controller { session.new.controller ≡ session.old.controller }
{
    let handle = match session.next_missed() {
        Ok(Some(handle)) => handle,
        Ok(None) => return false,
        Err(_) => {
            session
                .log()
                .say("memory: refused for values that an application missed");
            return false;
        }
    };
    if let Some(value) = host.table().value_of(handle) {
        session.tell(&Told::Missed { handle, value });
    }
    true
}

fn look_for_strangers<R>(session: &mut Session<'_, R>, host: &Host)
    ensures controller { session.new.controller.controller ≡ session.old.controller.controller }
    ensures application { session.new.seats ≡ session.old.seats }
    ensures missed { session.new.missed ≡ session.old.missed }
    ensures pending { session.new.pending ≡ session.old.pending }
    ensures updated { session.new.updated ≡ session.old.updated }
    ensures names { session.new.names ≡ session.old.names }
    ensures asking { session.new.asking ≡ session.old.asking }
{
    if session.looks_for_strangers() {
        session.look_for_strangers(&keyless(host));
    }
}

fn keyless(host: &Host) -> ArrayVec<Keyless, MAX_SLOTS> {
    let mut keyless = ArrayVec::new();
    for connection in host.connections() {
        if let Some(connection) = Keyless::of(&connection) {
            // It fits: a host has at most `MAX_SLOTS` connections.
            let _ = keyless.try_push(connection);
        }
    }
    keyless
}
