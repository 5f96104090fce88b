//! The stop of a device that the line `stop` asks for.

ghost use Rattle.std.specs.Prelude.{◌≡◌};
ghost use Rattle.device_session.specs.Asking.{after_delay};
ghost use Rattle.device_host.specs.Silence.{held};

use crate::course::Course;
use crate::device::Device;
use app_lines::{Reply, add_reply};
use arrayvec::ArrayVec;
use device_io::System;
use gatt_host::{Host, MAX_SLOTS};
use std::alloc::{AllocError, Global};
use std::fs::{File, Files};
use std::time::Clock;

/// Time limit for the connections to end, in milliseconds.
pub(crate) const ENDING_TIME: u64 = 3_000;

/// Time limit for the answer to the Reset, in milliseconds.
const RESET_TIME: u64 = 1_000;

/// The command Reset (Core 5.0, Vol 2 Part E, 7.3.2).
const RESET: [u8; 4] = [0x01, 0x03, 0x0C, 0x00];

/// Begins to stop a device: its connections end first, and no more lines are read.
pub(crate) fn begin_stop<R: Clock + Eprint>(device: &mut Device<'_, R>)
    ensures application { device.new.session.seats
        ≡ held device.old.session.seats }
    ensures asking { device.new.session.asking ≡ after_delay device.old.session.asking }
    ensures pending { device.new.session.pending ≡ device.old.session.pending }
{
    device.session.put_off_answer();
    device.session.hold();
    device.session.log().say("stop");
    device.supervision.stopping();
    device.course = Course::Stops(device.session.log().now().saturating_add(ENDING_TIME));
}

/// Returns true if a device that stops or reloads has no connection left, or its time is over.
///
/// Otherwise the device disconnects all its connections.
pub(crate) fn is_stopped<R: Clock + Eprint>(device: &mut Device<'_, R>, host: &Host) -> bool {
    let Some(until) = device.course.due() else {
        return false;
    };
    let is_late = until <= device.session.log().now();
    let mut ending = ArrayVec::new();
    let mut is_connected = false;
    for connection in host.connections() {
        is_connected = true;
        if !connection.ending {
            // It fits: a host has at most `MAX_SLOTS` connections.
            let _ = ending.try_push(connection.handle);
        }
    }
    device.ending = ending;
    is_late || !is_connected || !device.session.has_controller()
}

/// Saves once more, resets the controller, so that it stops advertising, and answers `stop`.
/// Returns true if everything is saved.
pub(crate) fn finish<R: System>(device: &mut Device<'_, R>, host: &Host) -> bool {
    let failure = save_last(device, host);
    reset(device);
    let text = last_answer(device.alloc, &failure);
    device.session.answer_later(text);
    device.session.reply();
    device.session.flush();
    match &failure {
        None => device.session.log().say("stopped"),
        Some(words) => device.session.log().say_of("stopped:", words.as_str()),
    }
    failure.is_none()
}

/// Saves once more. Returns the file and the error if that fails.
fn save_last<R: Files<File = File> + Clock + Eprint>(
    device: &mut Device<'_, R>,
    host: &Host,
) -> Option<String> {
    let keeping = device.keeping.as_mut()?;
    let failure = match keeping.save_last(host, &mut device.session) {
        Some(words) => Some(format!(in device.alloc; "not saved: {words}").unwrap_or(String::new(
            device.alloc,
        ))),
        None => None,
    };
    keeping.tell_news(&mut device.session);
    if failure.is_none() {
        device.session.tell_pending();
    }
    failure
}

fn last_answer(alloc: Global, failure: &Option<String>) -> Result<Vec<u8>, AllocError> {
    let mut text = Vec::new(alloc);
    match failure {
        None => add_reply(&mut text, &Reply::Done)?,
        Some(words) => add_reply(&mut text, &Reply::NotSaved(words.as_str()))?,
    }
    Ok(text)
}

/// Resets the controller, so that it stops advertising.
pub(crate) fn reset<R: System>(device: &mut Device<'_, R>) {
    if let Ok(true) = device.session.write(&RESET) {
        wait_for_reset(device);
    }
}

/// Waits until the controller answers, perhaps the Reset, or disconnects.
///
/// A stream that is closed before it is read may lose the last bytes written.
fn wait_for_reset<R: System>(device: &mut Device<'_, R>) {
    let until = device.session.log().now().saturating_add(RESET_TIME);
    let mut buffer = [0; 256];
    for _turn in 0..u64::MAX {
        if until <= device.session.log().now() {
            return;
        }
        device.session.next_tick(Some(until));
        if device.session.is_controller_next() {
            match device.session.read(&mut buffer) {
                Ok(Some(octets)) if octets.is_empty() || has_reset(octets) => return,
                Ok(_) => {}
                Err(_) => return,
            }
        }
    }
}

fn has_reset(octets: &[u8]) -> bool {
    octets
        .windows(2)
        .any(|pair| pair == [0x03, 0x0C].as_slice())
}
