//! The line `reload`: the key file is read again, and the host is opened again with its keys.

ghost use Rattle.std.specs.Prelude.{◌≡◌, false, true};
ghost use Rattle.device_session.specs.Asking.{after_delay};
ghost use Rattle.device_session.specs.Turns.{after_work};
ghost use Rattle.device_host.specs.Answers.{serves, IsAnsweredOrPutOff, IsSomehowAnswered};
ghost use Rattle.device_host.specs.Silence.{IsSameOrHeld};

use crate::course::Course;
use crate::device::Device;
use crate::files::{KeyFile, judged_key_file};
use crate::opening::{open_again, reopen};
use crate::restoring::{Subscriptions, log_dropped, unknown_refusal};
use crate::stop::Stop;
use crate::stopping::ENDING_TIME;
use app_lines::{Reply, add_reply};
use device_options::{FileOptions, HostSettings, Saved};
use gatt_host::{Host, Keys, Rows};
use std::alloc::{AllocError, Global};
use std::fs::{File, Files};
use std::time::Clock;
use std::{fs, str};

/// The largest file in which the place of a fault is searched for, in bytes.
///
/// Clients wait meanwhile.
const PLACED_OCTETS: usize = 4_096;

/// The outcome of the line `reload`.
#[derive(Drop)]
enum Answer {
    Done,
    /// The keys are not read again: the file and the reason, or nothing if memory was refused.
    Refused(Option<String>),
}

/// Reads the key file again. If that changes a key, the connections end first, and no more lines
/// are read until the host is opened again.
///
/// A file that the start would refuse is answered at once, and so is one with the same keys.
pub(crate) fn begin_reload<R: Files<File = File> + Clock + Eprint>(
    device: &mut Device<'_, R>,
    host: &Host,
)
    ensures application { IsSameOrHeld device.old.session.seats
        device.new.session.seats }
    // The line is answered at once, or once the host is opened again.
    ensures asking { IsAnsweredOrPutOff device.old.session.asking device.new.session.asking }
    // It is put off exactly if the device then reloads.
    ensures now { serves device.old.course ≡ true → serves device.new.course ≡ true
        → IsSomehowAnswered device.old.session.asking device.new.session.asking }
    ensures later { serves device.old.course ≡ true → serves device.new.course ≡ false
        → device.new.session.asking ≡ after_delay device.old.session.asking }
    ensures pending { device.new.session.pending ≡ device.old.session.pending }
{
    match read_in_work(device, host) {
        Ok(None) => {
            device
                .session
                .log()
                .say_of("keys: the same as before:", device.files.keys);
            answer_reload(device, &Answer::Done);
        }
        Ok(Some(keys)) => {
            let until = device.session.log().now().saturating_add(ENDING_TIME);
            device.session.put_off_answer();
            device.session.hold();
            device
                .session
                .log()
                .say_of("keys: read again:", device.files.keys);
            device.supervision.reloading(device.alloc);
            device.course = Course::Reloads { until, keys };
        }
        Err(refusal) => answer_reload(device, &Answer::Refused(refusal)),
    }
}

/// Reads the key file again, which is work of the device.
fn read_in_work<R: Files<File = File> + Clock + Eprint>(
    device: &mut Device<'_, R>,
    host: &Host,
) -> Result<Option<KeyFile>, Option<String>>
    // The clock is read before the host gets anything.
    ensures turns { device.new.session.turns ≡ after_work device.old.session.turns }
    ensures application { device.new.session.seats ≡ device.old.session.seats }
    ensures asking { device.new.session.asking ≡ device.old.session.asking }
    ensures pending { device.new.session.pending ≡ device.old.session.pending }
    ensures course { device.new.course ≡ device.old.course }
{
    device.session.begin_work();
    let read = read_again(device, host);
    device.session.end_work();
    read
}

/// Returns the keys of the file, or `None` if they have not changed.
fn read_again<R: Files<File = File> + Clock + Eprint>(
    device: &Device<'_, R>,
    host: &Host,
) -> Result<Option<KeyFile>, Option<String>> {
    let (alloc, rt, path) = (device.alloc, device.session.log().rt, device.files.keys);
    match fs::metadata(rt, path) {
        Ok(found) if found.is_file() => {}
        Ok(_) => return Err(format!(in alloc; "{path}: not a file").ok()),
        Err(error) => return Err(format!(in alloc; "{path}: {error}").ok()),
    }
    let file = match judged_key_file(alloc, rt, path, PLACED_OCTETS) {
        Ok(file) => file,
        Err(refusal) => return Err(refusal),
    };
    if has_same_keys(alloc, device.key_text.as_slice(), file.text.as_slice()) {
        drop(file);
        return Ok(None);
    }
    match unknown_saved(alloc, &device.files, host.rows(), &file.keys) {
        Ok(()) => Ok(Some(file)),
        Err(refusal) => {
            drop(file);
            Err(refusal)
        }
    }
}

/// Returns true if two key files have the same keys, with the same words.
fn has_same_keys(alloc: Global, one: &[u8], other: &[u8]) -> bool {
    if one == other {
        return true;
    }
    match (str::from_utf8(one), str::from_utf8(other)) {
        (Ok(one), Ok(other)) => match (
            toml::table_from_str(alloc, one),
            toml::table_from_str(alloc, other),
        ) {
            (Ok(one), Ok(other)) => one == other,
            _ => false,
        },
        _ => false,
    }
}

/// Refuses keys without those of a peer whose subscriptions are saved, unless the options drop
/// them.
fn unknown_saved(
    alloc: Global,
    files: &FileOptions<'_>,
    rows: &Rows,
    keys: &Keys,
) -> Result<(), Option<String>> {
    match files.saved {
        Saved::Nothing => Ok(()),
        _ => match Subscriptions::of(alloc, rows) {
            Ok(saved) => unknown_refusal(alloc, files, &saved, keys),
            Err(_) => Err(None),
        },
    }
}

/// Opens a host again with the keys that were read again, and answers the line `reload`.
///
/// If a peer without a key has a subscription now that is saved, the host is opened with the keys
/// that it had.
pub(crate) fn reopen_with_keys<R: Files<File = File> + Clock + Eprint>(
    device: &mut Device<'_, R>,
    host: Host,
    settings: &HostSettings,
) -> Result<Host, Stop> {
    let course = std::mem::replace(&mut device.course, Course::Serves);
    device.session.release();
    let Course::Reloads { keys: file, .. } = course else {
        return reopen(device, host, settings);
    };
    let refused = unknown_saved(device.alloc, &device.files, host.rows(), &file.keys);
    let (opened, said) = match refused {
        Ok(()) => match exchange_keys(device, host, file, settings) {
            Ok(host) => (Ok(host), Answer::Done),
            Err(stop) => (Err(stop), Answer::Refused(None)),
        },
        Err(refusal) => {
            drop(file);
            (reopen(device, host, settings), Answer::Refused(refusal))
        }
    };
    answer_reload(device, &said);
    device.session.reply();
    device.session.flush();
    device.supervision.ready();
    opened
}

/// Answers the line `reload`, if any, of a device that ends before it opens a host again.
pub(crate) fn give_up_reload<R: Clock + Eprint>(device: &mut Device<'_, R>) {
    if let Course::Reloads { .. } = device.course {
        let words = format!(in device.alloc; "the device ends").ok();
        answer_reload(device, &Answer::Refused(words));
        device.session.reply();
        device.session.flush();
    }
}

fn exchange_keys<R: Files<File = File> + Clock + Eprint>(
    device: &mut Device<'_, R>,
    host: Host,
    file: KeyFile,
    settings: &HostSettings,
) -> Result<Host, Stop> {
    let alloc = device.alloc;
    let (table, _keys, rows) = host.into_parts();
    let saved = Subscriptions::of(alloc, &rows);
    let KeyFile { keys, text } = file;
    device.key_text = text;
    let host = open_again(device, table, keys, rows, settings)?;
    match &saved {
        Ok(saved) => log_dropped(alloc, device.session.log(), saved, host.rows()),
        Err(_) => device
            .session
            .log()
            .say("memory: refused for the subscriptions before"),
    }
    if let Some(keeping) = &mut device.keeping {
        keeping.note_change();
        keeping.save(&host, &mut device.session);
    }
    Ok(host)
}

/// Prepares the answer to the line `reload`, and logs a refusal.
fn answer_reload<R: Clock + Eprint>(device: &mut Device<'_, R>, answer: &Answer)
    ensures application { device.new.session.seats ≡ device.old.session.seats }
    ensures asking { IsSomehowAnswered device.old.session.asking device.new.session.asking }
    ensures pending { device.new.session.pending ≡ device.old.session.pending }
    ensures course { device.new.course ≡ device.old.course }
{
    let text = match answer {
        Answer::Done => answer_text(device.alloc, &Reply::Done),
        Answer::Refused(refusal) => {
            let words = match refusal {
                Some(words) => words.as_str(),
                None => "memory was refused",
            };
            device.session.log().say_of("keys: not read again:", words);
            refused_text(device.alloc, words)
        }
    };
    device.session.answer_later(text);
}

fn refused_text(alloc: Global, words: &str) -> Result<Vec<u8>, AllocError> {
    match format!(in alloc; "not read again: {words}") {
        Ok(words) => answer_text(alloc, &Reply::NotReloaded(words.as_str())),
        Err(_) => Err(AllocError),
    }
}

fn answer_text(alloc: Global, reply: &Reply<'_>) -> Result<Vec<u8>, AllocError> {
    let mut text = Vec::new(alloc);
    add_reply(&mut text, reply)?;
    Ok(text)
}
