//! The states of other tables, which are kept before they are replaced.

use crate::files::{STATE_OCTETS, octets_of};
use crate::stop::{Stop, refuse};
use device_io::{Log, SavedFile};
use device_state::State;
use shell_files::ShellFault;
use std::alloc::Global;
use std::fs;
use std::fs::{File, Files};
use std::io::ErrorKind;
use std::time::Clock;

/// The most states that are kept.
const MOST_KEPT: u32 = 999;

/// A path at which a state may be kept.
#[derive(Clone, Copy, PartialEq, Eq)]
enum Place {
    Free,
    /// It has the state that is to be kept.
    Same,
    /// It has a state of the table that is served now.
    Right,
    Other,
}

/// Keeps a state in the same folder, unless it is kept there already.
///
/// Its name is the first free one of `state.before`, `state.before.2` and so on: a kept state is
/// never replaced. Logs which of them are of the table that is served now.
pub(crate) fn keep_before<R: Files<File = File> + Clock + Eprint>(
    alloc: Global,
    log: &Log<'_, R>,
    file: &SavedFile,
    table_text: &[u8],
) -> Result<(), Stop> {
    let state = match octets_of(alloc, log.rt, file.path(), STATE_OCTETS) {
        Ok(state) => state.unwrap_or(Vec::new(alloc)),
        Err(refusal) => return Err(refuse(log.rt, refusal)),
    };
    let mut is_kept = false;
    for number in 1..=MOST_KEPT {
        let kept = path_of(alloc, file.path(), number)?;
        match place_at(alloc, log.rt, kept.as_str(), state.as_slice(), table_text) {
            Place::Free if is_kept => return Ok(()),
            Place::Free => return keep_as(alloc, log, file, kept.as_str()),
            Place::Same => is_kept = true,
            Place::Right => log.say_of("a state of this table is in", kept.as_str()),
            Place::Other => {}
        }
    }
    if is_kept {
        return Ok(());
    }
    let path = file.path();
    Err(refuse(
        log.rt,
        format!(in alloc;
            "{path}.before: {MOST_KEPT} states are kept: delete those you do not need"
        ).ok(),
    ))
}

/// Returns the path of a kept state by its number from 1.
fn path_of(alloc: Global, path: &str, number: u32) -> Result<String, Stop> {
    let kept = if number == 1 {
        format!(in alloc; "{path}.before")
    } else {
        format!(in alloc; "{path}.before.{number}")
    };
    match kept {
        Ok(kept) => Ok(kept),
        Err(_) => Err(Stop::Fault(ShellFault::Memory)),
    }
}

fn keep_as<R: Files<File = File> + Clock + Eprint>(
    alloc: Global,
    log: &Log<'_, R>,
    file: &SavedFile,
    kept: &str,
) -> Result<(), Stop> {
    match file.keep_as(log.rt, alloc, kept) {
        Ok(()) => {
            log.say_of("the table has changed: the old state is kept as", kept);
            Ok(())
        }
        Err(error) => Err(refuse(log.rt, format!(in alloc; "{kept}: {error}").ok())),
    }
}

/// Returns what is at a path. A file that cannot be read counts as another one.
fn place_at<R: Files<File = File>>(
    alloc: Global,
    rt: &R,
    path: &str,
    state: &[u8],
    table_text: &[u8],
) -> Place {
    match fs::symlink_metadata(rt, path) {
        Err(error) if error.kind() == ErrorKind::NotFound => return Place::Free,
        Err(_) => return Place::Other,
        Ok(_) => {}
    }
    match fs::metadata(rt, path) {
        Ok(found) if found.is_file() => {}
        _ => return Place::Other,
    }
    let Ok(Some(octets)) = octets_of(alloc, rt, path, STATE_OCTETS) else {
        return Place::Other;
    };
    if octets.as_slice() == state {
        return Place::Same;
    }
    match State::read(alloc, octets.as_slice()) {
        Ok(state) if state.table_text().as_bytes() == table_text => Place::Right,
        _ => Place::Other,
    }
}
