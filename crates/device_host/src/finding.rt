//! Finds and locks the file in which a host is saved, and reads it.

use crate::files::{STATE_OCTETS, read_file, read_subscriptions};
use crate::stop::{Stop, refuse};
use device_io::{Lock, LockFault, Log, SavedFile};
use device_state::State;
use gatt_host::{Rows, Table};
use shell_files::{ShellFault, judged_table};
use std::alloc::Global;
use std::fs::{File, Files};
use std::io::ErrorKind;
use std::time::Clock;

/// The permission of a new subscriptions file, before the umask.
const FOR_ALL: u32 = 0o666;

/// The permission of a new state file.
const OWNER_ALONE: u32 = 0o600;

/// Returns a subscriptions file with its locks and its subscriptions.
pub(crate) fn find_subscriptions<R: Files<File = File> + Clock + Eprint>(
    alloc: Global,
    log: &Log<'_, R>,
    path: &str,
) -> Result<(SavedFile, Vec<Lock>, Rows), Stop> {
    let file = find_file(alloc, log, path, FOR_ALL)?;
    let mut locks = Vec::new(alloc);
    match lock_and_read(alloc, log, &mut locks, file.path()) {
        Ok(rows) => Ok((file, locks, rows)),
        Err(stop) => {
            drop(locks);
            drop(file);
            Err(stop)
        }
    }
}

fn lock_and_read<R: Files<File = File> + Clock + Eprint>(
    alloc: Global,
    log: &Log<'_, R>,
    locks: &mut Vec<Lock>,
    path: &str,
) -> Result<Rows, Stop> {
    add_lock(alloc, log, locks, path, ".lock")?;
    read_subscriptions(alloc, log.rt, path)
}

/// Locks the state of a folder. Returns its file, a table from `text`, and the state if there is
/// one.
pub(crate) fn find_saved<R: Files<File = File> + Clock + Eprint>(
    alloc: Global,
    log: &Log<'_, R>,
    locks: &mut Vec<Lock>,
    folder: &str,
    text: &[u8],
) -> Result<(SavedFile, Table, Option<State>), Stop> {
    let file = lock_state(alloc, log, locks, folder)?;
    let table = match judged_table(alloc, text) {
        Ok(table) => table,
        Err(fault) => {
            drop(file);
            return Err(Stop::Fault(fault));
        }
    };
    match find_state(alloc, log, file.path()) {
        Ok(state) => Ok((file, table, state)),
        Err(stop) => {
            drop(table);
            drop(file);
            Err(stop)
        }
    }
}

/// Locks the state of a folder and returns its file.
fn lock_state<R: Files<File = File> + Clock + Eprint>(
    alloc: Global,
    log: &Log<'_, R>,
    locks: &mut Vec<Lock>,
    folder: &str,
) -> Result<SavedFile, Stop> {
    add_lock(alloc, log, locks, folder, "/lock")?;
    let path = match format!(in alloc; "{folder}/state") {
        Ok(path) => path,
        Err(_) => return Err(Stop::Fault(ShellFault::Memory)),
    };
    let file = find_file(alloc, log, path.as_str(), OWNER_ALONE)?;
    if file.path() != path.as_str()
        && let Err(stop) = lock_target(alloc, log, locks, file.path())
    {
        drop(file);
        return Err(stop);
    }
    Ok(file)
}

/// Returns the file at a path. Refuses a path of anything else.
fn find_file<R: Files<File = File> + Clock + Eprint>(
    alloc: Global,
    log: &Log<'_, R>,
    path: &str,
    mode: u32,
) -> Result<SavedFile, Stop> {
    match SavedFile::at(log.rt, alloc, path, mode) {
        Ok(file) if file.is_taken(log.rt) => {
            Err(refuse(log.rt, format!(in alloc; "{path}: not a file").ok()))
        }
        Ok(file) => Ok(file),
        Err(error) => Err(refuse(log.rt, format!(in alloc; "{path}: {error}").ok())),
    }
}

/// Locks the state to which a link leads, against devices with another link to it, and against one
/// whose folder has it.
fn lock_target<R: Files<File = File> + Clock + Eprint>(
    alloc: Global,
    log: &Log<'_, R>,
    locks: &mut Vec<Lock>,
    target: &str,
) -> Result<(), Stop> {
    add_lock(alloc, log, locks, target, ".lock")?;
    match target.strip_suffix("/state") {
        Some(folder) => add_lock(alloc, log, locks, folder, "/lock"),
        None => Ok(()),
    }
}

/// Locks the file at `path` followed by `end`, and adds the lock.
///
/// A full or read-only disk does not stop the device: it logs that there is no lock, and takes it
/// before it saves.
fn add_lock<R: Files<File = File> + Clock + Eprint>(
    alloc: Global,
    log: &Log<'_, R>,
    locks: &mut Vec<Lock>,
    path: &str,
    end: &str,
) -> Result<(), Stop> {
    let Ok(place) = format!(in alloc; "{path}{end}") else {
        return Err(Stop::Fault(ShellFault::Memory));
    };
    let mut lock = Lock::at(place);
    if let Err(fault) = lock.hold(log.rt) {
        tell_unlocked(alloc, log, lock.path(), path, &fault)?;
    }
    match locks.push(lock) {
        Ok(()) => Ok(()),
        Err(_) => Err(Stop::Fault(ShellFault::Memory)),
    }
}

/// Refuses a start without a lock, or logs that there is none if the device can serve without.
fn tell_unlocked<R: Files<File = File> + Clock + Eprint>(
    alloc: Global,
    log: &Log<'_, R>,
    place: &str,
    path: &str,
    fault: &LockFault,
) -> Result<(), Stop> {
    let line = match fault {
        LockFault::Taken => format!(in alloc; "{place}: locked: another device uses {path}"),
        LockFault::NotAFile => format!(in alloc; "{place}: not a file"),
        LockFault::Failed(error) => format!(in alloc; "{place}: {error}"),
    };
    if !is_disk_closed(fault) {
        return Err(refuse(log.rt, line.ok()));
    }
    if let Ok(line) = line {
        log.say_of("not locked:", line.as_str());
    }
    Ok(())
}

/// Returns true if a disk is full or read-only.
fn is_disk_closed(fault: &LockFault) -> bool {
    match fault {
        LockFault::Failed(error) => matches!(
            error.kind(),
            ErrorKind::StorageFull | ErrorKind::QuotaExceeded | ErrorKind::ReadOnlyFilesystem
        ),
        _ => false,
    }
}

fn find_state<R: Files<File = File> + Clock + Eprint>(
    alloc: Global,
    log: &Log<'_, R>,
    path: &str,
) -> Result<Option<State>, Stop> {
    let Some(octets) = read_file(alloc, log.rt, path, STATE_OCTETS)? else {
        return Ok(None);
    };
    match State::read(alloc, octets.as_slice()) {
        Ok(state) => Ok(Some(state)),
        Err(fault) => Err(refuse(log.rt, format!(in alloc; "{path}: {fault}").ok())),
    }
}

/// Returns true for a state of a table with another text.
pub(crate) fn is_of_another_table(state: &Option<State>, text: &[u8]) -> bool {
    match state {
        Some(state) => state.table_text().as_bytes() != text,
        None => false,
    }
}
