//! The lock of a subscriptions file, which a device takes too.

ghost use Rattle.std.specs.Prelude.{◌≡◌, Ok, is_some, false};

use device_io::{Lock, LockFault, SavedFile};
use gatt_commands::RowsPath;
use std::io;
use std::io::ErrorKind;

/// The permission that a device gives to a new subscriptions file. Nothing is saved here.
const FOR_ALL: u32 = 0o666;

/// Why a command may not use its subscriptions file.
#[derive(Clone, Copy)]
pub(crate) enum Unlocked {
    /// A device or another command has the lock.
    Taken,
    Memory,
}

/// Locks the subscriptions file of a command, if it names one.
///
/// Returns no lock if none can be made. Errors: `Taken`, `Memory`.
pub(crate) fn lock_rows(rt: &HostRuntime, rows: RowsPath<'_>) -> Result<Option<Lock>, Unlocked>
    ensures no_file { is_some rows.entry.0 ≡ false → result ≡ Ok None }
{
    match rows.0 {
        Some(path) if !path.is_empty() => lock_file(rt, path),
        _ => Ok(None),
    }
}

/// Locks the file at a path, or the target of a link there.
fn lock_file(rt: &HostRuntime, path: &str) -> Result<Option<Lock>, Unlocked> {
    let file = match SavedFile::at(rt, rt.alloc(), path, FOR_ALL) {
        Ok(file) => file,
        Err(error) => return without(&error),
    };
    // Only a file has subscriptions that could be lost.
    if file.is_taken(rt) {
        return Ok(None);
    }
    let Ok(place) = format!(in rt.alloc(); "{}.lock", file.path()) else {
        return Err(Unlocked::Memory);
    };
    let mut lock = Lock::at(place);
    match lock.hold(rt) {
        Ok(_) => Ok(Some(lock)),
        Err(LockFault::Taken) => Err(Unlocked::Taken),
        Err(LockFault::NotAFile) => Ok(None),
        Err(LockFault::Failed(error)) => without(&error),
    }
}

/// Returns no lock, unless memory was refused.
fn without(error: &io::Error) -> Result<Option<Lock>, Unlocked> {
    match error.kind() {
        ErrorKind::OutOfMemory => Err(Unlocked::Memory),
        _ => Ok(None),
    }
}
