//! A lock that only one process can hold.

use std::fs::{File, Files, Metadata, TryLockError};
use std::io::ErrorKind;
use std::os::unix::fs::{MetadataExt, OpenOptionsExt};
use std::{fs, io};

const OWNER_ALONE: u32 = 0o600;

/// A lock on the file at a path. While it is held, no other process holds it.
#[derive(Drop)]
pub struct Lock {
    path: String,
    held: Option<Held>,
}

/// A file that this process has locked, until it is dropped.
#[derive(Drop)]
struct Held {
    _file: File,
    device: u64,
    inode: u64,
}

/// Why a file cannot be locked.
#[derive(Drop)]
pub enum LockFault {
    Taken,
    /// The path leads to a folder, a link, a pipe or the like.
    NotAFile,
    Failed(io::Error),
}

impl LockFault {
    /// Returns the error of a file that cannot be saved without the lock.
    pub fn error(&self) -> io::Error {
        match self {
            LockFault::Taken => {
                io::Error::new(ErrorKind::ResourceBusy, "locked: another device uses it")
            }
            LockFault::NotAFile => {
                io::Error::new(ErrorKind::AlreadyExists, "its lock is not a file")
            }
            LockFault::Failed(error) => *error,
        }
    }
}

impl Lock {
    /// Returns the lock on the file at a path. It is not held yet.
    pub fn at(path: String) -> Lock {
        Lock { path, held: None }
    }

    /// Returns the path of the file.
    pub fn path(&self) -> &str {
        self.path.as_str()
    }

    /// Takes the lock unless it is held. Creates the file if necessary. Returns true if it was not
    /// held, so that another process may have held it.
    ///
    /// The lock is lost once the path leads to another file than the locked one, since a second
    /// process can lock that file. The old file stays locked until the new one is.
    pub fn hold<R: Files<File = File>>(&mut self, files: &R) -> Result<bool, LockFault> {
        let path = self.path.as_str();
        match fs::symlink_metadata(files, path) {
            Ok(found) if is_held(&self.held, &found) => return Ok(false),
            Ok(found) if !found.is_file() => return Err(LockFault::NotAFile),
            _ => {}
        }
        self.held = Some(take(files, path)?);
        Ok(true)
    }
}

fn is_held(held: &Option<Held>, found: &Metadata) -> bool {
    match held {
        Some(held) => held.device == found.dev() && held.inode == found.ino(),
        None => false,
    }
}

fn take<R: Files<File = File>>(files: &R, path: &str) -> Result<Held, LockFault> {
    let opened = File::options()
        .write(true)
        .create(true)
        .mode(OWNER_ALONE)
        .open(files, path);
    let file = match opened {
        Ok(file) => file,
        Err(error) => return Err(LockFault::Failed(error)),
    };
    match file.try_lock() {
        Ok(()) => {}
        Err(TryLockError::WouldBlock) => return Err(LockFault::Taken),
        Err(TryLockError::Error(error)) => return Err(LockFault::Failed(error)),
    }
    match file.metadata() {
        Ok(found) => Ok(Held {
            device: found.dev(),
            inode: found.ino(),
            _file: file,
        }),
        Err(error) => Err(LockFault::Failed(error)),
    }
}
