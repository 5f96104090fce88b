//! Standard error as a terminal, written without waiting.
//!
//! A terminal that is not read accepts part of a line, and then nothing.

use std::cell::Cell;
use std::fs;
use std::fs::{File, Files};
use std::os::fd::AsRawFd;
use std::os::unix::fs::{FileTypeExt, MetadataExt};

pub(crate) const STANDARD_ERROR: &str = "/proc/self/fd/2";

/// The major numbers of pseudo-terminals on Linux.
const FIRST_MAJOR: u64 = 136;

const LAST_MAJOR: u64 = 143;

/// A terminal. Other programs may still wait when they write to it.
#[derive(Drop)]
pub(crate) struct Terminal {
    file: File,
    /// Set if the last line was written only in part.
    is_cut: Cell<bool>,
}

impl Terminal {
    /// Opens standard error if it is a pseudo-terminal.
    pub(crate) fn open<R: Files<File = File>>(rt: &R) -> Option<Terminal> {
        let found = fs::metadata(rt, STANDARD_ERROR).ok()?;
        let major = found.rdev() >> 8;
        if !found.file_type().is_char_device() || !(FIRST_MAJOR..=LAST_MAJOR).contains(&major) {
            return None;
        }
        let file = File::options().write(true).open(rt, STANDARD_ERROR).ok()?;
        if os::set_nonblocking(file.as_raw_fd(), true) == 0 {
            Some(Terminal {
                file,
                is_cut: Cell::new(false),
            })
        } else {
            None
        }
    }

    /// Writes a line. Returns true if all of it was written.
    pub(crate) fn write(&self, line: &[u8]) -> bool {
        let fd = self.file.as_raw_fd();
        if self.is_cut.get() {
            if libc::write(fd, b"\n") != 1 {
                return false;
            }
            self.is_cut.set(false);
        }
        match usize::try_from(libc::write(fd, line)) {
            Ok(count) => {
                self.is_cut.set(count > 0 && count < line.len());
                count == line.len()
            }
            Err(_) => false,
        }
    }
}
