//! The limit of the sizes of files.
//!
//! A write beyond this limit raises SIGXFSZ, which ends the program. The device asks for the limit
//! before it writes, and treats a file that reaches it like one on a full disk.

use libc::types::rlimit;
use std::io;

/// RLIMIT_FSIZE of Linux.
const FILE_SIZE: i32 = 1;

/// Returns the size that no file of this process may exceed.
pub(crate) fn largest_file() -> u64 {
    let mut limit = rlimit {
        rlim_cur: u64::MAX,
        rlim_max: u64::MAX,
    };
    if libc::getrlimit(FILE_SIZE, &mut limit) == 0 {
        limit.rlim_cur
    } else {
        u64::MAX
    }
}

/// Fails as a write does if a file of this size exceeds the limit.
pub(crate) fn refuse_size(size: usize) -> io::Result<()> {
    if size as u64 > largest_file() {
        return Err(io::Error::from_raw_os_error(libc::EFBIG));
    }
    Ok(())
}

/// Returns true if so many bytes more fit into standard error.
///
/// If it is a file, they are then written at its end, as by a program that appends.
pub(crate) fn fits_standard_error(count: usize) -> bool {
    let limit = largest_file();
    if limit == u64::MAX {
        return true;
    }
    match u64::try_from(libc::lseek(libc::STDERR_FILENO, 0, libc::SEEK_END)) {
        Ok(size) => size.saturating_add(count as u64) <= limit,
        // It has no size: a pipe, a socket or a terminal.
        Err(_) => true,
    }
}
