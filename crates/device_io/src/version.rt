//! The identity of a file and of its contents.

use std::fs::Metadata;
use std::os::unix::fs::MetadataExt;

/// The identity of a file and of its contents.
#[derive(Clone, Copy, PartialEq, Eq)]
pub(crate) struct Version {
    device: u64,
    inode: u64,
    size: u64,
    /// The time of its last change: seconds, and nanoseconds.
    seconds: i64,
    nanoseconds: i64,
}

impl Version {
    pub(crate) fn of(found: &Metadata) -> Version {
        Version {
            device: found.dev(),
            inode: found.ino(),
            size: found.size(),
            seconds: found.mtime(),
            nanoseconds: found.mtime_nsec(),
        }
    }
}
