//! The standard descriptors, which may be closed when the program starts.

use std::fs::{File, Files};
use std::os::fd::AsRawFd;

const NULL_DEVICE: &str = "/dev/null";

/// The null device in place of standard descriptors that were closed, while this value lives.
///
/// Without it, the next file or line that is opened would become standard error, and the log would
/// be written to it.
#[derive(Drop)]
pub(crate) struct Standard {
    _input: Option<File>,
    _output: Option<File>,
    _error: Option<File>,
}

impl Standard {
    /// Opens the null device for each standard descriptor that is closed.
    pub(crate) fn open<R: Files<File = File>>(rt: &R) -> Standard {
        Standard {
            _input: null_device(rt),
            _output: null_device(rt),
            _error: null_device(rt),
        }
    }
}

/// Opens the null device. Returns `None` if its descriptor is no standard one.
fn null_device<R: Files<File = File>>(rt: &R) -> Option<File> {
    let device = File::options()
        .read(true)
        .write(true)
        .open(rt, NULL_DEVICE)
        .ok()?;
    if device.as_raw_fd() > libc::STDERR_FILENO {
        return None;
    }
    Some(device)
}
