//! The start of a device.

use crate::course::Course;
use crate::device::{Device, Takes};
use crate::keeping::Keeping;
use crate::stop::{Stop, refuse_socket};
use crate::supervision::Supervision;
use crate::unkeyed::Unkeyed;
use arrayvec::ArrayVec;
use device_io::{Log, System};
use device_loop::History;
use device_options::{ApplicationAddress, ControllerAddress, HostOptions};
use device_session::{Limits, Session};
use std::alloc::Global;
use std::fs::{File, Files};
use std::io;
use std::io::ErrorKind;

/// A number and the supervision that a start gets from the system.
#[derive(Clone, Copy)]
pub(crate) struct Start {
    /// A random number.
    pub(crate) number: u64,
    pub(crate) supervision: Supervision,
}

/// Returns a device with its sockets open. If this fails, no file has changed.
pub(crate) fn reaching<'a, R: System>(
    log: Log<'a, R>,
    alloc: Global,
    options: &HostOptions<'a>,
    keeping: Option<Keeping>,
    key_text: Vec<u8>,
    start: Start,
) -> Result<Device<'a, R>, Stop> {
    let rt = log.rt;
    let opened = Session::new(
        log,
        alloc,
        options.controller,
        options.wait_for_application,
        options.patience,
        Limits {
            silent: options.idle,
            staying: options.stranger,
        },
    );
    let session = match opened {
        Ok(session) => session,
        Err(error) => {
            drop(key_text);
            drop(keeping);
            return Err(refuse_controllers(alloc, rt, options.controller, &error));
        }
    };
    let mut device = Device {
        alloc,
        session,
        keeping,
        takes: Takes::Any,
        ending: ArrayVec::new(),
        unkeyed: Unkeyed::none(),
        files: options.files,
        key_text,
        course: Course::Serves,
        supervision: start.supervision,
        started: start.number,
        history: History::none(),
    };
    match device.session.listen_for_applications(options.application) {
        Ok(()) => Ok(device),
        Err(error) => {
            drop(device);
            Err(refuse_applications(alloc, rt, options.application, &error))
        }
    }
}

fn refuse_controllers<R: Eprint>(
    alloc: Global,
    rt: &R,
    address: ControllerAddress<'_>,
    error: &io::Error,
) -> Stop {
    refuse_socket(
        rt,
        match address {
            ControllerAddress::Listen(address) => format!(in alloc;
                "listen: failed: {address}: {error}"
            ).ok(),
            _ => format!(in alloc; "listen: failed: {error}").ok(),
        },
    )
}

fn refuse_applications<R: Eprint>(
    alloc: Global,
    rt: &R,
    address: ApplicationAddress<'_>,
    error: &io::Error,
) -> Stop {
    refuse_socket(
        rt,
        match address {
            ApplicationAddress::Path(path) => {
                let suffix = suffix_of(error);
                format!(in alloc; "listen: failed: {path}{suffix}: {error}").ok()
            }
            ApplicationAddress::Port(address) => format!(in alloc;
                "listen: failed: {address}: {error}"
            ).ok(),
            ApplicationAddress::None => format!(in alloc; "listen: failed: {error}").ok(),
        },
    )
}

/// Returns the suffix of the path that a socket error is about.
///
/// A socket is made in a folder with this suffix, and only making that fails because something is
/// there.
fn suffix_of(error: &io::Error) -> &'static str {
    match error.kind() {
        ErrorKind::AlreadyExists | ErrorKind::DirectoryNotEmpty => ".new",
        _ => "",
    }
}

/// Begins the capture, if any: only once nothing else can stop the start.
pub(crate) fn begin_capture<R: System>(
    session: &mut Session<'_, R>,
    options: &HostOptions<'_>,
) -> Result<(), Stop> {
    match session.record(options.files.capture, options.files.capture_size) {
        Ok(()) => Ok(()),
        Err(_) => Err(Stop::File),
    }
}
