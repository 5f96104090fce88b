//! The capture of the packets to and from the controller.

ghost use Rattle.std.specs.Prelude.{◌≡◌, ◌&&◌, ◌||◌, false, is_some, None};
ghost use Rattle.btsnoop.specs.Capture.{fault_of_next};
ghost use Rattle.device_io.specs.Recording.{fault_of, words_of};

use crate::bounded::Bounded;
use crate::file_size::largest_file;
use crate::log::Log;
use btsnoop::{Capture, CaptureFault};
use std::fs::{File, Files};
use std::io;
use std::os::fd::AsRawFd;
use std::os::unix::fs::OpenOptionsExt;
use std::time::Clock;

const OWNER_ALONE: u32 = 0o600;

/// A capture, if one is written.
#[derive(Drop)]
pub struct Recording {
    capture: Option<Capture<Bounded>>,
    is_told: bool,
}

impl Recording {
    /// Returns a recording without a capture.
    pub fn none() -> Recording
        ensures none { result.capture ≡ None }
        ensures told { result.is_told ≡ false }
    {
        Recording {
            capture: None,
            is_told: false,
        }
    }

    /// Begins a capture of at most `most` bytes, which replaces the file at a path.
    ///
    /// A file is also bounded by the limit that the system sets for files, a pipe is not.
    /// Only the owner may read a new file, because the packets contain keys.
    pub fn begin<R: Files<File = File>>(rt: &R, path: &str, most: u64) -> io::Result<Recording> {
        let file = File::options()
            .write(true)
            .create(true)
            .truncate(true)
            .mode(OWNER_ALONE)
            .open(rt, path)?;
        // Never waits for a pipe that is not read.
        os::set_nonblocking(file.as_raw_fd(), true);
        let most = if file.metadata()?.is_file() {
            most.min(largest_file())
        } else {
            most
        };
        Ok(Recording {
            capture: Some(Capture::begin(Bounded::new(file, most))),
            is_told: false,
        })
    }

    /// Records octets to the controller.
    pub fn went<R: Clock + Eprint>(&mut self, octets: &[u8], log: &Log<'_, R>) {
        if let Some(capture) = &mut self.capture {
            capture.went(octets, log.micros());
            self.tell(log);
        }
    }

    /// Records octets from the controller.
    pub fn came<R: Clock + Eprint>(&mut self, octets: &[u8], log: &Log<'_, R>) {
        if let Some(capture) = &mut self.capture {
            capture.came(octets, log.micros());
            self.tell(log);
        }
    }

    /// Begins the stream of the next controller.
    pub fn next_stream(&mut self)
        // A fault of the packets ends with their stream. A capture that cannot be written stays so.
        ensures fault { fault_of self.new ≡ fault_of_next (fault_of self.old) }
        ensures told { self.new.is_told ≡ (self.old.is_told && is_some (fault_of self.new)) }
    {
        if let Some(capture) = &mut self.capture {
            capture.next_stream();
        }
        self.is_told = self.is_told && self.fault().is_some();
    }

    /// Returns why no more packets are recorded, if there was a fault.
    fn fault(&self) -> Option<CaptureFault>
        ensures { result ≡ fault_of self.now }
    {
        match &self.capture {
            Some(capture) => capture.fault(),
            None => None,
        }
    }

    /// Logs once why recording has stopped.
    fn tell<R: Clock + Eprint>(&mut self, log: &Log<'_, R>)
        ensures told { self.new.is_told ≡ (self.old.is_told || is_some (fault_of self.old)) }
        ensures capture { self.new.capture ≡ self.old.capture }
    {
        let Some(capture) = &self.capture else {
            return;
        };
        let Some(fault) = capture.fault() else {
            return;
        };
        if !self.is_told {
            log.say(words_of(fault, capture.sink().is_full()));
        }
        self.is_told = true;
    }
}

fn words_of(fault: CaptureFault, is_full: bool) -> &'static str
    ensures { result.now ≡ words_of fault is_full }
{
    match fault {
        CaptureFault::Packet => "capture: no packet of at most 1029 octets begins so",
        CaptureFault::Write if is_full => "capture: full: no more packets are recorded",
        CaptureFault::Write => "capture: not written any more",
    }
}
