//! The clock of the program, and its log on standard error.
//!
//! Each event is one line, with the time of day in UTC unless systemd's journal adds the time. The
//! program never waits for the reader of the log: it drops lines and counts them.

ghost use Rattle.std.specs.Prelude.{◌≡◌, ◌++◌, ◌<◌, ℕ, false, length, take, Some};
ghost use Rattle.jiff_core.specs.DateTime.{civil_nanos};
ghost use Rattle.jiff_core.specs.declared.civil.datetime.DateTime.{DateTime};
ghost use Rattle.jiff_fmt.specs.Text.{datetime_text, zulu_text};

use crate::file_size::fits_standard_error;
use crate::standard::Standard;
use crate::terminal::{STANDARD_ERROR, Terminal};
use arrayvec::ArrayString;
use jiff::Timestamp;
use jiff::fmt::temporal::DateTimePrinter;
use libc::net::POLLOUT;
use libc::types::{pollfd, timespec};
use std::alloc::Global;
use std::cell::Cell;
use std::fs::{File, Files};
use std::os::unix::fs::MetadataExt;
use std::rt::Env;
use std::time::{Clock, SystemTime, UNIX_EPOCH};
use std::{fs, io};

/// CLOCK_BOOTTIME of Linux, which counts while the machine is suspended.
const SINCE_BOOT: i32 = 7;

/// The most bytes of a line of the log, with its line feed.
///
/// It is PIPE_BUF of Linux: a ready pipe accepts such a line without waiting.
const LONGEST: usize = 4_096;

/// The clock of the program, and its log.
#[derive(Drop)]
pub struct Log<'a, R> {
    pub rt: &'a R,
    pub(crate) alloc: Global,
    /// When the program began, in milliseconds since the machine started.
    begun: u64,
    dropped: Cell<u64>,
    terminal: Option<Terminal>,
    is_journal: bool,
    _standard: Standard,
}

impl<'a, R: Files<File = File> + Env> Log<'a, R> {
    /// Starts the log and its clock. Call it before any file is opened.
    ///
    /// As long as the log lives, no other file gets a standard descriptor that was closed.
    pub fn new(rt: &'a R, alloc: Global) -> io::Result<Log<'a, R>> {
        let standard = Standard::open(rt);
        Ok(Log {
            rt,
            alloc,
            begun: since_boot(),
            dropped: Cell::new(0),
            terminal: Terminal::open(rt),
            is_journal: is_journal(rt, alloc),
            _standard: standard,
        })
    }
}

impl<R: Clock + Eprint> Log<'_, R> {
    /// Returns the time since `new`, in milliseconds, suspended time included.
    pub fn now(&self) -> u64 {
        since_boot().saturating_sub(self.begun)
    }

    /// Returns the time since the start of 1970, in microseconds.
    pub fn micros(&self) -> u64 {
        let Ok(now) = SystemTime::now(self.rt) else {
            return 0;
        };
        match now.duration_since(UNIX_EPOCH) {
            Ok(since) => since.as_micros().min(0xFFFF_FFFF_FFFF_FFFF) as u64,
            Err(_) => 0,
        }
    }

    /// Writes a line, after the number of dropped lines if any. Drops it if the reader accepts
    /// nothing now.
    pub fn say(&self, words: &str) {
        if !(self.tell_dropped() && self.write(words)) {
            self.dropped.set(self.dropped.get().saturating_add(1));
        }
    }

    /// Writes the number of dropped lines, if any. Returns false if that failed.
    fn tell_dropped(&self) -> bool {
        let count = self.dropped.get();
        if count == 0 {
            return true;
        }
        let is_told = match format!(in self.alloc; ".. {count} lines of the log dropped") {
            Ok(line) => self.write(line.as_str()),
            Err(_) => false,
        };
        if is_told {
            self.dropped.set(0);
        }
        is_told
    }

    /// Writes a line, with the time if needed. Returns true if it was written.
    fn write(&self, words: &str) -> bool {
        if !takes_bytes() {
            return false;
        }
        if self.is_journal {
            return self.write_line(front_of(words));
        }
        let moment = time_of_day(self.rt);
        let time = moment.as_str();
        match format!(in self.alloc; "{time} {words}") {
            Ok(line) => self.write_line(front_of(line.as_str())),
            Err(_) => false,
        }
    }

    fn write_line(&self, line: &str) -> bool {
        if !fits_standard_error(line.len().saturating_add(1)) {
            return false;
        }
        let Some(terminal) = &self.terminal else {
            return self.rt.eprintln(line).is_ok();
        };
        match format!(in self.alloc; "{line}\n") {
            Ok(line) => terminal.write(line.as_bytes()),
            Err(_) => false,
        }
    }

    /// Writes a line of two parts.
    pub fn say_of(&self, words: &str, what: &str) {
        if let Ok(line) = format!(in self.alloc; "{words} {what}") {
            self.say(line.as_str());
        }
    }
}

/// Returns true if systemd's journal reads standard error.
///
/// JOURNAL_STREAM then has the device and the inode of that stream, in decimal.
fn is_journal<R: Files<File = File> + Env>(rt: &R, alloc: Global) -> bool {
    let mut buffer = [0; 64];
    let Ok(count) = rt.var("JOURNAL_STREAM", &mut buffer) else {
        return false;
    };
    let Ok(found) = fs::metadata(rt, STANDARD_ERROR) else {
        return false;
    };
    let (device, inode) = (found.dev(), found.ino());
    match format!(in alloc; "{device}:{inode}") {
        Ok(stream) => buffer.get(..count) == Some(stream.as_bytes()),
        Err(_) => false,
    }
}

/// Returns true if a write to standard error does not wait.
fn takes_bytes() -> bool {
    let mut asked = [pollfd {
        fd: libc::STDERR_FILENO,
        events: POLLOUT,
        revents: 0,
    }];
    libc::net::poll(&mut asked, 0) > 0
}

/// Returns the prefix of a text that fits a line, cut between two characters.
fn front_of(text: &str) -> &str
    ensures front { (end : ℕ) × (result.now ≡ take end text.now) }
    ensures fits { length result.now < LONGEST }
{
    let mut end = LONGEST - 1;
    if text.len() <= end {
        return text;
    }
    for _byte in 0..4 {
        if let Some(front) = text.get(..end) {
            return front;
        }
        end = end.saturating_sub(1);
    }
    ""
}

/// Returns the time since the machine started, in milliseconds, or 0 without such a clock.
fn since_boot() -> u64 {
    let mut time = timespec {
        tv_sec: 0,
        tv_nsec: 0,
    };
    if libc::clock_gettime(SINCE_BOOT, &mut time) != 0 {
        return 0;
    }
    let seconds = u64::try_from(time.tv_sec).unwrap_or(0);
    let millis = u64::try_from(time.tv_nsec).unwrap_or(0) / 1_000_000;
    seconds.saturating_mul(1_000).saturating_add(millis)
}

/// Returns the time of day, or the start of 1970 without a clock.
fn time_of_day(clock: &impl Clock) -> ArrayString<33> {
    match Timestamp::now(clock) {
        Ok(now) => moment_text(now),
        Err(_) => moment_text(Timestamp::UNIX_EPOCH),
    }
}

/// Returns a moment in UTC as RFC 3339 writes it. Milliseconds are truncated.
fn moment_text(moment: Timestamp) -> ArrayString<33>
    ensures { (utc : DateTime) × (civil_nanos utc ≡ moment.nanosecond)
        × (result.bytes ≡ datetime_text false 84 (Some 3) utc ++ zulu_text false) }
{
    DateTimePrinter::new()
        .precision(Some(3))
        .timestamp_text(moment.to_plain())
}
