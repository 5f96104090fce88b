//! The command `tell`, which sends a line to a device and prints the answer.

use gatt_commands::ShellFault;
use shell_args::Refusal;
use std::io::{ErrorKind, Read, Write};
use std::net::Shutdown;
use std::os::unix::net::UnixStream;
use std::time::{Duration, Instant};
use std::{io, thread};

/// Time limit for a whole answer, in seconds. A device may wait ten for its controller.
const PATIENCE: u64 = 20;

/// Time between attempts to connect, in milliseconds.
const RETRY_TIME: u64 = 50;

/// The most attempts to connect, whatever the clock shows.
const MOST_ATTEMPTS: u32 = 1_000;

/// The most bytes of an answer. A device has at most 8 connections and 4,096 subscriptions.
const MOST: usize = 1_048_576;

/// Sends a line to the device at a socket, prints its answer, and returns the exit status.
///
/// The status is 1 if the line is refused, and 2 if the device is not reached or does not answer.
pub(crate) fn tell_device(rt: &HostRuntime, socket: &str, words: &[&str]) -> u8 {
    for word in words {
        if word.as_bytes().contains(&b'\n') {
            // If this fails, the error cannot be reported at all.
            let _ = rt.eprintln("tell: a word has a line feed");
            return Refusal::Misunderstood.status();
        }
    }
    match exchange(rt, socket, words) {
        Ok(text) => print_answer(rt, socket, text.as_slice()),
        Err(error) => {
            complain(rt, socket, &error);
            gatt_commands::status(&ShellFault::Listen)
        }
    }
}

/// Prints why a device is not reached.
fn complain(rt: &HostRuntime, socket: &str, error: &io::Error) {
    let line = match error.kind() {
        ErrorKind::NotFound => format!(in rt.alloc(); "tell: {socket}: there is no such socket"),
        ErrorKind::ConnectionRefused => {
            format!(in rt.alloc(); "tell: {socket}: no device listens there")
        }
        ErrorKind::WouldBlock | ErrorKind::TimedOut => {
            format!(in rt.alloc(); "tell: {socket}: no answer in {PATIENCE} seconds")
        }
        _ => format!(in rt.alloc(); "tell: {socket}: {error}"),
    };
    if let Ok(line) = line {
        let _ = rt.eprintln(line.as_str());
    }
}

/// Sends a line to a device, and returns what it sends until it closes the connection.
fn exchange(rt: &HostRuntime, socket: &str, words: &[&str]) -> io::Result<Vec<u8>> {
    let mut line = Vec::new(rt.alloc());
    for word in words {
        if !line.is_empty() {
            line.extend_from_slice(b" ")?;
        }
        line.extend_from_slice(word.as_bytes())?;
    }
    line.extend_from_slice(b"\n")?;
    let start = Instant::now(rt)?;
    let mut stream = connect(rt, socket, start)?;
    stream.set_nonblocking(false)?;
    stream.set_write_timeout(Some(time_left(rt, start)?))?;
    stream.write_all(line.as_slice())?;
    stream.shutdown(Shutdown::Write)?;
    read_answer(rt, &mut stream, start)
}

/// Connects to a device, and tries again while its socket has no capacity for one more connection.
fn connect(rt: &HostRuntime, socket: &str, start: Instant) -> io::Result<UnixStream> {
    for _attempt in 0..MOST_ATTEMPTS {
        match device_io::connect_at_path(rt, socket) {
            Err(error) if error.kind() == ErrorKind::WouldBlock => {}
            connected => return connected,
        }
        time_left(rt, start)?;
        thread::sleep(rt, Duration::from_millis(RETRY_TIME));
    }
    Err(io::Error::from(ErrorKind::TimedOut))
}

/// Returns the time until the limit, or the error `TimedOut`.
fn time_left(rt: &HostRuntime, start: Instant) -> io::Result<Duration> {
    let limit = Duration::from_secs(PATIENCE);
    match limit.checked_sub(start.elapsed(rt)?) {
        Some(left) if !left.is_zero() => Ok(left),
        _ => Err(io::Error::from(ErrorKind::TimedOut)),
    }
}

/// Reads to the end of a connection, or up to the limit.
fn read_answer(rt: &HostRuntime, stream: &mut UnixStream, start: Instant) -> io::Result<Vec<u8>> {
    let mut text = Vec::new(rt.alloc());
    let mut buffer = [0; 1_024];
    for _read in 0..MOST {
        stream.set_read_timeout(Some(time_left(rt, start)?))?;
        let count = stream.read(&mut buffer)?;
        if count == 0 || text.len() >= MOST {
            break;
        }
        text.extend_from_slice(&buffer[..count])?;
    }
    Ok(text)
}

/// Prints an answer and returns the exit status.
///
/// The sender of a call becomes the application, and also receives notices, which are not printed.
fn print_answer(rt: &HostRuntime, socket: &str, text: &[u8]) -> u8 {
    let is_application = text.starts_with(b"+ started ");
    let mut is_answered = false;
    let mut is_refused = false;
    for line in text.split(|octet| *octet == b'\n') {
        if line.is_empty() || is_application && line.starts_with(b"+ ") {
            continue;
        }
        is_answered = true;
        is_refused = is_refusal(line);
        if print_line(rt, line).is_err() {
            return gatt_commands::status(&ShellFault::Unwritten);
        }
    }
    if !is_answered {
        if let Ok(line) = format!(in rt.alloc(); "tell: {socket}: no answer") {
            let _ = rt.eprintln(line.as_str());
        }
        return gatt_commands::status(&ShellFault::Listen);
    }
    u8::from(is_refused)
}

/// Returns true if the line is refused or not understood.
fn is_refusal(line: &[u8]) -> bool {
    line.starts_with(b"fault ") || line.starts_with(b"bad: ")
}

fn print_line(rt: &HostRuntime, line: &[u8]) -> io::Result<()> {
    let mut out = io::writer(rt);
    out.write_all(line)?;
    out.write_all(b"\n")
}
