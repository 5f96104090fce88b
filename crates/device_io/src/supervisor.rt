//! The supervisor that has started the program, such as systemd: it is notified by datagrams
//! (sd_notify(3)).
//!
//! Nothing waits for it. A datagram that it does not take is dropped.

ghost use Rattle.std.specs.Prelude.{◌≡◌, ◌≤◌, is_some, take, IfSome};
ghost use Rattle.device_io.specs.Notify.{address_of, names_a_socket};

use crate::watchdog::Watchdog;
use libc::net::{
    _SS_SIZE, AF_UNIX, MSG_DONTWAIT, MSG_NOSIGNAL, SOCK_CLOEXEC, SOCK_DGRAM, SOCK_NONBLOCK,
};
use libc::types::timespec;
use std::rt::Env;
use std::str;

/// The most octets of the name of a socket (unix(7)).
const MOST_NAME: usize = 108;

/// The address of a Unix socket.
#[derive(Clone, Copy)]
struct Address {
    octets: [u8; _SS_SIZE],
    length: usize,
}

/// The supervisor of the program, if there is one.
#[derive(Clone, Copy)]
pub struct Supervisor {
    address: Option<Address>,
    watchdog: Watchdog,
}

impl Supervisor {
    /// Returns the supervisor that the environment names: by `NOTIFY_SOCKET` a path from the root,
    /// or a name after `@`. `WATCHDOG_USEC` is the time of its watchdog, unless `WATCHDOG_PID` is
    /// another process.
    pub fn of<R: Env>(rt: &R) -> Supervisor {
        let address = address_in(rt);
        let watchdog = match address {
            Some(_) => watchdog_time(rt),
            None => None,
        };
        Supervisor {
            address,
            watchdog: Watchdog::new(watchdog),
        }
    }

    /// Returns true if there is a supervisor.
    pub fn is_there(&self) -> bool {
        self.address.is_some()
    }

    /// Sends it a text of lines such as `READY=1`.
    pub fn notify(&self, text: &str) {
        if let Some(address) = &self.address {
            send(address, text.as_bytes());
        }
    }

    /// Returns when its watchdog is fed next, in milliseconds.
    pub fn due(&self) -> Option<u64> {
        self.watchdog.due()
    }

    /// Feeds its watchdog if it is time.
    pub fn feed(&mut self, now: u64) {
        if self.watchdog.is_fed(now) {
            self.notify("WATCHDOG=1");
        }
    }
}

fn address_in<R: Env>(rt: &R) -> Option<Address> {
    let mut buffer = [0; MOST_NAME];
    let count = rt.var("NOTIFY_SOCKET", &mut buffer).ok()?;
    address_of(buffer.get(..count)?)
}

/// Returns the address of the socket that a text names, if it names one.
fn address_of(text: &[u8]) -> Option<Address>
    ensures some { is_some result ≡ names_a_socket text.now }
    ensures octets { IfSome result
        (λ address. take address.length address.octets ≡ address_of text.now) }
    ensures within { IfSome result (λ address. address.length ≤ _SS_SIZE) }
{
    let [first, rest @ ..] = text else {
        return None;
    };
    if !(*first == b'/' || *first == b'@') || rest.len() >= MOST_NAME {
        return None;
    }
    let mut octets = [0; _SS_SIZE];
    octets[0] = 1;
    octets[2] = if *first == b'@' { 0 } else { *first };
    octets[3..3 + rest.len()].copy_from_slice(rest);
    Some(Address {
        octets,
        length: 3 + rest.len(),
    })
}

/// Returns the time of the watchdog of this process, in microseconds.
fn watchdog_time<R: Env>(rt: &R) -> Option<u64> {
    if let Some(process) = number_in(rt, "WATCHDOG_PID")
        && i32::try_from(process) != Ok(libc::getpid())
    {
        return None;
    }
    match number_in(rt, "WATCHDOG_USEC") {
        Some(micros) if micros > 0 => Some(micros),
        _ => None,
    }
}

fn number_in<R: Env>(rt: &R, name: &str) -> Option<u64> {
    let mut buffer = [0; 24];
    let count = rt.var(name, &mut buffer).ok()?;
    let text = str::from_utf8(buffer.get(..count)?).ok()?;
    text.parse::<u64>().ok()
}

/// Sends a datagram, by a socket of its own.
fn send(address: &Address, text: &[u8]) {
    let socket = unsafe {
        libc::net::socket(AF_UNIX, SOCK_DGRAM | SOCK_NONBLOCK | SOCK_CLOEXEC, 0)
    };
    if socket < 0 {
        return;
    }
    let length = address.length.min(_SS_SIZE) as u32;
    let flags = MSG_NOSIGNAL | MSG_DONTWAIT;
    let _ = unsafe { libc::net::sendto(socket, text, flags, &address.octets, length) };
    libc::close(socket);
}

/// Returns the time of the machine's clock that only goes on, in microseconds, or 0 without one.
pub fn monotonic_micros() -> u64 {
    let mut time = timespec {
        tv_sec: 0,
        tv_nsec: 0,
    };
    if libc::clock_gettime(libc::CLOCK_MONOTONIC, &mut time) != 0 {
        return 0;
    }
    let seconds = u64::try_from(time.tv_sec).unwrap_or(0);
    let micros = u64::try_from(time.tv_nsec).unwrap_or(0) / 1_000;
    seconds.saturating_mul(1_000_000).saturating_add(micros)
}
