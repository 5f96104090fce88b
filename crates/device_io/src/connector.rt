//! The connector, which reaches a controller.

ghost use Rattle.std.specs.Prelude.{◌≡◌, ◌↔◌, ◌⊎◌, IsTrue};
ghost use Rattle.device_io.specs.Connector.{is_tried};

use crate::missed::Missed;
use crate::poller::{Poller, Source};
use crate::transport::Transport;
use std::fs::{File, Files, TryLockError};
use std::io;
use std::io::ErrorKind;
use std::net::{Net, SocketAddr, TcpListener, TcpStream};
use std::os::unix::fs::MetadataExt;

/// Time limit for a connection attempt, in milliseconds.
pub const CONNECT_TIME: u64 = 3_000;

/// Time between attempts, in milliseconds.
pub const RETRY_TIME: u64 = 500;

/// Time between attempts to accept a controller, in milliseconds.
pub const ACCEPT_TIME: u64 = 1_000;

/// The user ID of root.
const ROOT: u32 = 0;

/// A way to reach a controller.
#[derive(Drop)]
pub enum Connector<'a> {
    Listen(TcpListener),
    Connect(SocketAddr),
    Serial(&'a str),
}

/// The result of an attempt.
#[derive(Drop)]
pub(crate) enum Reach {
    /// Nobody connects now.
    Nobody,
    /// A connection is being made.
    Begun(Transport),
    There(Transport),
    Missed(Missed),
    /// It is lost again: the system cannot wait for it.
    Unwatched,
}

impl Connector<'_> {
    /// Tries to reach a controller, without waiting, and begins to watch it.
    pub(crate) fn reach<R: Files<File = File> + Net<Listener = TcpListener, Stream = TcpStream>>(
        &self,
        rt: &R,
        poller: &Poller,
    ) -> Reach {
        let reached = match self {
            Connector::Listen(listener) => accept(listener),
            Connector::Connect(address) => connect(rt, *address),
            Connector::Serial(path) => open_line(rt, path),
        };
        match reached {
            Ok(reach) => {
                listen_again(self, poller);
                watched(reach, poller)
            }
            // A controller that cannot be accepted keeps waiting.
            Err(missed) => Reach::Missed(missed),
        }
    }

    /// Returns true if the device has to retry until it reaches a controller.
    pub fn is_tried(&self) -> bool
        ensures tried { result ≡ is_tried self.now }
    {
        !matches!(self, Connector::Listen(_))
    }
}

/// Makes the poller report waiting controllers. If that fails, it reports only the next one.
pub(crate) fn listen_again(connector: &Connector<'_>, poller: &Poller) {
    if let Connector::Listen(listener) = connector {
        let _ = poller.again(listener, Source::Controllers);
    }
}

/// Begins to watch what was reached.
fn watched(reached: Reach, poller: &Poller) -> Reach {
    let watched = match &reached {
        Reach::There(transport) => poller.watch(transport, Source::Controller),
        Reach::Begun(transport) => poller.watch(transport, Source::NewController),
        _ => return reached,
    };
    match watched {
        Ok(()) => reached,
        Err(_) => Reach::Unwatched,
    }
}

fn accept(listener: &TcpListener) -> Result<Reach, Missed> {
    match listener.accept() {
        Ok((socket, _)) => Ok(Reach::There(transport_of(socket)?)),
        Err(error) => nobody(&error),
    }
}

fn connect<R: Net>(rt: &R, address: SocketAddr) -> Result<Reach, Missed> {
    match mio::net::TcpStream::connect(rt, address) {
        Ok(socket) => Ok(Reach::Begun(transport_of(TcpStream::from(socket))?)),
        Err(error) => Err(Missed::of(&error)),
    }
}

fn transport_of(socket: TcpStream) -> Result<Transport, Missed> {
    match Transport::of_socket(socket) {
        Ok(transport) => Ok(transport),
        Err(error) => Err(Missed::of(&error)),
    }
}

/// Opens a serial line. Reads and writes nothing of it before the device has it for itself.
fn open_line<R: Files<File = File>>(rt: &R, path: &str) -> Result<Reach, Missed> {
    let line = match File::options().read(true).write(true).open(rt, path) {
        Ok(line) => line,
        Err(error) => return Err(Missed::of(&error)),
    };
    claim(&line)?;
    match Transport::of_line(line) {
        Ok(transport) => Ok(Reach::There(transport)),
        Err(error) => Err(Missed::of(&error)),
    }
}

/// Takes an open line for this device. Fails if its owner is not trusted, or another program has
/// locked it.
///
/// The owner is that of the open line, since the path may lead to another line after the opening.
/// A line that the system cannot lock is taken too.
fn claim(line: &File) -> Result<(), Missed> {
    let owner = match line.metadata() {
        Ok(found) => found.uid(),
        Err(error) => return Err(Missed::of(&error)),
    };
    if !is_trusted(owner, libc::geteuid()) {
        return Err(Missed::OtherUser);
    }
    match line.try_lock() {
        Err(TryLockError::WouldBlock) => Err(Missed::Taken),
        Ok(()) | Err(TryLockError::Error(_)) => Ok(()),
    }
}

/// Returns true if a controller may be served on a line of `owner`: the user of this process, or
/// root.
fn is_trusted(owner: u32, own: u32) -> bool
    ensures { IsTrue result ↔ (owner ≡ own) ⊎ (owner ≡ 0) }
{
    owner == own || owner == ROOT
}

/// Maps an error to `Nobody` if only no controller connects yet.
fn nobody(error: &io::Error) -> Result<Reach, Missed> {
    match error.kind() {
        ErrorKind::WouldBlock | ErrorKind::Interrupted => Ok(Reach::Nobody),
        _ => Err(Missed::of(error)),
    }
}
