//! The sockets of applications.

ghost use Rattle.std.specs.Prelude.{◌≡◌, ◌≢◌, ◌≤◌, length, IfOk};
ghost use Rattle.std.specs.IoError.{error_kind};

use crate::poller::{Poller, Source};
use std::alloc::Global;
use std::fs::{DirBuilder, FileType, Files, Permissions};
use std::io::{ErrorKind, Read, Write};
use std::net::{Net, TcpListener, TcpStream};
use std::os::unix::fs::{DirBuilderExt, FileTypeExt, MetadataExt, PermissionsExt};
use std::os::unix::net::{UnixListener, UnixStream};
use std::{fs, io};

const OWNER_ALONE: u32 = 0o600;

/// The permission of a folder that only its owner may enter.
const OWNER_ALONE_ENTERS: u32 = 0o700;

/// The listener for applications.
#[derive(Drop)]
pub enum Listener {
    Path(UnixListener),
    Port(TcpListener),
}

impl Listener {
    /// Accepts the next application that connects, if any.
    ///
    /// After an error, applications that already wait are accepted later.
    pub fn accept(&self, poller: &Poller) -> io::Result<Option<Socket>> {
        match self {
            Listener::Path(listener) => accept_at_path(listener, poller),
            Listener::Port(listener) => accept_at_port(listener, poller),
        }
    }
}

/// The connection of an application.
#[derive(Drop)]
pub enum Socket {
    Path(UnixStream),
    Port(TcpStream),
}

impl Socket {
    /// Reads once and returns the number of bytes, 0 at the end.
    pub fn read(&mut self, buffer: &mut [u8]) -> io::Result<usize>
        ensures { IfOk result (λ count. count ≤ length buffer.old) }
    {
        match self {
            Socket::Path(stream) => stream.read(buffer),
            Socket::Port(stream) => stream.read(buffer),
        }
    }

    /// Writes a prefix of some bytes and returns its length.
    pub fn write(&mut self, octets: &[u8]) -> io::Result<usize>
        ensures { IfOk result (λ count. count ≤ length octets.now) }
    {
        match self {
            Socket::Path(stream) => stream.write(octets),
            Socket::Port(stream) => stream.write(octets),
        }
    }

    /// Begins to watch the connection.
    pub fn watch(&self, poller: &Poller) -> io::Result<()> {
        match self {
            Socket::Path(stream) => poller.watch(stream, Source::Application),
            Socket::Port(stream) => poller.watch(stream, Source::Application),
        }
    }
}

/// When to try again after an error.
#[derive(Clone, Copy)]
pub enum Retry {
    Now,
    Later,
    Never,
}

/// Returns when to try again after an error.
pub fn retry_after(error: &io::Error) -> Retry
    ensures now { error_kind error.now ≡ ErrorKind.Interrupted → result ≡ Retry.Now }
    ensures later { error_kind error.now ≡ ErrorKind.WouldBlock → result ≡ Retry.Later }
    ensures never { error_kind error.now ≢ ErrorKind.Interrupted
        → error_kind error.now ≢ ErrorKind.WouldBlock → result ≡ Retry.Never }
{
    match error.kind() {
        ErrorKind::Interrupted => Retry::Now,
        ErrorKind::WouldBlock => Retry::Later,
        _ => Retry::Never,
    }
}

/// Listens at a path, at which only the owner may ever connect.
///
/// Replaces a socket of the same user at which nobody listens. The socket is made in a folder that
/// only the owner may enter, and then moved to its path.
pub fn bind_at_path<R: Files + Net>(rt: &R, alloc: Global, path: &str) -> io::Result<UnixListener> {
    if is_taken(rt, path)? {
        return Err(io::Error::from(ErrorKind::AddrInUse));
    }
    let folder = format!(in alloc; "{path}.new")?;
    let made = format!(in alloc; "{path}.new/s")?;
    make_folder(rt, folder.as_str(), made.as_str())?;
    let bound = bind(rt, made.as_str(), path);
    if bound.is_err() {
        let _ = fs::remove_file(rt, made.as_str());
    }
    let _ = fs::remove_dir(rt, folder.as_str());
    bound
}

/// Returns true unless a path is free or has an unused socket of the same user.
fn is_taken<R: Files + Net>(rt: &R, path: &str) -> io::Result<bool> {
    let found = match fs::symlink_metadata(rt, path) {
        Ok(found) => found,
        Err(error) if error.kind() == ErrorKind::NotFound => return Ok(false),
        Err(error) => return Err(error),
    };
    if !found.file_type().is_socket() || found.uid() != libc::geteuid() {
        return Ok(true);
    }
    match connect_at_path(rt, path) {
        Err(error) if error.kind() == ErrorKind::ConnectionRefused => Ok(false),
        _ => Ok(true),
    }
}

/// Connects to a socket without waiting. The connection does not wait either.
///
/// Errors: `WouldBlock` if the listener has no capacity for one more connection.
pub fn connect_at_path<R: Net>(rt: &R, path: &str) -> io::Result<UnixStream> {
    Ok(UnixStream::from(mio::net::UnixStream::connect(rt, path)?))
}

/// Makes a folder that only its owner may enter.
///
/// Removes first a folder of the same user that was left behind. Fails if the path has anything
/// else.
fn make_folder<R: Files>(rt: &R, folder: &str, made: &str) -> io::Result<()> {
    if let Some(kind) = own_kind(rt, folder)
        && kind.is_dir()
    {
        remove_socket(rt, made)?;
        fs::remove_dir(rt, folder)?;
    }
    DirBuilder::new()
        .mode(OWNER_ALONE_ENTERS)
        .create(rt, folder)
}

fn remove_socket<R: Files>(rt: &R, path: &str) -> io::Result<()> {
    match own_kind(rt, path) {
        Some(kind) if kind.is_socket() => fs::remove_file(rt, path),
        _ => Ok(()),
    }
}

/// Returns the kind of a file of this user, links not followed.
fn own_kind<R: Files>(rt: &R, path: &str) -> Option<FileType> {
    let found = fs::symlink_metadata(rt, path).ok()?;
    if found.uid() == libc::geteuid() {
        Some(found.file_type())
    } else {
        None
    }
}

fn bind<R: Files + Net>(rt: &R, made: &str, path: &str) -> io::Result<UnixListener> {
    let listener = UnixListener::bind(rt, made)?;
    fs::set_permissions(rt, made, Permissions::from_mode(OWNER_ALONE))?;
    listener.set_nonblocking(true)?;
    fs::rename(rt, made, path)?;
    Ok(listener)
}

fn accept_at_path(listener: &UnixListener, poller: &Poller) -> io::Result<Option<Socket>> {
    let accepted = match listener.accept() {
        Ok((stream, _)) => line_at_path(stream)?,
        Err(error) => nobody(error)?,
    };
    poller.again(listener, Source::Applications)?;
    Ok(accepted)
}

fn line_at_path(stream: UnixStream) -> io::Result<Option<Socket>> {
    stream.set_nonblocking(true)?;
    Ok(Some(Socket::Path(stream)))
}

fn accept_at_port(listener: &TcpListener, poller: &Poller) -> io::Result<Option<Socket>> {
    let accepted = match listener.accept() {
        Ok((stream, _)) => line_at_port(stream)?,
        Err(error) => nobody(error)?,
    };
    poller.again(listener, Source::Applications)?;
    Ok(accepted)
}

fn line_at_port(stream: TcpStream) -> io::Result<Option<Socket>> {
    stream.set_nonblocking(true)?;
    stream.set_nodelay(true)?;
    Ok(Some(Socket::Port(stream)))
}

/// Maps an error to `None` if only no application connects yet.
fn nobody(error: io::Error) -> io::Result<Option<Socket>> {
    match retry_after(&error) {
        Retry::Now | Retry::Later => Ok(None),
        Retry::Never => Err(error),
    }
}
