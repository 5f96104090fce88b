//! The stream to and from a controller. Reads and writes never wait.

ghost use Rattle.std.specs.Prelude.{◌≡◌, ◌≢◌, is_err, true, Err, IfErr, IfOk, None, Ok, Some};
ghost use Rattle.std.specs.IoError.{error_kind};

use crate::socket::{Retry, retry_after};
use crate::vanished::notice_vanished_peer;
use std::fs::File;
use std::io;
use std::io::{ErrorKind, Read, Write};
use std::net::TcpStream;
use std::os::fd::{AsRawFd, RawFd};

/// The size, and the largest number, of the reads that drop old bytes.
const OLD_OCTETS: usize = 1_024;

const OLD_READS: u32 = 128;

/// The transport of HCI packets to and from a controller.
#[derive(Drop)]
pub enum Transport {
    Socket(TcpStream),
    Serial(File),
}

impl Transport {
    /// Returns the transport of a connection.
    pub fn of_socket(socket: TcpStream) -> io::Result<Transport> {
        socket.set_nonblocking(true)?;
        socket.set_nodelay(true)?;
        Ok(Transport::Socket(socket))
    }

    /// Returns the transport of a serial line.
    ///
    /// Drops bytes that arrived before: they may begin in the middle of a packet.
    pub fn of_line(line: File) -> io::Result<Transport> {
        if os::set_nonblocking(line.as_raw_fd(), true) != 0 {
            return Err(io::Error::from(ErrorKind::Unsupported));
        }
        let mut line = line;
        drop_input(&mut line);
        Ok(Transport::Serial(line))
    }

    /// Returns why a connection is not made, if so. Call it once the socket is writable.
    pub fn connect_error(&self) -> Option<io::Error> {
        let Transport::Socket(socket) = self else {
            return None;
        };
        match socket.take_error() {
            Ok(None) => socket.peer_addr().err(),
            Ok(Some(error)) | Err(error) => Some(error),
        }
    }

    /// Makes reads fail if the peer is unreachable for `time` milliseconds.
    pub fn notice_vanished_peer(&self, time: u64) {
        if let Transport::Socket(socket) = self {
            notice_vanished_peer(socket.as_raw_fd(), time);
        }
    }

    /// Returns true if a read that does not fill its buffer has read everything.
    pub fn is_emptied(&self) -> bool {
        matches!(self, Transport::Socket(_))
    }

    /// Reads once. Returns `None` if nothing can be read yet, and 0 at the end.
    pub fn read(&mut self, buffer: &mut [u8]) -> io::Result<Option<usize>> {
        let read = match self {
            Transport::Socket(socket) => socket.read(buffer),
            Transport::Serial(line) => line.read(buffer),
        };
        read_of(read)
    }

    /// Writes a prefix of some bytes. Returns `None` if nothing fits yet.
    pub fn write(&mut self, octets: &[u8]) -> io::Result<Option<usize>> {
        let written = match self {
            Transport::Socket(socket) => socket.write(octets),
            Transport::Serial(line) => line.write(octets),
        };
        written_of(written)
    }
}

/// Returns the outcome of a read that does not wait.
fn read_of(read: io::Result<usize>) -> io::Result<Option<usize>>
    ensures read { IfOk read (λ count. result ≡ Ok (Some count)) }
    ensures interrupted { IfErr read (λ error. error_kind error ≡ ErrorKind.Interrupted
        → result ≡ Ok None) }
    ensures nothing { IfErr read (λ error. error_kind error ≡ ErrorKind.WouldBlock
        → result ≡ Ok None) }
    ensures failed { IfErr read (λ error. error_kind error ≢ ErrorKind.Interrupted
        → error_kind error ≢ ErrorKind.WouldBlock → result ≡ Err error) }
{
    match read {
        Ok(count) => Ok(Some(count)),
        Err(error) => match retry_after(&error) {
            Retry::Now | Retry::Later => Ok(None),
            Retry::Never => Err(error),
        },
    }
}

/// Returns the outcome of a write that does not wait.
fn written_of(written: io::Result<usize>) -> io::Result<Option<usize>>
    ensures none { IfOk written (λ count. count ≡ 0 → is_err result ≡ true) }
    ensures written { IfOk written (λ count. count ≢ 0 → result ≡ Ok (Some count)) }
    ensures interrupted { IfErr written (λ error. error_kind error ≡ ErrorKind.Interrupted
        → result ≡ Ok (Some 0)) }
    ensures full { IfErr written (λ error. error_kind error ≡ ErrorKind.WouldBlock
        → result ≡ Ok None) }
    ensures failed { IfErr written (λ error. error_kind error ≢ ErrorKind.Interrupted
        → error_kind error ≢ ErrorKind.WouldBlock → result ≡ Err error) }
{
    match written {
        Ok(0) => Err(io::Error::from(ErrorKind::WriteZero)),
        Ok(count) => Ok(Some(count)),
        Err(error) => match retry_after(&error) {
            Retry::Now => Ok(Some(0)),
            Retry::Later => Ok(None),
            Retry::Never => Err(error),
        },
    }
}

/// Drops the bytes that a line already has, up to the limit above.
fn drop_input(line: &mut File) {
    let mut buffer = [0; OLD_OCTETS];
    for _read in 0..OLD_READS {
        match line.read(&mut buffer) {
            Ok(count) if count > 0 => {}
            _ => return,
        }
    }
}

impl AsRawFd for Transport {
    fn as_raw_fd(&self) -> RawFd {
        match self {
            Transport::Socket(socket) => socket.as_raw_fd(),
            Transport::Serial(line) => line.as_raw_fd(),
        }
    }
}
