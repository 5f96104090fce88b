//! The places of the controller and of the application.

ghost use Rattle.std.specs.Prelude.{IfOk};
ghost use Rattle.std.specs.Net.Grammar.{IsSocketText};
ghost use Rattle.device_options.specs.Places.{IsApplicationAt, IsControllerAt};

use std::net::SocketAddr;

/// The longest path of an application's socket, in bytes.
///
/// It is made at a path with six bytes more, and Linux has space for 107.
const LONGEST_PATH: usize = 101;

/// The address of a controller.
#[derive(Clone, Copy)]
pub enum ControllerAddress<'a> {
    /// The controller connects to this address.
    Listen(SocketAddr),
    /// The controller listens at this address.
    Connect(SocketAddr),
    Serial(&'a str),
}

/// The place at which an application connects.
#[derive(Clone, Copy)]
pub enum ApplicationAddress<'a> {
    None,
    Path(&'a str),
    Port(SocketAddr),
}

pub(crate) fn read_controller<'a>(
    listen: Option<&str>,
    connect: Option<&str>,
    serial: Option<&'a str>,
) -> Result<ControllerAddress<'a>, &'static str>
    ensures at { IfOk result (IsControllerAt listen.entry connect.entry serial.entry) }
{
    match (listen, connect, serial) {
        (Some(address), None, None) => {
            let wrong =
                "--listen: an IP address and a port, such as 127.0.0.1:5000, and no host name";
            Ok(ControllerAddress::Listen(read_socket_address(address, wrong)?))
        }
        (None, Some(address), None) => {
            let wrong =
                "--connect: an IP address and a port, such as 127.0.0.1:5000, and no host name";
            Ok(ControllerAddress::Connect(read_socket_address(address, wrong)?))
        }
        (None, None, Some(path)) => Ok(ControllerAddress::Serial(path)),
        _ => Err("one of --listen, --connect and --serial is needed, and no more"),
    }
}

pub(crate) fn read_application<'a>(
    path: Option<&'a str>,
    port: Option<&str>,
) -> Result<ApplicationAddress<'a>, &'static str>
    ensures at { IfOk result (IsApplicationAt path.entry port.entry) }
{
    match (path, port) {
        (None, None) => Ok(ApplicationAddress::None),
        (Some(path), None) if path.is_empty() || path.len() > LONGEST_PATH => {
            Err("--application: the path of a socket, of 1 to 101 bytes")
        }
        (Some(path), None) => Ok(ApplicationAddress::Path(path)),
        (None, Some(address)) => {
            let wrong =
                "--application-port: an IP address and a port, such as 127.0.0.1:5000, and no host name";
            Ok(ApplicationAddress::Port(read_socket_address(address, wrong)?))
        }
        (Some(_), Some(_)) => Err("--application and --application-port: one of them is enough"),
    }
}

fn read_socket_address(word: &str, wrong: &'static str) -> Result<SocketAddr, &'static str>
    ensures { IfOk result (IsSocketText word.now) }
{
    match word.parse::<SocketAddr>() {
        Ok(address) => Ok(address),
        Err(_) => Err(wrong),
    }
}
