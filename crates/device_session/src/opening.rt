//! Opens the sockets that the options of a device name.

use device_io::{Connector, Listener, Log, Poller, Recording, Source, bind_at_path};
use device_options::{ApplicationAddress, ControllerAddress};
use std::alloc::Global;
use std::fs::{File, Files};
use std::io;
use std::net::{Net, SocketAddr, TcpListener, TcpStream};
use std::os::unix::net::UnixListener;
use std::time::Clock;

pub(crate) fn connector_to<'a, R: Net<Listener = TcpListener, Stream = TcpStream> + Clock + Eprint>(
    alloc: Global,
    log: &Log<'_, R>,
    poller: &Poller,
    address: ControllerAddress<'a>,
) -> io::Result<Connector<'a>> {
    match address {
        ControllerAddress::Listen(address) => {
            let words = "listening for a controller:";
            let listener = listen(alloc, log, poller, address, Source::Controllers, words)?;
            Ok(Connector::Listen(listener))
        }
        ControllerAddress::Connect(address) => Ok(Connector::Connect(address)),
        ControllerAddress::Serial(path) => Ok(Connector::Serial(path)),
    }
}

pub(crate) fn listener_at<
    R: Net<Listener = TcpListener, Stream = TcpStream> + Files + Clock + Eprint,
>(
    alloc: Global,
    log: &Log<'_, R>,
    poller: &Poller,
    address: ApplicationAddress<'_>,
) -> io::Result<Option<Listener>> {
    match address {
        ApplicationAddress::None => Ok(None),
        ApplicationAddress::Path(path) => {
            let listener = listen_at_path(alloc, log, poller, path)?;
            Ok(Some(Listener::Path(listener)))
        }
        ApplicationAddress::Port(address) => {
            let words = "listening for an application:";
            let listener = listen(alloc, log, poller, address, Source::Applications, words)?;
            Ok(Some(Listener::Port(listener)))
        }
    }
}

/// Listens at a path, to which only the owner may connect.
///
/// Replaces an unused socket of the same user. Fails if anything else is there.
fn listen_at_path<R: Net + Files + Clock + Eprint>(
    alloc: Global,
    log: &Log<'_, R>,
    poller: &Poller,
    path: &str,
) -> io::Result<UnixListener> {
    let listener = bind_at_path(log.rt, alloc, path)?;
    poller.watch(&listener, Source::Applications)?;
    log.say_of("listening for an application:", path);
    Ok(listener)
}

fn listen<R: Net<Listener = TcpListener, Stream = TcpStream> + Clock + Eprint>(
    alloc: Global,
    log: &Log<'_, R>,
    poller: &Poller,
    address: SocketAddr,
    source: Source,
    words: &str,
) -> io::Result<TcpListener> {
    let listener = poller.listen(log.rt, address, source)?;
    say_address(alloc, log, words, &listener)?;
    Ok(listener)
}

fn say_address<R: Clock + Eprint>(
    alloc: Global,
    log: &Log<'_, R>,
    words: &str,
    listener: &TcpListener,
) -> io::Result<()> {
    let address = listener.local_addr()?;
    let text = format!(in alloc; "{address}")?;
    log.say_of(words, text.as_str());
    Ok(())
}

/// Begins a capture. Prints an error if the file cannot be created.
pub(crate) fn record_to<R: Files<File = File> + Eprint>(
    rt: &R,
    alloc: Global,
    path: &str,
    most: u64,
) -> io::Result<Recording> {
    let begun = Recording::begin(rt, path, most);
    if let Err(error) = &begun {
        tell_not_created(rt, alloc, path, error);
    }
    begun
}

fn tell_not_created(rt: &impl Eprint, alloc: Global, path: &str, error: &io::Error) {
    if let Ok(line) = format!(in alloc; "capture: cannot be created: {path}: {error}") {
        let _ = rt.eprintln(line.as_str());
    }
}
