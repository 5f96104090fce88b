//! The poller, which waits until something is ready.

ghost use Rattle.std.specs.Prelude.{◌≡◌, IfOk};
ghost use Rattle.mio.specs.Events.{items};
ghost use Rattle.mio.specs.Interest.{is_readable, is_writable};
ghost use Rattle.device_io.specs.Poller.{nothing_ready, ready_of, token_of, waits_to_read, waits_to_write, with_event, CountsForItsSource};

use mio::event::Event;
use mio::unix::SourceFd;
use mio::{Events, Interest, Poll, Token};
use std::alloc::Global;
use std::io;
use std::net::{Net, SocketAddr, TcpListener, TcpStream};
use std::os::fd::{AsRawFd, RawFd};
use std::time::Duration;

/// A kind of watched socket.
#[derive(Clone, Copy)]
pub enum Source {
    Controller,
    /// The controller while bytes wait for it.
    FullController,
    /// The controller while a connection is being made.
    NewController,
    /// The listener for controllers.
    Controllers,
    Application,
    /// The listener for applications.
    Applications,
}

impl Source {
    fn token(self) -> Token
        ensures token { result.0 ≡ token_of self }
    {
        Token(match self {
            Source::Controller | Source::FullController | Source::NewController => 0,
            Source::Controllers => 1,
            Source::Application => 2,
            Source::Applications => 3,
        })
    }
}

/// The operations for which the controller is ready.
#[derive(Clone, Copy)]
pub struct ControllerReady {
    pub is_readable: bool,
    /// It accepts more bytes.
    pub takes_more: bool,
    /// Nothing arrives after the bytes that can be read now.
    pub is_ending: bool,
}

/// The sockets that are ready.
#[derive(Clone, Copy)]
pub struct Ready {
    pub controller: ControllerReady,
    /// A controller connects.
    pub controllers: bool,
    /// The application can be read or accepts more bytes.
    pub application: bool,
    /// An application connects.
    pub applications: bool,
}

impl Ready {
    /// Returns that nothing is ready.
    fn nothing() -> Ready
        ensures { result ≡ nothing_ready }
    {
        Ready {
            controller: ControllerReady {
                is_readable: false,
                takes_more: false,
                is_ending: false,
            },
            controllers: false,
            application: false,
            applications: false,
        }
    }

    /// Notes an event.
    #[tactic(auto, using(crate::proofs::Sources::counts_for_its_source))]
    fn note(&mut self, event: &Event)
        ensures noted { self.new ≡ with_event self.old event.now }
        ensures source { CountsForItsSource }
    {
        match event.token().0 {
            0 => {
                let is_over = event.is_read_closed() || event.is_error();
                self.controller = ControllerReady {
                    is_readable: event.is_readable() || is_over,
                    takes_more: event.is_writable() || event.is_error(),
                    is_ending: event.is_read_closed(),
                };
            }
            1 => self.controllers = true,
            2 => self.application = true,
            _ => self.applications = true,
        }
    }
}

/// Waits for sockets.
#[derive(Drop)]
pub struct Poller {
    poll: Poll,
    events: Events,
}

impl Poller {
    /// Returns a poller that watches nothing yet.
    pub fn new(alloc: Global, net: &impl Net) -> io::Result<Poller> {
        Ok(Poller {
            poll: Poll::new(net)?,
            events: Events::with_capacity(alloc, 8)?,
        })
    }

    /// Begins to watch a socket.
    pub fn watch(&self, socket: &impl AsRawFd, source: Source) -> io::Result<()> {
        let fd: RawFd = socket.as_raw_fd();
        self.poll
            .registry()
            .register(&mut SourceFd(&fd), source.token(), interest(source))
    }

    /// Listens at an address for controllers or applications.
    pub fn listen<R: Net<Listener = TcpListener, Stream = TcpStream>>(
        &self,
        rt: &R,
        address: SocketAddr,
        source: Source,
    ) -> io::Result<TcpListener> {
        let listener = TcpListener::bind(rt, address)?;
        listener.set_nonblocking(true)?;
        self.watch(&listener, source)?;
        Ok(listener)
    }

    /// Makes the poller report a socket again if it is still ready.
    pub fn again(&self, socket: &impl AsRawFd, source: Source) -> io::Result<()> {
        let fd: RawFd = socket.as_raw_fd();
        self.poll
            .registry()
            .reregister(&mut SourceFd(&fd), source.token(), interest(source))
    }

    /// Waits until something is ready or the timeout is over.
    pub fn wait(&mut self, timeout: Option<Duration>) -> io::Result<Ready>
        ensures ready { IfOk result (λ ready. ready ≡ ready_of (items self.new.events)) }
    {
        self.poll.poll(&mut self.events, timeout)?;
        Ok(ready_after(&self.events))
    }
}

/// Returns what is ready after some events.
fn ready_after(events: &Events) -> Ready
    ensures { result ≡ ready_of (items events.now) }
{
    let mut ready = Ready::nothing();
    for event in events.iter() {
        ready.note(event);
    }
    ready
}

fn interest(source: Source) -> Interest
    ensures reads { is_readable result ≡ waits_to_read source }
    ensures writes { is_writable result ≡ waits_to_write source }
{
    match source {
        Source::Application | Source::FullController => Interest::READABLE | Interest::WRITABLE,
        Source::NewController => Interest::WRITABLE,
        _ => Interest::READABLE,
    }
}
