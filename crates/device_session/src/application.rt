//! The sockets of the application and its visitor. Their seats decide what is read, written and
//! closed. All times are in milliseconds.

ghost use Rattle.std.specs.Prelude.{◌≡◌, ◌&&◌, filter, is_some, not, IfErr, IfOk};
ghost use Rattle.device_session.specs.Application as spec;
ghost use Rattle.device_session.specs.Seats.{has_seat, outcome_of_attending};

use crate::incoming::{MOST_READ, Read};
use crate::seats::{Outcome, Seats};
use device_io::{Listener, Poller, Retry, Socket, retry_after};
use std::alloc::Global;
use std::io;

/// The most bytes of a write. The system takes more only once it has read a whole write.
const PIECE: usize = 1_024;

/// A socket, and the number by which the seats know it.
#[derive(Drop)]
struct Connection {
    id: u64,
    socket: Socket,
}

/// The listener for applications, and the sockets of the seats.
#[derive(Drop)]
pub(crate) struct Application {
    listener: Option<Listener>,
    connections: Vec<Connection>,
    /// The number of the last connection.
    last: u64,
}

impl Application {
    pub(crate) fn none(alloc: Global) -> Application {
        Application {
            listener: None,
            connections: Vec::new(alloc),
            last: 0,
        }
    }

    pub(crate) fn listen(&mut self, listener: Option<Listener>) {
        self.listener = listener;
    }

    /// Accepts the next visitor, if there is a seat for it. Returns true if it did.
    pub(crate) fn accept(
        &mut self,
        seats: &mut Seats,
        poller: &Poller,
        now: u64,
    ) -> io::Result<bool>
        ensures knock { spec.IsKnock now seats.old seats.new }
        ensures accepted { IfOk result (λ is_accepted. is_accepted
            ≡ (is_some seats.new.visitor && not (is_some seats.old.visitor))) }
        ensures refused { IfErr result (λ _. seats.new.visitor ≡ seats.old.visitor) }
    {
        if !seats.knock() {
            return Ok(false);
        }
        let Some(socket) = accept_from(&self.listener, poller)? else {
            return Ok(false);
        };
        let is_remote = matches!(socket, Socket::Port(_));
        self.last = self.last.saturating_add(1);
        let id = self.last;
        self.connections.push(Connection { id, socket })?;
        seats.came(id, is_remote, now);
        Ok(true)
    }

    /// Serves the visitor. Returns true if it gets the seat of the application, now or later.
    pub(crate) fn attend(&mut self, seats: &mut Seats, now: u64) -> Outcome
        ensures outcome { result ≡ outcome_of_attending now seats.old }
        ensures attended { spec.IsAttended now seats.old seats.new }
    {
        let outcome = seats.attend(now);
        self.serve(seats, outcome);
        outcome
    }

    /// Serves the application.
    ///
    /// Before it gives its seat to another one, it gets what waits for it.
    pub(crate) fn fill(&mut self, seats: &mut Seats) -> Outcome
        ensures { spec.IsFilled seats.old result seats.new }
    {
        let leaves = seats.is_giving_place();
        self.flush_if(leaves, seats);
        let outcome = seats.fill();
        self.serve(seats, outcome);
        outcome
    }

    /// Does what the seats ask for, and closes the connections that have none.
    fn serve(&mut self, seats: &mut Seats, outcome: Outcome)
        ensures { spec.IsServed outcome seats.old seats.new }
    {
        if let Outcome::Reads(id) = outcome {
            self.read(seats, id);
        }
        self.close(seats);
    }

    /// Closes the connections that have no seat.
    pub(crate) fn close(&mut self, seats: &Seats)
        ensures { self.new.connections.items ≡ filter
            (λ connection. has_seat seats.now connection.id) self.old.connections.items }
    {
        self.connections
            .retain(|connection| seats.has(connection.id));
    }

    fn read(&mut self, seats: &mut Seats, id: u64)
        ensures { spec.IsArrival id seats.old seats.new }
    {
        let mut buffer = [0; MOST_READ];
        let read = match socket_of(&mut self.connections, id) {
            Some(socket) => match socket.read(&mut buffer) {
                Ok(0) => Read::Ended,
                Ok(count) => Read::Brought(&buffer[..count]),
                Err(error) => match retry_after(&error) {
                    Retry::Now => return,
                    Retry::Later => Read::Waits,
                    Retry::Never => Read::Failed,
                },
            },
            None => Read::Failed,
        };
        seats.arrived(id, read);
    }

    /// Writes what the application accepts.
    #[tactic(auto, using(crate::proofs::Writes::flushed_by, crate::proofs::Writes::flushed_nobody, crate::proofs::Writes::flushed_away))]
    pub(crate) fn flush(&mut self, seats: &mut Seats)
        ensures { spec.IsFlushed seats.old seats.new }
    {
        let Some(id) = seats.holder() else {
            return;
        };
        match socket_of(&mut self.connections, id) {
            Some(socket) => write_all(socket, seats, id),
            None => seats.deafen(id),
        }
    }

    fn flush_if(&mut self, writes: bool, seats: &mut Seats)
        ensures { spec.IsWrittenIf writes seats.old seats.new }
    {
        if writes {
            self.flush(seats);
        }
    }

    /// Cuts off an application that accepts nothing for too long. Returns true if it did.
    ///
    /// It may accept a little without an event of the poller, so this tries to write first.
    pub(crate) fn watch(&mut self, seats: &mut Seats, now: u64) -> bool
        ensures { spec.IsWatch now seats.old seats.new result }
    {
        let is_full = seats.is_full();
        self.flush_if(is_full, seats);
        seats.watch(now)
    }

    pub(crate) fn note_ready(&mut self, seats: &mut Seats)
        ensures { spec.IsReady seats.old seats.new }
    {
        seats.ready();
        self.flush(seats);
    }

    /// Answers the visitor. Closes it if it does not accept the whole answer at once.
    pub(crate) fn answer_visitor(&mut self, seats: &mut Seats, text: &[u8])
        ensures { spec.IsAnswered seats.old seats.new }
    {
        let Some(id) = seats.visitor() else {
            return;
        };
        let is_accepted = match socket_of(&mut self.connections, id) {
            Some(socket) => matches!(socket.write(text), Ok(count) if count == text.len()),
            None => false,
        };
        seats.answered(is_accepted);
    }
}

/// Accepts the next connection, and begins to watch it.
fn accept_from(listener: &Option<Listener>, poller: &Poller) -> io::Result<Option<Socket>> {
    let Some(listener) = listener else {
        return Ok(None);
    };
    let Some(socket) = listener.accept(poller)? else {
        return Ok(None);
    };
    socket.watch(poller)?;
    Ok(Some(socket))
}

fn socket_of(connections: &mut Vec<Connection>, id: u64) -> Option<&mut Socket> {
    let place = connections
        .iter()
        .position(|connection| connection.id == id)?;
    Some(&mut connections[place].socket)
}

/// Offers a connection all that waits for it.
fn write_all(socket: &mut Socket, seats: &mut Seats, id: u64)
    ensures { spec.IsWritten id seats.old seats.new }
{
    if write_each(socket, seats, id) {
        seats.offered(id);
    } else {
        seats.deafen(id);
    }
}

/// Writes until a connection accepts no more. Returns false if it never does again.
fn write_each(socket: &mut Socket, seats: &mut Seats, id: u64) -> bool
    ensures { spec.IsSent id seats.old seats.new }
{
    for _write in 0..u64::MAX {
        match write_once(socket, seats, id) {
            Written::Some => {}
            Written::All | Written::Later => return true,
            Written::Failed => return false,
        }
    }
    true
}

/// The outcome of a write.
#[derive(Clone, Copy)]
enum Written {
    /// More may be accepted.
    Some,
    /// Nothing waits.
    All,
    /// Nothing more is accepted yet.
    Later,
    Failed,
}

fn write_once(socket: &mut Socket, seats: &mut Seats, id: u64) -> Written
    ensures { spec.IsSent id seats.old seats.new }
{
    let waiting = seats.waiting();
    if waiting.is_empty() {
        return Written::All;
    }
    match socket.write(&waiting[..waiting.len().min(PIECE)]) {
        Ok(0) => Written::Failed,
        Ok(count) => {
            seats.sent(id, count);
            Written::Some
        }
        Err(error) => match retry_after(&error) {
            Retry::Now => Written::Some,
            Retry::Later => Written::Later,
            Retry::Never => Written::Failed,
        },
    }
}
