//! The seats at the application's socket: the application, the one that gets its seat next, and a
//! visitor. They have no sockets: connections are numbers. All times are in milliseconds.

ghost use Rattle.std.specs.Prelude.{◌≡◌, ◌≤◌, length};
ghost use Rattle.std.specs.Option.{option_map};
ghost use Rattle.device_session.specs.Incoming.{reading_of, IsShort};
ghost use Rattle.device_session.specs.Laws.{Bounds, ComesAlone, ComesRightly, ServesInTurn, TellsInOrder};
ghost use Rattle.device_session.specs.Seats as spec;
ghost use Rattle.device_session.specs.Visitor.{if_visitor, visitor_read};

use crate::askers::Askers;
use crate::incoming::Read;
use crate::seat::{Next, Seat};
use crate::visitor::Visitor;
use std::alloc::Global;
use std::marker::Model;

/// The application's seat, the one that gets it next, and the visitor's seat.
#[derive(Drop)]
pub(crate) struct Seats {
    pub(crate) alloc: Global,
    pub(crate) seat: Seat,
    pub(crate) next: Option<Next>,
    pub(crate) visitor: Option<Visitor>,
    pub(crate) askers: Askers,
    /// Set if no more lines are read.
    pub(crate) is_held: bool,
    /// Set if a connection waits for the visitor's seat.
    pub(crate) is_knocking: bool,
}

impl Model for Seats {
    ghost use Rattle.device_session.specs.Laws.{IsReached};
    ghost use Rattle.device_session.specs.Seats as value;

    ghost Value = { value.Seats };

    ghost view = { λ seats. record {
      seat = seats.seat;
      next = seats.next;
      visitor = seats.visitor;
      askers = seats.askers;
      is_held = seats.is_held;
      is_knocking = seats.is_knocking;
    } };

    // The laws hold of them: they became what they are by what these speak of.
    ghost invariant = { λ seats. IsReached (record {
      seat = seats.seat;
      next = seats.next;
      visitor = seats.visitor;
      askers = seats.askers;
      is_held = seats.is_held;
      is_knocking = seats.is_knocking;
    }) };
}

/// The outcome of serving the seats: an event, or a connection to read.
#[derive(Clone, Copy)]
pub(crate) enum Outcome {
    Nothing,
    /// Read once from this connection.
    Reads(u64),
    /// The visitor gets the application's seat, now or later.
    Comes,
    /// The next application has replaced another one.
    Replaced,
    /// The application has closed its connection, and all its lines are processed.
    Gone,
}

impl Seats {
    #[tactic(auto, using(crate::proofs::Succession::serves_in_turn, crate::proofs::Succession::comes_alone, crate::proofs::Claiming::comes_rightly, crate::proofs::Tellings::tells_in_order, crate::proofs::Bounded::bounds, crate::proofs::Reached::at_first))]
    pub(crate) fn none(alloc: Global) -> Seats
        ensures nobody { result ≡ spec.nobody }
        // For all that may happen:
        ensures in_turn { ServesInTurn }
        ensures alone { ComesAlone }
        ensures rightly { ComesRightly }
        ensures notices { TellsInOrder }
        ensures bounds { Bounds }
    {
        Seats {
            alloc,
            seat: Seat::Free { has_read_all: true },
            next: None,
            visitor: None,
            askers: Askers::new(),
            is_held: false,
            is_knocking: false,
        }
    }

    /// Returns true if a connection has a seat. Another one is to be closed.
    pub(crate) fn has(&self, id: u64) -> bool
        ensures { result ≡ spec.has_seat self.now id }
    {
        matches!(&self.seat, Seat::Taken(holder) if holder.id == id)
            || matches!(&self.next, Some(next) if next.visitor.id == id)
            || matches!(&self.visitor, Some(visitor) if visitor.id == id)
    }

    /// Returns the application's connection.
    pub(crate) fn holder(&self) -> Option<u64>
        ensures { result ≡ spec.id_of_holder self.now.seat }
    {
        match &self.seat {
            Seat::Taken(holder) => Some(holder.id),
            Seat::Free { .. } => None,
        }
    }

    /// Returns the visitor's connection.
    pub(crate) fn visitor(&self) -> Option<u64>
        ensures { result ≡ spec.id_of_visitor self.now }
    {
        match &self.visitor {
            Some(visitor) => Some(visitor.id),
            None => None,
        }
    }

    /// Returns what waits for the application, the next to be sent first.
    pub(crate) fn waiting(&self) -> &[u8]
        ensures { result.now ≡ spec.waiting_in self.now }
    {
        match &self.seat {
            Seat::Taken(holder) => holder.outgoing.waiting(),
            Seat::Free { .. } => &[],
        }
    }

    /// Returns true if a connection that comes now gets the visitor's seat. One may wait.
    #[tactic(auto, using(crate::proofs::Reached::by_knock))]
    pub(crate) fn knock(&mut self) -> bool
        ensures accepts { result ≡ spec.accepts self.old }
        ensures knocked { self.new ≡ spec.after_knock self.old }
    {
        self.is_knocking = self.visitor.is_some();
        !self.is_held && !self.is_knocking
    }

    pub(crate) fn is_knocking(&self) -> bool
        ensures { result ≡ self.now.is_knocking }
    {
        self.is_knocking
    }

    /// Notes that a connection came, at a port if it `is_remote`. Gives it no seat if there is a
    /// visitor.
    pub(crate) fn came(&mut self, id: u64, is_remote: bool, now: u64)
        ensures { self.new ≡ spec.after_coming id is_remote now self.old }
    {
        if !self.is_held && self.visitor.is_none() {
            self.visitor = Some(Visitor::new(id, is_remote, now));
        }
    }

    /// Notes what was read from a connection.
    pub(crate) fn arrived(&mut self, id: u64, read: Read<'_>)
        requires few { IsShort (reading_of read) }
        ensures { self.new ≡ spec.after_arrival_at id (reading_of read.entry) self.old }
    {
        self.seat.arrived(id, read);
        visitor_arrived(&mut self.visitor, id, read);
    }

    /// Notes that each connection may have sent more.
    #[tactic(auto, using(crate::proofs::Reached::by_ready))]
    pub(crate) fn ready(&mut self)
        ensures { self.new ≡ spec.after_ready self.old }
    {
        if let Seat::Taken(holder) = &mut self.seat {
            holder.incoming.ready();
        }
        if let Some(visitor) = &mut self.visitor {
            visitor.incoming.ready();
        }
    }

    /// Notes that a connection has accepted the first `count` bytes.
    pub(crate) fn sent(&mut self, id: u64, count: usize)
        requires { count ≤ length (spec.waiting_in self.old) }
        ensures { self.new ≡ spec.after_sending id count self.old }
    {
        self.seat.sent(id, count);
    }

    /// Notes that a connection was offered all that waits, and accepts no more yet.
    pub(crate) fn offered(&mut self, id: u64)
        ensures { self.new ≡ spec.after_offer id self.old }
    {
        self.seat.offered(id);
    }

    /// Notes that a connection accepts no more.
    pub(crate) fn deafen(&mut self, id: u64)
        ensures { self.new ≡ spec.after_refusal id self.old }
    {
        self.seat.deafen(id);
    }
}

fn visitor_arrived(visitor: &mut Option<Visitor>, id: u64, read: Read<'_>)
    requires few { IsShort (reading_of read) }
    ensures { visitor.new
        ≡ option_map (if_visitor id (visitor_read (reading_of read.entry))) visitor.old }
{
    if let Some(visitor) = visitor
        && visitor.id == id
    {
        visitor.arrived(read);
    }
}
