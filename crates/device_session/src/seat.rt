//! The application's seat, and the visitor that gets it next.

ghost use Rattle.std.specs.Prelude.{◌≡◌, ◌≤◌, length, IfErr, IfOk};
ghost use Rattle.std.specs.Bool.{OnFalse, OnTrue};
ghost use Rattle.device_session.specs.Holder as holder;
ghost use Rattle.device_session.specs.Holder.{if_holder};
ghost use Rattle.device_session.specs.Incoming.{reading_of, IsShort};
ghost use Rattle.device_session.specs.Seats.{ended, fits_by, has_offered, is_slow_seat, on_holder, waiting_by, watched_seat};

use crate::holder::Holder;
use crate::incoming::Read;
use crate::visitor::Visitor;
use std::alloc::AllocError;

/// The most reads of an application that is being replaced.
pub(crate) const LAST_READS: u32 = 128;

/// The application's seat.
#[derive(Drop)]
pub(crate) enum Seat {
    /// Nobody is there. `has_read_all` is true unless the last application may have missed lines.
    Free { has_read_all: bool },
    Taken(Holder),
}

/// The visitor that gets the seat once all lines of the application are processed, or it was read
/// `last_reads` times.
#[derive(Drop)]
pub(crate) struct Next {
    pub(crate) visitor: Visitor,
    pub(crate) last_reads: u32,
}

impl Seat {
    /// Notes what was read from a connection, if it has the seat.
    pub(crate) fn arrived(&mut self, id: u64, read: Read<'_>)
        requires few { IsShort (reading_of read) }
        ensures { self.new
            ≡ on_holder (if_holder id (holder.read (reading_of read.entry))) self.old }
    {
        if let Seat::Taken(holder) = self
            && holder.id == id
        {
            holder.arrived(read);
        }
    }

    /// Notes that the connection with the seat has accepted the first `count` bytes.
    pub(crate) fn sent(&mut self, id: u64, count: usize)
        requires { count ≤ length (waiting_by self.old) }
        ensures { self.new ≡ on_holder (if_holder id (holder.sent count)) self.old }
    {
        if let Seat::Taken(holder) = self
            && holder.id == id
        {
            holder.sent(count);
        }
    }

    /// Notes that the connection with the seat was offered all that waits.
    pub(crate) fn offered(&mut self, id: u64)
        ensures { self.new ≡ on_holder (if_holder id holder.offered) self.old }
    {
        if let Seat::Taken(holder) = self
            && holder.id == id
        {
            holder.is_offered = true;
        }
    }

    /// Notes that the connection with the seat accepts no more.
    pub(crate) fn deafen(&mut self, id: u64)
        ensures { self.new ≡ on_holder (if_holder id holder.deafened) self.old }
    {
        if let Seat::Taken(holder) = self
            && holder.id == id
        {
            holder.deafen();
        }
    }

    /// Queues a text for the application. Returns false and changes nothing if too much waits.
    ///
    /// An error changes nothing either: memory was refused.
    pub(crate) fn queue(&mut self, text: &[u8]) -> Result<bool, AllocError>
        ensures fits { IfOk result (λ is_queued. is_queued ≡ fits_by self.old text.now) }
        ensures queued { IfOk result (λ is_queued. OnTrue is_queued
            (self.new ≡ on_holder (holder.queued text.now) self.old)) }
        ensures unchanged { IfOk result (λ is_queued. OnFalse is_queued (self.new ≡ self.old)) }
        ensures refused { IfErr result (λ _. self.new ≡ self.old) }
    {
        match self {
            Seat::Taken(holder) => holder.queue(text),
            Seat::Free { .. } => Ok(true),
        }
    }

    /// Ends the application, which may not have read everything.
    pub(crate) fn end(&mut self)
        ensures { self.new ≡ ended self.old }
    {
        if let Seat::Taken(_) = self {
            *self = Seat::Free {
                has_read_all: false,
            };
        }
    }

    /// Returns true if the application was offered all that waits for it.
    pub(crate) fn has_offered(&self) -> bool
        ensures { result ≡ has_offered self.now }
    {
        match self {
            Seat::Taken(holder) => holder.is_offered,
            Seat::Free { .. } => true,
        }
    }

    /// Frees the seat of an application that accepts nothing for too long. Returns true if it did.
    pub(crate) fn watch(&mut self, now: u64) -> bool
        ensures slow { result ≡ is_slow_seat self.old now }
        ensures watched { self.new ≡ watched_seat now self.old }
    {
        let Seat::Taken(holder) = self else {
            return false;
        };
        let is_slow = holder.watch(now);
        if is_slow {
            self.end();
        }
        is_slow
    }
}
