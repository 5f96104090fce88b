//! The turns of the visitor and the application: who is read, leaves, or gets a seat. All times are
//! in milliseconds.

ghost use Rattle.std.specs.Prelude.{◌≡◌};
ghost use Rattle.device_session.specs.Seats as spec;

use crate::holder::Holder;
use crate::seat::{LAST_READS, Next, Seat};
use crate::seats::{Outcome, Seats};
use crate::strangers::sooner;
use crate::visitor::{Visit, Visitor};
use std::alloc::Global;

impl Seats {
    /// Serves the visitor: it is to be read, leaves, or gets the seat of the application.
    ///
    /// It replaces an earlier application only once that one's lines are processed.
    pub(crate) fn attend(&mut self, now: u64) -> Outcome
        ensures outcome { result ≡ spec.outcome_of_attending now self.old }
        ensures attended { self.new ≡ spec.after_attending now self.old }
    {
        match self.visit(now) {
            Visit::Stays | Visit::Asks => Outcome::Nothing,
            Visit::Reads => match self.visitor() {
                Some(id) => Outcome::Reads(id),
                None => Outcome::Nothing,
            },
            Visit::Leaves => {
                self.visitor = None;
                Outcome::Nothing
            }
            Visit::Comes => {
                if self.next.is_some() {
                    return Outcome::Nothing;
                }
                let Some(visitor) = self.visitor.take() else {
                    return Outcome::Nothing;
                };
                self.next = seated(self.alloc, &mut self.seat, visitor);
                Outcome::Comes
            }
        }
    }

    fn visit(&self, now: u64) -> Visit
        ensures { result ≡ spec.visit_in self.now now }
    {
        match &self.visitor {
            Some(visitor) if !self.is_held => visitor.next(now, self.is_free()),
            _ => Visit::Stays,
        }
    }

    /// Serves the application: it is to be read, leaves, or gives its seat to the next.
    #[tactic(auto, using(crate::proofs::Reached::by_filling))]
    pub(crate) fn fill(&mut self) -> Outcome
        ensures outcome { result ≡ spec.outcome_of_filling self.old }
        ensures filled { self.new ≡ spec.after_filling self.old }
    {
        if self.is_held {
            return Outcome::Nothing;
        }
        if self.is_leaving() && self.seat.has_offered() {
            if let Some(next) = self.next.take() {
                self.seat = Seat::Taken(Holder::new(self.alloc, next.visitor));
            }
            return Outcome::Replaced;
        }
        if self.is_full() {
            return Outcome::Nothing;
        }
        read_or_leave(&mut self.seat, &mut self.next)
    }

    /// Returns true if all lines are processed and a visitor waits for the seat.
    pub(crate) fn is_giving_place(&self) -> bool
        ensures { result ≡ spec.gives_place self.now }
    {
        !self.is_held && self.is_leaving()
    }

    fn is_leaving(&self) -> bool
        ensures { result ≡ spec.is_leaving self.now.seat self.now.next }
    {
        match &self.next {
            Some(next) => match &self.seat {
                Seat::Taken(holder) => is_over(next.last_reads, holder),
                Seat::Free { .. } => true,
            },
            None => false,
        }
    }

    /// Cuts off an application that accepts nothing for too long. Returns true if it did.
    pub(crate) fn watch(&mut self, now: u64) -> bool
        ensures slow { result ≡ spec.is_slow_in self.old now }
        ensures watched { self.new ≡ spec.after_watch now self.old }
    {
        self.seat.watch(now)
    }

    /// Returns when the visit ends or the application is cut off.
    pub(crate) fn due(&self) -> Option<u64>
        ensures { result ≡ spec.due_of_all self.now }
    {
        let visit = match &self.visitor {
            Some(visitor) if !self.is_held => {
                if self.next.is_some() && visitor.would_come() {
                    None
                } else {
                    Some(visitor.due())
                }
            }
            _ => None,
        };
        let slow = match &self.seat {
            Seat::Taken(holder) => holder.due(),
            Seat::Free { .. } => None,
        };
        sooner(visit, slow)
    }

    /// Returns true if there is something to do without waiting.
    ///
    /// `accepts` is false while no connection is accepted, after a failure.
    pub(crate) fn has_something(&self, accepts: bool) -> bool
        ensures { result ≡ spec.acts_now accepts self.now }
    {
        if self.is_held {
            return self.is_new();
        }
        self.has_visit(accepts) || acts(&self.seat, &self.next)
    }

    fn has_visit(&self, accepts: bool) -> bool
        ensures { result ≡ spec.has_visit accepts self.now }
    {
        match &self.visitor {
            Some(visitor) => {
                visitor.has_something() && !(self.next.is_some() && visitor.is_claiming())
            }
            None => self.is_knocking && accepts,
        }
    }
}

/// Gives a visitor a free seat, or else returns it as the next to get it.
fn seated(alloc: Global, seat: &mut Seat, visitor: Visitor) -> Option<Next>
    ensures seat { seat.new ≡ spec.seat_for seat.old visitor }
    ensures next { result ≡ spec.next_after seat.old visitor }
{
    match seat {
        Seat::Taken(holder) => {
            holder.incoming.ready();
            Some(Next {
                visitor,
                last_reads: LAST_READS,
            })
        }
        Seat::Free { .. } => {
            *seat = Seat::Taken(Holder::new(alloc, visitor));
            None
        }
    }
}

/// Asks to read the application, unless a line is there, or frees its seat once it is gone.
fn read_or_leave(seat: &mut Seat, next: &mut Option<Next>) -> Outcome
    ensures outcome { result ≡ spec.outcome_by seat.old next.old }
    ensures seat { seat.new ≡ spec.left_seat seat.old next.old }
    ensures next { next.new ≡ spec.counted_down seat.old next.old }
{
    let Seat::Taken(holder) = seat else {
        return Outcome::Nothing;
    };
    if holder.incoming.has_line() {
        return Outcome::Nothing;
    }
    if let Some(next) = next {
        next.last_reads = next.last_reads.saturating_sub(1);
        return Outcome::Reads(holder.id);
    }
    if holder.is_readable() {
        return Outcome::Reads(holder.id);
    }
    if !holder.is_done() {
        return Outcome::Nothing;
    }
    let has_read_all = !holder.outgoing.is_deaf();
    *seat = Seat::Free { has_read_all };
    Outcome::Gone
}

fn acts(seat: &Seat, next: &Option<Next>) -> bool
    ensures { result ≡ spec.acts_by seat.now next.now }
{
    let Seat::Taken(holder) = seat else {
        return next.is_some();
    };
    match next {
        Some(next) => {
            holder.is_new || is_over(next.last_reads, holder) || !holder.outgoing.is_full()
        }
        None => holder.has_something(),
    }
}

/// Returns true if all lines of an application that is replaced are processed, or it was read often
/// enough.
fn is_over(last_reads: u32, holder: &Holder) -> bool
    ensures { result ≡ spec.is_over last_reads holder.now }
{
    let is_read = !holder.is_readable() || last_reads == 0;
    is_read && !holder.incoming.has_line()
}
