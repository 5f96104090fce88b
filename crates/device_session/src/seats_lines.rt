//! The lines of the application and its visitor, and the texts for them.

ghost use Rattle.std.specs.Prelude.{◌≡◌, false, true, IfErr, IfOk};
ghost use Rattle.device_session.specs.Seats as spec;

use crate::askers::Asker;
use crate::incoming::{NO_LINE, NextLine};
use crate::seat::Seat;
use crate::seats::Seats;
use app_lines::LONGEST;
use arrayvec::ArrayVec;
use std::alloc::AllocError;

impl Seats {
    /// Returns true if no application has the seat or waits for it.
    pub(crate) fn is_free(&self) -> bool
        ensures { result ≡ spec.is_free self.now }
    {
        !self.is_there() && self.next.is_none()
    }

    pub(crate) fn is_there(&self) -> bool
        ensures { result ≡ spec.is_there self.now }
    {
        matches!(self.seat, Seat::Taken(_))
    }

    /// Returns true if nobody is there, and the last application has read everything.
    pub(crate) fn has_read_all(&self) -> bool
        ensures { result ≡ spec.has_read_all self.now }
    {
        matches!(self.seat, Seat::Free { has_read_all: true })
    }

    /// Returns true if the application lacks the current state.
    pub(crate) fn is_new(&self) -> bool
        ensures { result ≡ spec.is_new self.now }
    {
        matches!(&self.seat, Seat::Taken(holder) if holder.is_new)
    }

    /// Returns true if it has the current state and one more line fits.
    pub(crate) fn has_room(&self) -> bool
        ensures { result ≡ spec.has_room_in self.now }
    {
        matches!(&self.seat, Seat::Taken(holder) if holder.has_room())
    }

    /// Returns true if so many bytes wait that nothing may be read that causes more.
    pub(crate) fn is_full(&self) -> bool
        ensures { result ≡ spec.is_full_in self.now }
    {
        matches!(&self.seat, Seat::Taken(holder) if holder.outgoing.is_full())
    }

    /// Notes that the application is sent the current state.
    #[tactic(auto, using(crate::proofs::Reached::by_welcome))]
    pub(crate) fn welcome(&mut self)
        ensures { self.new ≡ spec.after_welcome self.old }
    {
        if let Seat::Taken(holder) = &mut self.seat {
            holder.is_new = false;
        }
    }

    /// Queues a text. Returns false if too much waits: the application is then cut off, as after
    /// an error.
    #[tactic(auto, using(crate::proofs::Reached::by_telling, crate::proofs::Reached::by_refusal))]
    pub(crate) fn tell(&mut self, text: &[u8]) -> Result<bool, AllocError>
        ensures fits { IfOk result (λ is_queued. is_queued ≡ spec.fits_in self.old text.now) }
        ensures queued { IfOk result
            (λ is_queued. self.new ≡ spec.after_telling self.old text.now is_queued) }
        ensures refused { IfErr result
            (λ _. self.new ≡ spec.after_telling self.old text.now false) }
    {
        let queued = self.seat.queue(text);
        if !matches!(queued, Ok(true)) {
            self.seat.end();
        }
        queued
    }

    /// Ends the application, which may not have read everything.
    #[tactic(auto, using(crate::proofs::Reached::by_refusal))]
    pub(crate) fn end(&mut self)
        ensures { self.new ≡ spec.after_end self.old }
    {
        self.seat.end();
    }

    /// Notes whether the visitor accepted a whole answer at once. Otherwise closes it.

    pub(crate) fn answered(&mut self, is_accepted: bool)
        ensures { self.new ≡ spec.after_answer self.old is_accepted }
    {
        if !is_accepted {
            self.visitor = None;
        }
    }

    #[tactic(auto, using(crate::proofs::Reached::by_hold))]
    pub(crate) fn hold(&mut self)
        ensures { self.new ≡ record self.old { is_held = true } }
    {
        self.is_held = true;
    }

    /// Reads lines again. A connection may have come in the meantime.
    #[tactic(auto, using(crate::proofs::Reached::by_release))]
    pub(crate) fn release(&mut self)
        ensures { self.new ≡ spec.after_release self.old }
    {
        self.is_held = false;
        self.is_knocking = true;
    }

    /// Returns true if the last line was the visitor's.
    pub(crate) fn is_visited(&self) -> bool
        ensures { result ≡ spec.is_visitor self.now.askers.asker }
    {
        self.askers.asker == Asker::Visitor
    }

    fn is_asked_by_visitor(&self) -> bool
        ensures { result ≡ spec.is_asked self.now }
    {
        matches!(&self.visitor, Some(visitor) if visitor.is_asking(self.is_free()))
    }

    fn is_busy(&self) -> bool
        ensures { result ≡ spec.is_busy_in self.now }
    {
        self.next.is_some() || matches!(&self.seat, Seat::Taken(holder) if holder.is_busy())
    }

    /// Returns the next line of the application or the visitor.
    ///
    /// The application's lines go first, up to a limit, so that a visitor sees their effects. A new
    /// application receives the current state first. `now` is in milliseconds.
    pub(crate) fn next_line(&mut self, line: &mut ArrayVec<u8, LONGEST>, now: u64) -> NextLine
        ensures next { result ≡ spec.next_line_in (spec.after_choosing self.old now) }
        ensures line { line.new.items
            ≡ spec.line_from (spec.after_choosing self.old now) line.old.items }
        ensures taken { self.new ≡ spec.after_asking (spec.after_choosing self.old now) }
    {
        if self.is_held {
            return NO_LINE;
        }
        let is_visited = self.is_asked_by_visitor();
        let is_busy = self.is_busy();
        self.askers.choose(is_visited, is_busy, now);
        self.next_line_of_asker(line)
    }

    /// Returns true if the sender of the last line has sent another one.
    pub(crate) fn has_next_line(&self) -> bool
        ensures { result ≡ spec.has_next_line self.now }
    {
        if self.is_held {
            return false;
        }
        match self.askers.asker {
            Asker::Application => { matches!(&self.seat, Seat::Taken(holder) if holder.may_ask()) }
            Asker::Visitor => self.is_asked_by_visitor(),
        }
    }

    /// Returns the next line of the sender of the last one.
    #[tactic(auto, using(crate::proofs::Reached::by_asking))]
    pub(crate) fn next_line_of_asker(&mut self, line: &mut ArrayVec<u8, LONGEST>) -> NextLine
        ensures next { result ≡ spec.next_line_in self.old }
        ensures line { line.new.items ≡ spec.line_from self.old line.old.items }
        ensures taken { self.new ≡ spec.after_asking self.old }
    {
        if !self.has_next_line() {
            return NO_LINE;
        }
        match self.askers.asker {
            Asker::Visitor => match &mut self.visitor {
                Some(visitor) => visitor.incoming.take_line(line),
                None => NO_LINE,
            },
            Asker::Application => match &mut self.seat {
                Seat::Taken(holder) => holder.incoming.take_line(line),
                Seat::Free { .. } => NO_LINE,
            },
        }
    }
}
