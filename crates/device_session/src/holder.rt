//! The application's connection: its input and output. All times are in milliseconds.

ghost use Rattle.std.specs.Prelude.{◌≡◌, ◌≤◌, length, IfErr, IfOk};
ghost use Rattle.std.specs.Bool.{OnFalse, OnTrue};
ghost use Rattle.device_session.specs.Holder as spec;
ghost use Rattle.device_session.specs.Incoming.{reading_of, IsShort};
ghost use Rattle.device_session.specs.Outgoing.{due, fits, is_slow, octets_of};

use crate::incoming::{Incoming, Input, Read};
use crate::outgoing::Outgoing;
use crate::visitor::Visitor;
use std::alloc::{AllocError, Global};

/// The application's input and output.
#[derive(Drop)]
pub(crate) struct Holder {
    pub(crate) id: u64,
    pub(crate) incoming: Incoming,
    pub(crate) outgoing: Outgoing,
    /// How long it may accept nothing.
    slow: u64,
    /// Set until it is sent the current state.
    pub(crate) is_new: bool,
    /// Set once its socket was offered all that waits.
    pub(crate) is_offered: bool,
}

impl Holder {
    /// Makes a visitor the application. Keeps what it has sent already.
    pub(crate) fn new(alloc: Global, visitor: Visitor) -> Holder
        ensures { result ≡ spec.new_holder visitor }
    {
        let mut incoming = visitor.incoming;
        incoming.ready();
        Holder {
            id: visitor.id,
            incoming,
            outgoing: Outgoing::new(alloc),
            slow: visitor.slow,
            is_new: true,
            is_offered: true,
        }
    }

    /// Returns true if its next line may be executed.
    pub(crate) fn may_ask(&self) -> bool
        ensures { result ≡ spec.may_ask self.now }
    {
        !self.is_new && !self.outgoing.is_full() && self.incoming.has_line()
    }

    /// Returns true if it may have sent more.
    pub(crate) fn is_readable(&self) -> bool
        ensures { result ≡ spec.may_read self.now }
    {
        self.incoming.input == Input::Readable
    }

    /// Returns true if it sends no more, and everything was sent to it that it accepts.
    pub(crate) fn is_done(&self) -> bool
        ensures { result ≡ spec.is_done self.now }
    {
        self.incoming.input == Input::Ended && self.outgoing.is_emptied()
    }

    /// Returns true if it has sent something that is to be executed before a visitor's line.
    pub(crate) fn is_busy(&self) -> bool
        ensures { result ≡ spec.is_busy self.now }
    {
        self.is_new || self.is_readable() || self.incoming.has_line() || self.is_done()
    }

    /// Returns true if there is something to do without waiting.
    pub(crate) fn has_something(&self) -> bool
        ensures { result ≡ spec.acts self.now }
    {
        let has_input = self.is_readable() || self.incoming.has_line();
        self.is_new || self.is_done() || has_input && !self.outgoing.is_full()
    }

    /// Returns true if it has the current state, and one more line fits.
    pub(crate) fn has_room(&self) -> bool
        ensures { result ≡ spec.has_room_for_line self.now }
    {
        !self.is_new && self.outgoing.has_room()
    }

    /// Notes what a read brought, unless a line waits. One whose socket failed is sent no more.
    pub(crate) fn arrived(&mut self, read: Read<'_>)
        requires few { IsShort (reading_of read) }
        ensures { self.new ≡ spec.read (reading_of read.entry) self.old }
    {
        if self.incoming.has_line() {
            return;
        }
        if let Read::Failed = read {
            self.outgoing.deafen();
        }
        self.incoming.arrived(read);
    }

    /// Queues a text. Returns false and changes nothing if too much waits.
    ///
    /// An error changes nothing either: memory was refused.
    pub(crate) fn queue(&mut self, text: &[u8]) -> Result<bool, AllocError>
        ensures fits { IfOk result
            (λ is_queued. is_queued ≡ fits self.old.outgoing text.now) }
        ensures queued { IfOk result
            (λ is_queued. OnTrue is_queued (self.new ≡ spec.queued text.now self.old)) }
        ensures unchanged { IfOk result (λ is_queued. OnFalse is_queued (self.new ≡ self.old)) }
        ensures refused { IfErr result (λ _. self.new ≡ self.old) }
    {
        let queued = self.outgoing.queue(text);
        if let Ok(true) = queued {
            self.is_offered = false;
        }
        queued
    }

    /// Removes the first `count` bytes that wait, which were accepted.
    pub(crate) fn sent(&mut self, count: usize)
        requires { count ≤ length (octets_of self.old.outgoing) }
        ensures { self.new ≡ spec.sent count self.old }
    {
        self.outgoing.sent(count);
    }

    /// Stops writing. Its input is still read to the end, because it may have sent lines before.
    pub(crate) fn deafen(&mut self)
        ensures { self.new ≡ spec.deafened self.old }
    {
        self.outgoing.deafen();
        self.is_offered = true;
        self.incoming.ready();
    }

    /// Notes whether it has accepted enough by `now`. Returns true if it is too slow.
    pub(crate) fn watch(&mut self, now: u64) -> bool
        ensures slow { result ≡ is_slow self.old.slow self.old.outgoing now }
        ensures watched { self.new ≡ spec.watched_at now self.old }
    {
        self.outgoing.watch(now, self.slow)
    }

    /// Returns when it is cut off, if it does not accept more.
    pub(crate) fn due(&self) -> Option<u64>
        ensures { result ≡ due self.now.slow self.now.outgoing }
    {
        self.outgoing.due(self.slow)
    }
}
