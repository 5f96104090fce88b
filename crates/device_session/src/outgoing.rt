//! The octets that wait for an application. All times are in milliseconds.

ghost use Rattle.std.specs.Prelude.{◌≡◌, ◌≤◌, length, IfErr, IfOk};
ghost use Rattle.std.specs.Bool.{OnFalse, OnTrue};
ghost use Rattle.device_session.specs.Outgoing.{after_sent, due, empty, fits, has_room, is_deaf, is_emptied, is_full, is_slow, octets_of, watched, with_text, SparesReaders};
ghost use Rattle.device_session.specs.declared.outgoing.Outgoing.TheVariants.{Deaf};

use app_lines::Outbox;
use device_io::MOST_WAITING;
use std::alloc::{AllocError, Global};

/// While more bytes wait for the application, neither it nor the controller is read.
const MANY: usize = 65_536;

/// The output of an application.
#[derive(Drop)]
pub(crate) enum Outgoing {
    /// `stalled` is the time since when it has accepted nothing while many bytes wait.
    Open {
        outbox: Outbox,
        stalled: Option<u64>,
    },
    /// It accepts no more.
    Deaf,
}

impl Outgoing {
    pub(crate) fn new(alloc: Global) -> Outgoing
        ensures empty { result ≡ empty }
        // For all that is sent, and each time limit:
        ensures spares { SparesReaders }
    {
        Outgoing::Open {
            outbox: Outbox::new(alloc, MOST_WAITING),
            stalled: None,
        }
    }

    /// Returns the waiting bytes, the next to be sent first.
    pub(crate) fn waiting(&self) -> &[u8]
        ensures { result.now ≡ octets_of self.now }
    {
        match self {
            Outgoing::Open { outbox, .. } => outbox.waiting(),
            Outgoing::Deaf => &[],
        }
    }

    /// Returns true if so many bytes wait that nothing may be read that causes more.
    pub(crate) fn is_full(&self) -> bool
        ensures { result ≡ is_full self.now }
    {
        self.waiting().len() > MANY
    }

    /// Returns true if it accepts bytes, and one more line fits.
    pub(crate) fn has_room(&self) -> bool
        ensures { result ≡ has_room self.now }
    {
        match self {
            Outgoing::Open { outbox, .. } => outbox.waiting().len() < MANY,
            Outgoing::Deaf => false,
        }
    }

    pub(crate) fn is_deaf(&self) -> bool
        ensures { result ≡ is_deaf self.now }
    {
        matches!(self, Outgoing::Deaf)
    }

    /// Returns true if nothing more can be sent.
    pub(crate) fn is_emptied(&self) -> bool
        ensures { result ≡ is_emptied self.now }
    {
        self.waiting().is_empty()
    }

    /// Queues a text. Returns false and changes nothing if too much waits.
    ///
    /// An error changes nothing either: memory was refused.
    pub(crate) fn queue(&mut self, text: &[u8]) -> Result<bool, AllocError>
        ensures fits { IfOk result (λ is_queued. is_queued ≡ fits self.old text.now) }
        ensures queued { IfOk result
            (λ is_queued. OnTrue is_queued (self.new ≡ with_text self.old text.now)) }
        ensures unchanged { IfOk result (λ is_queued. OnFalse is_queued (self.new ≡ self.old)) }
        ensures refused { IfErr result (λ _. self.new ≡ self.old) }
    {
        match self {
            Outgoing::Open { outbox, .. } => outbox.push(text),
            Outgoing::Deaf => Ok(true),
        }
    }

    /// Removes the first `count` bytes, which were accepted.
    pub(crate) fn sent(&mut self, count: usize)
        requires { count ≤ length (octets_of self.old) }
        ensures { self.new ≡ after_sent self.old count }
    {
        if let Outgoing::Open { outbox, stalled } = self {
            outbox.remove_sent(count);
            *stalled = None;
        }
    }

    /// Stops sending. The waiting bytes are dropped.
    pub(crate) fn deafen(&mut self)
        ensures { self.new ≡ Deaf }
    {
        *self = Outgoing::Deaf;
    }

    /// Notes whether it has accepted enough by `now`. Returns true if it has accepted nothing for
    /// `slow`, while many bytes wait.
    pub(crate) fn watch(&mut self, now: u64, slow: u64) -> bool
        ensures slow { result ≡ is_slow slow self.old now }
        ensures watched { self.new ≡ watched self.old now }
    {
        let is_full = self.is_full();
        let Outgoing::Open { stalled, .. } = self else {
            return false;
        };
        let since = if is_full { stalled.unwrap_or(now) } else { now };
        *stalled = is_full.then_some(since);
        is_full && now.saturating_sub(since) >= slow
    }

    /// Returns when it has accepted nothing for `slow`, if it does not accept more.
    pub(crate) fn due(&self, slow: u64) -> Option<u64>
        ensures { result ≡ due slow self.now }
    {
        match self {
            Outgoing::Open { stalled, .. } => Some((*stalled)?.saturating_add(slow)),
            Outgoing::Deaf => None,
        }
    }
}
