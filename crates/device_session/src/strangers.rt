//! Clients without a key, and when each is disconnected. All times are milliseconds by the clock
//! of the peers' time limits unless another clock is named.

ghost use Rattle.std.specs.Prelude.{◌≡◌, [], is_some};
ghost use Rattle.std.specs.Option.{option_map};
ghost use Rattle.device_session.specs.Strangers.{are_limited, due_of, first_due, first_limit, found_at, heard_at, is_due, is_silent, keyless_of, sooner_of, stranger_of, strangers_of, time_after};

use arrayvec::ArrayVec;
use host_api::{Connection, MAX_SLOTS};

/// A connection whose link has no key.
#[derive(Clone, Copy, Default)]
pub struct Keyless {
    /// Its number, unique within the host.
    pub ordinal: u64,
    pub handle: u16,
    /// When its last data arrived, by the host's clock.
    pub heard: u64,
}

impl Keyless {
    /// Returns a connection if it has no key and the host has not ended it.
    pub fn of(connection: &Connection) -> Option<Keyless>
        ensures { result ≡ keyless_of connection.now }
    {
        if connection.key.is_some() || connection.ending {
            return None;
        }
        Some(Keyless {
            ordinal: connection.ordinal,
            handle: connection.handle,
            heard: connection.heard,
        })
    }

    fn is_silent(&self, later: &Keyless) -> bool
        ensures { result ≡ is_silent self.now later.now }
    {
        self.ordinal == later.ordinal && self.heard == later.heard
    }
}

/// A client without a key.
#[derive(Clone, Copy, Default)]
pub struct Stranger {
    pub connection: Keyless,
    /// When its last data was found.
    pub heard: u64,
    /// When it was found.
    pub found: u64,
}

/// Time limits for a client without a key.
#[derive(Clone, Copy)]
pub struct Limits {
    /// The longest silence.
    pub silent: Option<u64>,
    /// The longest stay.
    pub staying: Option<u64>,
}

impl Limits {
    fn due(&self, stranger: &Stranger) -> Option<u64>
        ensures { result ≡ due_of self.now stranger.now }
    {
        sooner(
            time_after(stranger.heard, self.silent),
            time_after(stranger.found, self.staying),
        )
    }

    fn is_due(&self, stranger: &Stranger, now: u64) -> bool
        ensures { result ≡ is_due self.now now stranger.now }
    {
        match self.due(stranger) {
            Some(due) => due <= now,
            None => false,
        }
    }
}

fn time_after(time: u64, limit: Option<u64>) -> Option<u64>
    ensures { result ≡ time_after time limit }
{
    Some(time.saturating_add(limit?))
}

/// Returns the sooner of two times.
pub fn sooner(one: Option<u64>, other: Option<u64>) -> Option<u64>
    ensures { result ≡ sooner_of one other }
{
    match (one, other) {
        (Some(one), Some(other)) => Some(one.min(other)),
        (Some(one), None) => Some(one),
        (None, other) => other,
    }
}

#[derive(Drop)]
pub(crate) struct Strangers {
    limits: Limits,
    known: ArrayVec<Stranger, MAX_SLOTS>,
}

impl Strangers {
    pub(crate) fn new(limits: Limits) -> Strangers
        ensures limits { result.limits ≡ limits }
        ensures none { result.known.items ≡ [] }
    {
        Strangers {
            limits,
            known: ArrayVec::new(),
        }
    }

    pub(crate) fn forget(&mut self)
        ensures limits { self.new.limits ≡ self.old.limits }
        ensures none { self.new.known.items ≡ [] }
    {
        self.known.clear();
    }

    pub(crate) fn are_limited(&self) -> bool
        ensures { result ≡ are_limited self.now.limits }
    {
        self.limits.silent.is_some() || self.limits.staying.is_some()
    }

    /// Updates the clients from the connections without a key.
    pub(crate) fn look(&mut self, keyless: &ArrayVec<Keyless, MAX_SLOTS>, now: u64)
        ensures limits { self.new.limits ≡ self.old.limits }
        ensures known { self.new.known.items
            ≡ strangers_of self.old.known.items now keyless.now.items }
    {
        self.known = strangers_of(keyless, self.known.as_slice(), now);
    }

    /// Returns when the first of them is disconnected.
    pub(crate) fn due(&self) -> Option<u64>
        ensures { result ≡ first_limit self.now.limits self.now.known.items }
    {
        first_limit(self.known.as_slice(), &self.limits)
    }

    pub(crate) fn is_due(&self, now: u64) -> bool
        ensures { result ≡ is_some (first_due self.now.limits now self.now.known.items) }
    {
        first_due(self.known.as_slice(), &self.limits, now).is_some()
    }

    /// Removes the next client to be disconnected and returns its handle.
    pub(crate) fn next_due(&mut self, now: u64) -> Option<u16>
        ensures { result ≡ option_map (λ stranger. stranger.connection.handle)
            (first_due self.old.limits now self.old.known.items) }
    {
        let due = first_due(self.known.as_slice(), &self.limits, now)?;
        let connection = due.connection;
        self.known
            .retain(|one| one.connection.ordinal != connection.ordinal);
        Some(connection.handle)
    }
}

fn first_limit(known: &[Stranger], limits: &Limits) -> Option<u64>
    ensures { result ≡ first_limit limits.now known.now }
{
    let mut first = None;
    for stranger in known {
        first = sooner(first, limits.due(stranger));
    }
    first
}

fn first_due(known: &[Stranger], limits: &Limits, now: u64) -> Option<Stranger>
    ensures { result ≡ first_due limits.now now known.now }
{
    for stranger in known {
        if limits.is_due(stranger, now) {
            return Some(*stranger);
        }
    }
    None
}

fn strangers_of(
    keyless: &ArrayVec<Keyless, MAX_SLOTS>,
    known: &[Stranger],
    now: u64,
) -> ArrayVec<Stranger, MAX_SLOTS>
    ensures { result.items ≡ strangers_of known.now now keyless.now.items }
{
    let mut strangers = ArrayVec::new();
    for connection in keyless.as_slice() {
        strangers.push(stranger_of(connection, known, now));
    }
    strangers
}

fn stranger_of(connection: &Keyless, known: &[Stranger], now: u64) -> Stranger
    ensures { result ≡ stranger_of known.now now connection.now }
{
    Stranger {
        connection: *connection,
        heard: heard_at(known, connection, now),
        found: found_at(known, connection.ordinal, now),
    }
}

fn heard_at(known: &[Stranger], connection: &Keyless, now: u64) -> u64
    ensures { result ≡ heard_at known.now connection.now now }
{
    for stranger in known {
        if stranger.connection.is_silent(connection) {
            return stranger.heard;
        }
    }
    now
}

fn found_at(known: &[Stranger], ordinal: u64, now: u64) -> u64
    ensures { result ≡ found_at known.now ordinal now }
{
    for stranger in known {
        if stranger.connection.ordinal == ordinal {
            return stranger.found;
        }
    }
    now
}
