//! A connection at the application's socket that is not the application. All times are in
//! milliseconds.

ghost use Rattle.std.specs.Prelude.{◌≡◌};
ghost use Rattle.app_lines.specs.Inbox.{found_in};
ghost use Rattle.app_lines.specs.declared.inbox.Found.TheVariants.{Nothing};
ghost use Rattle.device_session.specs.Incoming.{reading_of, IsShort};
ghost use Rattle.device_session.specs.Visitor.{by_input, by_kind, has_something, is_asking, is_claiming, visit_of, visitor_at, visitor_read, would_come, ClaimsRightly, LeavesInTime, WakesInTime};
ghost use Rattle.device_session.specs.declared.visitor.Visit.TheVariants.{Reads};

use crate::asked::{LineKind, line_kind};
use crate::incoming::{Incoming, Input, Read};
use app_lines::Found;

/// Time after which a visitor that has sent nothing becomes the application, and another is closed.
const VISIT: u64 = 1_000;

/// The milliseconds in which an application at a path may accept nothing of what waits for it.
const SLOW_TIME: u64 = 5_000;

/// The milliseconds in which an application at a port may accept nothing.
///
/// The other end's system accepts nothing until the application has read some 64 KiB.
const SLOW_PORT_TIME: u64 = 20_000;

/// A connection that is not the application: it asks, or becomes the application.
#[derive(Drop)]
pub(crate) struct Visitor {
    pub(crate) id: u64,
    pub(crate) incoming: Incoming,
    /// How long it may accept nothing as the application.
    pub(crate) slow: u64,
    due: u64,
}

/// The next action of a visitor.
#[derive(Clone, Copy)]
pub(crate) enum Visit {
    Stays,
    /// It may have sent more.
    Reads,
    /// It has sent a line that is answered.
    Asks,
    /// It becomes the application.
    Comes,
    Leaves,
}

impl Visitor {
    /// Returns a visitor that has just connected, at a port if it `is_remote`.
    pub(crate) fn new(id: u64, is_remote: bool, now: u64) -> Visitor
        ensures visitor { result ≡ visitor_at id is_remote now }
        // For all that it may send:
        ensures place { ClaimsRightly }
        ensures in_time { LeavesInTime }
        ensures wakes { WakesInTime }
    {
        let slow = if is_remote { SLOW_PORT_TIME } else { SLOW_TIME };
        Visitor {
            id,
            incoming: Incoming::new(),
            slow,
            due: now.saturating_add(VISIT),
        }
    }

    /// Returns when its time is over.
    pub(crate) fn due(&self) -> u64
        ensures { result ≡ self.now.due }
    {
        self.due
    }

    /// Returns what it does next. Its calls claim the application's place only if that `is_free`.
    ///
    /// Once its time is over, the lines that were read are answered, and no more are read.
    #[tactic(auto, using(crate::proofs::Visits::reads_without_a_line))]
    pub(crate) fn next(&self, now: u64, is_free: bool) -> Visit
        ensures visit { result ≡ visit_of self.now now is_free }
        // There is space for what it reads.
        ensures reads { result ≡ Reads → found_in self.now.incoming.inbox ≡ Nothing }
    {
        match self.incoming.found() {
            Found::Line => by_kind(line_kind(self.incoming.first_line()), is_free),
            Found::TooLong => Visit::Asks,
            Found::Nothing => by_input(
                self.incoming.input,
                self.incoming.is_nothing(),
                self.due <= now,
            ),
        }
    }

    /// Notes what a read brought, unless a line waits.
    pub(crate) fn arrived(&mut self, read: Read<'_>)
        requires few { IsShort (reading_of read) }
        ensures { self.new ≡ visitor_read (reading_of read.entry) self.old }
    {
        if !self.incoming.has_line() {
            self.incoming.arrived(read);
        }
    }

    /// Returns true if there is something to do before its time is over.
    pub(crate) fn has_something(&self) -> bool
        ensures { result ≡ has_something self.now }
    {
        self.incoming.input != Input::Quiet || self.incoming.has_line()
    }

    /// Returns true if its next line claims the application's place, whether that is free or not.
    pub(crate) fn is_claiming(&self) -> bool
        ensures { result ≡ is_claiming self.now }
    {
        match self.incoming.found() {
            Found::Line => matches!(line_kind(self.incoming.first_line()), LineKind::Claim),
            _ => false,
        }
    }

    /// Returns true if it becomes the application in its time, unless it sends something else.
    pub(crate) fn would_come(&self) -> bool
        ensures { result ≡ would_come self.now }
    {
        self.is_claiming() || self.incoming.is_nothing()
    }

    /// Returns true if its next line is answered, and does not claim the application's place.
    pub(crate) fn is_asking(&self, is_free: bool) -> bool
        ensures { result ≡ is_asking self.now is_free }
    {
        match self.incoming.found() {
            Found::Line => matches!(
                by_kind(line_kind(self.incoming.first_line()), is_free),
                Visit::Asks
            ),
            Found::TooLong => true,
            Found::Nothing => false,
        }
    }
}

fn by_kind(kind: LineKind, is_free: bool) -> Visit
    ensures { result ≡ by_kind kind is_free }
{
    match kind {
        LineKind::Claim => Visit::Comes,
        LineKind::Call if is_free => Visit::Comes,
        _ => Visit::Asks,
    }
}

fn by_input(input: Input, is_nothing: bool, is_late: bool) -> Visit
    ensures { result ≡ by_input input is_nothing is_late }
{
    match input {
        Input::Ended => Visit::Leaves,
        _ if is_late && !is_nothing => Visit::Leaves,
        Input::Readable => Visit::Reads,
        Input::Quiet if is_late => Visit::Comes,
        Input::Quiet => Visit::Stays,
    }
}
