//! The octets that one connection sends, as lines.

ghost use Rattle.std.specs.Prelude.{◌≡◌, ◌≤◌, false, length};
ghost use Rattle.device_session.specs.Incoming as spec;
ghost use Rattle.app_lines.specs.Inbox.{found_in, line_in};
ghost use Rattle.app_lines.specs.declared.inbox.Found.TheVariants.{Nothing};
ghost use Rattle.device_session.specs.Incoming.{after_arrival, fresh, is_nothing, TakesEachLineOnce};
ghost use Rattle.device_session.specs.Incoming.Arrival.{Came, Later, Over, Ready, Taken};

use app_lines::{Found, Inbox, LONGEST};
use arrayvec::ArrayVec;

/// The most octets of one read.
pub(crate) const MOST_READ: usize = 512;

/// The state of a connection's input.
#[derive(Clone, Copy, PartialEq, Eq)]
pub(crate) enum Input {
    /// It may have sent more.
    Readable,
    /// It has sent nothing more yet.
    Quiet,
    /// It sends no more.
    Ended,
}

/// The outcome of one read of a connection.
#[derive(Clone, Copy)]
pub(crate) enum Read<'a> {
    Brought(&'a [u8]),
    /// Nothing has come yet.
    Waits,
    /// It sends no more.
    Ended,
    /// Its socket has failed: it sends no more.
    Failed,
}

/// The next line, if any, and whether it is the first of its connection.
#[derive(Clone, Copy)]
pub(crate) struct NextLine {
    pub(crate) found: Found,
    pub(crate) is_first: bool,
}

pub(crate) const NO_LINE: NextLine = NextLine {
    found: Found::Nothing,
    is_first: false,
};

/// The input of a connection: its octets that are not taken yet.
#[derive(Drop)]
pub(crate) struct Incoming {
    inbox: Inbox,
    pub(crate) input: Input,
    /// Set until its first line is taken.
    is_silent: bool,
}

impl Incoming {
    pub(crate) fn new() -> Incoming
        ensures fresh { result ≡ fresh }
        // For all that may come:
        ensures lines { TakesEachLineOnce }
    {
        Incoming {
            inbox: Inbox::new(),
            input: Input::Readable,
            is_silent: true,
        }
    }

    /// Returns what it has sent first.
    pub(crate) fn found(&self) -> Found
        ensures { result ≡ found_in self.now.inbox }
    {
        self.inbox.found()
    }

    /// Returns true if it has sent a line, or one that is too long.
    pub(crate) fn has_line(&self) -> bool
        ensures { result ≡ spec.is_found (found_in self.now.inbox) }
    {
        !matches!(self.found(), Found::Nothing)
    }

    /// Returns its first line, or else all its octets.
    pub(crate) fn first_line(&self) -> &[u8]
        ensures { result.now ≡ line_in self.now.inbox }
    {
        self.inbox.first_line()
    }

    /// Returns true if it has sent nothing yet.
    pub(crate) fn is_nothing(&self) -> bool
        ensures { result ≡ is_nothing self.now }
    {
        self.is_silent && self.inbox.is_empty()
    }

    /// Notes what one read brought, while no line is there.
    pub(crate) fn arrived(&mut self, read: Read<'_>)
        requires none { spec.is_found (found_in self.old.inbox) ≡ false }
        requires few { spec.IsShort (spec.reading_of read) }
        ensures { self.new ≡ spec.after_reading self.old (spec.reading_of read.entry) }
    {
        match read {
            Read::Brought(octets) => self.came(octets),
            Read::Waits => self.later(),
            Read::Ended | Read::Failed => self.over(),
        }
    }

    /// Adds what one read brought, while no line is there.
    #[tactic(auto, using(crate::proofs::Feeds::fits))]
    fn came(&mut self, octets: &[u8])
        requires none { found_in self.old.inbox ≡ Nothing }
        requires few { length octets.now ≤ MOST_READ }
        ensures came { self.new ≡ after_arrival self.old (Came octets.now) }
    {
        // It fits: an input without a line is short.
        self.inbox.take(octets);
    }

    /// Notes that nothing can be read yet.
    fn later(&mut self)
        ensures later { self.new ≡ after_arrival self.old Later }
    {
        self.input = Input::Quiet;
    }

    /// Notes that it sends no more.
    fn over(&mut self)
        ensures over { self.new ≡ after_arrival self.old Over }
    {
        self.input = Input::Ended;
    }

    /// Notes that it may have sent more.
    pub(crate) fn ready(&mut self)
        ensures ready { self.new ≡ after_arrival self.old Ready }
    {
        if let Input::Quiet = self.input {
            self.input = Input::Readable;
        }
    }

    /// Moves its next line to `line`, if there is one, and returns what it has found.
    pub(crate) fn take_line(&mut self, line: &mut ArrayVec<u8, LONGEST>) -> NextLine
        ensures next { result ≡ spec.next_line_of self.old }
        ensures line { line.new.items ≡ spec.octets_of_line self.old line.old.items }
        ensures taken { self.new ≡ after_arrival self.old Taken }
    {
        let is_first = self.is_silent;
        let found = self.inbox.next_line(line);
        if let Found::Line = found {
            self.is_silent = false;
        }
        NextLine { found, is_first }
    }
}
