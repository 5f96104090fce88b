//! Input from the application, line by line.

ghost use Rattle.std.specs.Prelude.{◌≡◌, ◌==◌, ◌+◌, [], length, nat_le};
ghost use Rattle.std.specs.List.{after_first, position_or_len};
ghost use Rattle.app_lines.specs.Inbox.{found_in, is_feed, joined_if_fits, line_after, line_in, rest_after};
ghost use Rattle.app_lines.specs.declared.inbox.Found.TheVariants.{Line};

use arrayvec::ArrayVec;
use memchr::memchr;
use std::marker::Model;

/// The most bytes of a line of an application, without its line feed.
pub const LONGEST: usize = 1_100;

/// Capacity of an inbox in bytes.
pub const ROOM: usize = 2_048;

/// The beginning of an inbox.
#[derive(Clone, Copy)]
pub enum Found {
    /// A line.
    Line,
    /// No complete line yet.
    Nothing,
    /// A line of more than `LONGEST` bytes, which may be incomplete.
    TooLong,
}

/// Bytes received from the application.
#[derive(Drop)]
pub struct Inbox {
    octets: ArrayVec<u8, ROOM>,
}

impl Model for Inbox {
    ghost use Rattle.octet_io.specs.Number.{Octets};

    ghost Value = { Octets };

    ghost view = { λ inbox. inbox.octets.items };
}

impl Inbox {
    /// Creates an empty inbox.
    pub fn new() -> Inbox
        ensures none { result ≡ [] }
    {
        Inbox {
            octets: ArrayVec::new(),
        }
    }

    /// Returns the free capacity in bytes.
    pub fn room(&self) -> usize
        ensures { result + length self.now ≡ ROOM }
    {
        self.octets.remaining_capacity()
    }

    /// Returns the kind of its beginning.
    pub fn found(&self) -> Found
        ensures { result ≡ found_in self.now }
    {
        let length = self.line_length();
        if length > LONGEST {
            Found::TooLong
        } else if length < self.octets.len() {
            Found::Line
        } else {
            Found::Nothing
        }
    }

    /// Returns the bytes before the first line feed, or all if there is none.
    pub fn first_line(&self) -> &[u8]
        ensures { result.now ≡ line_in self.now }
    {
        &self.octets.as_slice()[..self.line_length()]
    }

    /// Returns true if it has no bytes.
    pub fn is_empty(&self) -> bool
        ensures { result ≡ (length self.now == 0) }
    {
        self.octets.is_empty()
    }

    /// Appends bytes. Returns false and changes nothing if they do not fit.
    pub fn take(&mut self, octets: &[u8]) -> bool
        ensures fits { result ≡ nat_le (length self.old + length octets.now) ROOM }
        ensures taken { self.new ≡ joined_if_fits self.old octets.now }
    {
        self.octets.try_extend_from_slice(octets).is_ok()
    }

    /// Moves the next line to `line`, without its line feed, and returns what it has found. Changes
    /// nothing unless that is a line.
    pub fn next_line(&mut self, line: &mut ArrayVec<u8, LONGEST>) -> Found
        ensures found { result ≡ found_in self.old }
        ensures line { line.new.items ≡ line_after (found_in self.old) self.old line.old.items }
        ensures rest { self.new ≡ rest_after (found_in self.old) self.old }
    {
        let found = self.found();
        if let Found::Line = found {
            self.move_line(line);
        }
        found
    }

    fn move_line(&mut self, line: &mut ArrayVec<u8, LONGEST>)
        requires { found_in self.old ≡ Line }
        ensures line { line.new.items ≡ line_in self.old }
        ensures rest { self.new ≡ after_first is_feed self.old }
    {
        line.clear();
        line.try_extend_from_slice(self.first_line()).unwrap();
        let mut rest = ArrayVec::new();
        rest.try_extend_from_slice(&self.octets.as_slice()[self.line_length() + 1..])
            .unwrap();
        self.octets = rest;
    }

    /// Returns the length of the first line without its line feed, or of all bytes if no line ends.
    #[tactic(auto, using(crate::proofs::Feeds::first_feed))]
    fn line_length(&self) -> usize
        ensures { result ≡ position_or_len is_feed self.now }
    {
        let octets = self.octets.as_slice();
        memchr(b'\n', octets).unwrap_or(octets.len())
    }
}
