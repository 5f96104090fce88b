//! Output that waits to be sent.

ghost use Rattle.std.specs.Prelude.{◌≡◌, ◌+◌, ◌≤◌, ◌++◌, [], length, drop, nat_le, None, Some, IfErr, IfOk, OnOk};
ghost use Rattle.std.specs.Bool.{OnTrue, OnFalse};

use octet_io::{Failed, Sink};
use std::alloc::{AllocError, Global};
use std::marker::Model;

/// A queue of bytes to send, with a limit.
#[derive(Drop)]
pub struct Outbox {
    octets: Vec<u8>,
    limit: usize,
}

impl Model for Outbox {
    ghost use Rattle.std.specs.Prelude.{◌≤◌, length};
    ghost use Rattle.app_lines.specs.Outbox.{Waiting};

    ghost Value = { Waiting };

    ghost view = { λ outbox. record { octets = outbox.octets.items; limit = outbox.limit } };

    ghost invariant = { λ outbox. length outbox.octets.items ≤ outbox.limit };
}

impl Outbox {
    /// Creates an empty queue of at most `limit` bytes.
    pub fn new(alloc: Global, limit: usize) -> Outbox
        ensures none { result.octets ≡ [] }
        ensures limit { result.limit ≡ limit }
    {
        Outbox {
            octets: Vec::new(alloc),
            limit,
        }
    }

    /// Returns the queued bytes, oldest first.
    pub fn waiting(&self) -> &[u8]
        ensures octets { result.now ≡ self.now.octets }
        ensures few { length result.now ≤ self.now.limit }
    {
        self.octets.as_slice()
    }

    /// Returns the free capacity in bytes.
    pub fn room(&self) -> usize
        ensures { result + length self.now.octets ≡ self.now.limit }
    {
        self.limit - self.octets.len()
    }

    /// Queues a text. Returns false and changes nothing if it does not fit.
    ///
    /// An error changes nothing either: memory was refused.
    pub fn push(&mut self, text: &[u8]) -> Result<bool, AllocError>
        ensures fits { IfOk result
            (λ fits. fits ≡ nat_le (length self.old.octets + length text.now) self.old.limit) }
        ensures pushed { IfOk result
            (λ fits. OnTrue fits (self.new.octets ≡ self.old.octets ++ text.now)) }
        ensures unchanged { IfOk result
            (λ fits. OnFalse fits (self.new.octets ≡ self.old.octets)) }
        ensures refused { IfErr result (λ _. self.new.octets ≡ self.old.octets) }
        ensures limit { self.new.limit ≡ self.old.limit }
    {
        if text.len() > self.room() {
            return Ok(false);
        }
        self.octets.extend_from_slice(text)?;
        Ok(true)
    }

    /// Removes the first `count` bytes, which were sent.
    pub fn remove_sent(&mut self, count: usize)
        requires { count ≤ length self.old.octets }
        ensures left { self.new.octets ≡ drop count self.old.octets }
        ensures limit { self.new.limit ≡ self.old.limit }
    {
        let left = self.octets.len() - count;
        self.octets.rotate_left(count);
        self.octets.truncate(left);
    }

    /// Drops all bytes.
    pub fn clear(&mut self)
        ensures none { self.new.octets ≡ [] }
        ensures limit { self.new.limit ≡ self.old.limit }
    {
        self.octets.clear();
    }
}

impl Sink for Outbox {
    ghost contents = { λ outbox. Some outbox.octets };

    ghost failures = { λ _. None };

    fn write(&mut self, buf: &[u8]) -> Result<usize, Failed> {
        match self.push(buf) {
            Ok(true) => Ok(buf.len()),
            _ => Err(Failed),
        }
    }
}
