//! A file with a bound on its size.

ghost use Rattle.std.specs.Prelude.{◌≡◌, ◌+◌, ◌≤◌, ◌<◌, ◌||◌, false, length, nat_lt, None, IfOk, IfErr};

use octet_io::{Failed, Sink, write_uninterrupted};
use std::fs::File;

/// A file that is written from its start and never exceeds a bound.
#[derive(Drop)]
pub(crate) struct Bounded {
    file: File,
    left: u64,
    is_full: bool,
}

impl Bounded {
    /// Returns an empty file of at most `most` bytes.
    pub(crate) fn new(file: File, most: u64) -> Bounded
        ensures left { result.left ≡ most }
        ensures full { result.is_full ≡ false }
    {
        Bounded {
            file,
            left: most,
            is_full: false,
        }
    }

    pub(crate) fn is_full(&self) -> bool
        ensures { result ≡ self.now.is_full }
    {
        self.is_full
    }

    /// Writes a prefix of the bytes. Fails if the bound does not allow all of them.
    fn write_front(&mut self, bytes: &[u8]) -> Result<usize, Failed>
        ensures bound { IfOk result (λ count. count ≤ length bytes.now) }
        ensures progress { IfOk result (λ count. 0 < length bytes.now → 0 < count) }
        ensures counted { IfOk result (λ count. self.new.left + count ≡ self.old.left) }
        ensures failed { IfErr result (λ _. self.new.left ≡ self.old.left) }
        ensures full { self.new.is_full
            ≡ (self.old.is_full || nat_lt self.old.left (length bytes.now)) }
    {
        if bytes.len() as u64 > self.left {
            self.is_full = true;
            return Err(Failed);
        }
        let count = write_uninterrupted(&mut self.file, bytes)?;
        self.left -= count as u64;
        Ok(count)
    }
}

impl Sink for Bounded {
    ghost contents = { λ _. None };

    ghost failures = { λ _. None };

    fn write(&mut self, buf: &[u8]) -> Result<usize, Failed> {
        self.write_front(buf)
    }
}
