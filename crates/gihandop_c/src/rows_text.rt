//! A subscriptions file in memory.

ghost use Rattle.std.specs.Prelude.{Some, None};

use octet_io::{Failed, Sink};

/// The bytes written so far. Writing fails if memory is refused.
#[derive(Drop)]
pub(crate) struct RowsText {
    pub(crate) octets: Vec<u8>,
}

impl Sink for RowsText {
    ghost contents = { λ text. Some text.octets.items };

    ghost failures = { λ _. None };

    fn write(&mut self, buf: &[u8]) -> Result<usize, Failed> {
        match self.octets.extend_from_slice(buf) {
            Ok(()) => Ok(buf.len()),
            Err(_) => Err(Failed),
        }
    }
}
