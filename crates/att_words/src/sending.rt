//! Writing of whole texts.

ghost use Rattle.std.specs.Prelude.{OnErr, OnOk};
ghost use Rattle.std.specs.Io.KnownBytes.{Appends};
ghost use Rattle.octet_io.specs.Stream.{WritesFront};

use octet_io::{Failed, write_uninterrupted};
use std::io::Write;

/// Writes a whole text. On an error a prefix of it was written.
pub(crate) fn write_whole<W: Write>(text: &[u8], writer: &mut W) -> Result<(), Failed>
    ensures ok { OnOk result (Appends (W.contents writer.old) (W.contents writer.new) text.now) }
    ensures front { OnErr result
        (WritesFront text.now (W.contents writer.old) (W.contents writer.new)) }
{
    let mut rest = text;
    while !rest.is_empty() {
        let count = write_uninterrupted(writer, rest)?;
        rest = rest.split_at(count).1;
    }
    Ok(())
}
