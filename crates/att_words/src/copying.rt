//! An input whose lines get words.

ghost use Rattle.std.specs.Prelude.{◌≡◌, OnOk, IfSome};
ghost use Rattle.std.specs.Io.KnownBytes.{Keeps};
ghost use Rattle.att_words.specs.Worded.{AddsText, AddsWords, AddsWordsOf};
ghost use Rattle.att_words.specs.Inner.{inner_of};

use crate::worded::Worded;
use std::io::{ErrorKind, Read, Write};

/// The largest size of a read in bytes.
const CHUNK: usize = 4_096;

/// Why an input is not copied to its end.
#[derive(Clone, Copy)]
pub enum CopyFault {
    /// The input cannot be read.
    Unreadable,
    /// The output cannot be written.
    Unwritten,
}

/// Copies an input to its end, and adds words to its lines.
///
/// Flushes the writer after each read.
pub fn copy<R: Read, W: Write>(reader: &mut R, worded: &mut Worded<'_, W>) -> Result<(), CopyFault>
    // The whole input is printed to the byte, with two spaces and words of one line added before
    // ends of lines and at the end of the input.
    ensures ok { OnOk result (IfSome (R.remaining reader.old) (λ input. AddsWordsOf input
        (W.contents (inner_of worded.old)) (W.contents (inner_of worded.new)))) }
{
    let mut chunk = [0; CHUNK];
    for _read in 0..u64::MAX {
        match reader.read(&mut chunk) {
            Ok(0) => return end(worded),
            Ok(count) => put_and_flush(&chunk[..count], worded)?,
            Err(error) if error.kind() == ErrorKind::Interrupted => {}
            Err(_) => return Err(CopyFault::Unreadable),
        }
    }
    Err(CopyFault::Unreadable)
}

fn end<W: Write>(worded: &mut Worded<'_, W>) -> Result<(), CopyFault>
    ensures { OnOk result (AddsText (W.contents (inner_of worded.old))
        (W.contents (inner_of worded.new))) }
{
    if worded.finish().is_err() {
        return Err(CopyFault::Unwritten);
    }
    flush(worded)
}

fn flush<W: Write>(worded: &mut Worded<'_, W>) -> Result<(), CopyFault>
    ensures { Keeps (W.contents (inner_of worded.old)) (W.contents (inner_of worded.new)) }
{
    match worded.flush() {
        Ok(()) => Ok(()),
        Err(_) => Err(CopyFault::Unwritten),
    }
}

fn put_and_flush<W: Write>(octets: &[u8], worded: &mut Worded<'_, W>) -> Result<(), CopyFault>
    ensures ok { OnOk result (AddsWords octets.now
        (W.contents (inner_of worded.old)) (W.contents (inner_of worded.new))) }
{
    put_all(octets, worded)?;
    flush(worded)
}

fn put_all<W: Write>(octets: &[u8], worded: &mut Worded<'_, W>) -> Result<(), CopyFault>
    ensures ok { OnOk result (AddsWords octets.now
        (W.contents (inner_of worded.old)) (W.contents (inner_of worded.new))) }
{
    let mut rest = octets;
    while !rest.is_empty() {
        match worded.put(rest) {
            Ok(count) => rest = rest.split_at(count).1,
            Err(_) => return Err(CopyFault::Unwritten),
        }
    }
    Ok(())
}
