//! A writer that adds words to lines.

ghost use Rattle.std.specs.Prelude.{◌≡◌, ◌<◌, ◌≤◌, [], ◌∷◌, length, take, true, IfOk, OnErr, OnOk};
ghost use Rattle.std.specs.Io.{WritesAtMost};
ghost use Rattle.std.specs.Io.KnownBytes.{Keeps, WriteAppends};
ghost use Rattle.att_words.specs.Worded.{AddsPartOf, AddsText, AddsWords, has_words, is_in_one_line};

use crate::handles::Handles;
use crate::line::{LONGEST, add_words};
use crate::sending::write_whole;
use crate::text::Text;
use arrayvec::ArrayVec;
use memchr::memchr;
use octet_io::{Failed, write_uninterrupted};
use std::io;
use std::io::{ErrorKind, Write};

/// A writer that passes each byte on at once, and adds words before the end of a line with a PDU.
///
/// It allocates nothing. A line of more than 2,048 bytes gets no words.
#[derive(Drop)]
pub struct Worded<'a, W> {
    writer: W,
    handles: Handles<'a>,
    /// The line so far, without its end.
    line: ArrayVec<u8, LONGEST>,
    /// Set if the line is longer than that.
    is_cut: bool,
}

impl<'a, W> Worded<'a, W> {
    ghost use Rattle.att_words.specs.Inner.{inner_of};

    /// Adds words with these names of handles to the lines that are written to a writer.
    pub fn new(writer: W, handles: Handles<'a>) -> Worded<'a, W>
        ensures { inner_of result ≡ writer }
    {
        Worded {
            writer,
            handles,
            line: ArrayVec::new(),
            is_cut: false,
        }
    }
}

impl<W: Write> Worded<'_, W> {
    ghost use Rattle.att_words.specs.Inner.{inner_of};

    /// Adds the words of the last line, if that has no end.
    pub fn finish(&mut self) -> Result<(), Failed>
        ensures ok { OnOk result
            (AddsText (W.contents (inner_of self.old)) (W.contents (inner_of self.new))) }
    {
        let text = self.take_words();
        let words = text.as_slice();
        if has_words(words) {
            return write_whole(words, &mut self.writer);
        }
        Ok(())
    }

    /// Returns the words of the line, which ends here.
    fn take_words(&mut self) -> Text
        ensures { inner_of self.new ≡ inner_of self.old }
    {
        let mut text = Text::new();
        if !self.is_cut {
            add_words(&mut text, self.line.as_slice(), self.handles);
        }
        self.line.clear();
        self.is_cut = false;
        text
    }

    /// Writes the words of the line and its end.
    fn end_line(&mut self) -> Result<usize, Failed>
        ensures worded { IfOk result (λ count. (count ≡ 1) × AddsWords (10 ∷ [])
            (W.contents (inner_of self.old)) (W.contents (inner_of self.new))) }
        ensures front { OnErr result (AddsPartOf (10 ∷ [])
            (W.contents (inner_of self.old)) (W.contents (inner_of self.new))) }
    {
        let text = self.take_words();
        end_with(text.as_slice(), &mut self.writer)?;
        Ok(1)
    }

    /// Writes a part of the line, and remembers what was written.
    fn pass(&mut self, octets: &[u8]) -> Result<usize, Failed>
        ensures bound { IfOk result (λ count. count ≤ length octets.now) }
        ensures progress { IfOk result (λ count. 0 < length octets.now → 0 < count) }
        ensures octets { WriteAppends (W.contents (inner_of self.old))
            (W.contents (inner_of self.new)) result octets.now }
    {
        let count = write_uninterrupted(&mut self.writer, octets)?;
        if self.line.try_extend_from_slice(&octets[..count]).is_err() {
            self.is_cut = true;
        }
        Ok(count)
    }

    /// Writes bytes up to the end of the line, or that end with the words before it.
    pub(crate) fn put(&mut self, octets: &[u8]) -> Result<usize, Failed>
        ensures bound { IfOk result (λ count. count ≤ length octets.now) }
        ensures progress { IfOk result (λ count. 0 < length octets.now → 0 < count) }
        ensures worded { IfOk result (λ count. AddsWords (take count octets.now)
            (W.contents (inner_of self.old)) (W.contents (inner_of self.new))) }
        ensures front { OnErr result (AddsPartOf (take 1 octets.now)
            (W.contents (inner_of self.old)) (W.contents (inner_of self.new))) }
    {
        match octets {
            [b'\n', ..] => self.end_line(),
            _ => {
                let end = memchr(b'\n', octets).unwrap_or(octets.len());
                self.pass(&octets[..end])
            }
        }
    }
}

impl<W: Write> Write for Worded<'_, W> {
    ghost use Rattle.att_words.specs.Inner.{inner_of};

    fn write(&mut self, buf: &[u8]) -> io::Result<usize>
        ensures bound { WritesAtMost result buf.now }
        ensures bytes { WriteAppends None None result buf.now }
        ensures worded { IfOk result (λ count. AddsWords (take count buf.now)
            (W.contents (inner_of self.old)) (W.contents (inner_of self.new))) }
        ensures front { OnErr result (AddsPartOf (take 1 buf.now)
            (W.contents (inner_of self.old)) (W.contents (inner_of self.new))) }
    {
        match self.put(buf) {
            Ok(count) => Ok(count),
            Err(Failed) => Err(io::Error::from(ErrorKind::Other)),
        }
    }

    fn flush(&mut self) -> io::Result<()>
        ensures bytes { Keeps None None }
        ensures inner { Keeps (W.contents (inner_of self.old)) (W.contents (inner_of self.new)) }
    {
        self.writer.flush()
    }
}

/// Returns true if a text is two spaces and words of one line.
fn has_words(text: &[u8]) -> bool
    ensures { result ≡ has_words text.now }
{
    match text {
        [first, second, words @ ..] => {
            *first == b' ' && *second == b' ' && is_in_one_line(words)
        }
        _ => false,
    }
}

fn is_in_one_line(octets: &[u8]) -> bool
    ensures { result ≡ is_in_one_line octets.now }
{
    octets.iter().all(|octet| *octet != b'\n')
}

/// Writes the words of a line and its end.
fn end_with<W: Write>(text: &[u8], writer: &mut W) -> Result<(), Failed>
    ensures worded { OnOk result
        (AddsWords (10 ∷ []) (W.contents writer.old) (W.contents writer.new)) }
    ensures front { OnErr result
        (AddsPartOf (10 ∷ []) (W.contents writer.old) (W.contents writer.new)) }
{
    if has_words(text) {
        end_with_words(text, writer)
    } else {
        write_whole(b"\n", writer)
    }
}

fn end_with_words<W: Write>(text: &[u8], writer: &mut W) -> Result<(), Failed>
    requires { has_words text.now ≡ true }
    ensures worded { OnOk result
        (AddsWords (10 ∷ []) (W.contents writer.old) (W.contents writer.new)) }
    ensures front { OnErr result
        (AddsPartOf (10 ∷ []) (W.contents writer.old) (W.contents writer.new)) }
{
    write_whole(text, writer)?;
    write_whole(b"\n", writer)
}
