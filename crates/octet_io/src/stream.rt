ghost use Rattle.std.specs.Prelude.{◌≡◌, ℕ, ◌<◌, ◌≤◌, Option, Some, None, IfOk, IfErr, OnOk, OnErr, [], length};
ghost use Rattle.std.specs.Io.KnownBytes.{Appends, ReadConsumes, WriteAppends};
ghost use Rattle.octet_io.specs.Number.{Octets};
ghost use Rattle.octet_io.specs.Stream.{finds_end, CountsFailure, CountsIf, CountsOne, WritesFront};

use arrayvec::ArrayVec;
use std::io::{ErrorKind, Read, Write};

/// A read or write that failed, with no byte transferred.
#[derive(Clone, Copy, Debug, PartialEq, Eq)]
pub struct Failed;

/// A source of bytes.
pub trait Source {
    /// Bytes that later reads will return, if known.
    ghost remaining: { Self → Option Octets };

    /// Number of reads, or `None` if not counted or after an overflow.
    ghost reads: { Self → Option ℕ };

    /// Number of reads that found the end, or `None` as for `reads`.
    ghost ends: { Self → Option ℕ };

    /// Number of failed reads, or `None` as for `reads`.
    ghost failures: { Self → Option ℕ };

    /// Reads bytes into `buf`. Returns how many: 0 only at the end, or if `buf` is empty.
    fn read(&mut self, buf: &mut [u8]) -> Result<usize, Failed>
        ensures bound { IfOk result (λ count. count ≤ length buf.old) }
        ensures octets { ReadConsumes (remaining self.old) (remaining self.new) result buf.new }
        ensures reads { CountsOne (reads self.old) (reads self.new) }
        ensures ends { CountsIf (finds_end result (length buf.old)) (ends self.old)
            (ends self.new) }
        ensures failures { CountsFailure (failures self.old) (failures self.new) result };
}

/// A sink of bytes.
pub trait Sink {
    /// Bytes written so far, if known.
    ghost contents: { Self → Option Octets };

    /// Number of failed writes, or `None` if not counted or after an overflow.
    ghost failures: { Self → Option ℕ };

    /// Writes a prefix of `buf` and returns its length: 0 only if `buf` is empty.
    fn write(&mut self, buf: &[u8]) -> Result<usize, Failed>
        ensures bound { IfOk result (λ count. count ≤ length buf.now) }
        ensures progress { IfOk result (λ count. 0 < length buf.now → 0 < count) }
        ensures octets { WriteAppends (contents self.old) (contents self.new) result buf.now }
        ensures failures { CountsFailure (failures self.old) (failures self.new) result };
}

fn one_more(counted: Option<u64>) -> Option<u64>
    ensures { CountsOne counted result }
{
    match counted {
        Some(count) if count < u64::MAX => Some(count + 1),
        _ => None,
    }
}

/// Writes all bytes. On an error a prefix of them was written.
pub fn write_all<W: Sink>(octets: &[u8], sink: &mut W) -> Result<(), Failed>
    // The sink has all octets, after what it had.
    ensures ok { OnOk result (Appends (W.contents sink.old) (W.contents sink.new) octets.now) }
    // After a failure it has a prefix of them.
    ensures front { OnErr result
        (WritesFront octets.now (W.contents sink.old) (W.contents sink.new)) }
    ensures failures { CountsFailure (W.failures sink.old) (W.failures sink.new) result }
{
    let mut rest = octets;
    while !rest.is_empty() {
        let count = sink.write(rest)?;
        rest = rest.split_at(count).1;
    }
    Ok(())
}

/// A std reader as a source, which repeats interrupted reads.
#[derive(Drop)]
pub struct Reader<R> {
    reader: R,
    reads: Option<u64>,
    ends: Option<u64>,
    failed_reads: Option<u64>,
}

impl<R> Reader<R> {
    ghost use Rattle.octet_io.specs.Streams.{reader_of, reads_of, ends_of, failed_reads_of};

    /// Wraps a reader, with all counters at 0.
    pub fn new(reader: R) -> Self
        ensures reader { reader_of result ≡ reader }
        ensures reads { reads_of result ≡ Some 0 }
        ensures ends { ends_of result ≡ Some 0 }
        ensures failures { failed_reads_of result ≡ Some 0 }
    {
        Reader {
            reader,
            reads: Some(0),
            ends: Some(0),
            failed_reads: Some(0),
        }
    }
}

impl<R: Read> Source for Reader<R> {
    ghost remaining = { λ source. R.remaining source.reader };

    ghost reads = { λ source. source.reads };

    ghost ends = { λ source. source.ends };

    ghost failures = { λ source. source.failed_reads };

    fn read(&mut self, buf: &mut [u8]) -> Result<usize, Failed> {
        let room = buf.len();
        let read = read_uninterrupted(&mut self.reader, buf);
        self.reads = one_more(self.reads);
        if finds_end(read, room) {
            self.ends = one_more(self.ends);
        }
        if read.is_err() {
            self.failed_reads = one_more(self.failed_reads);
        }
        read
    }
}

/// Returns true if a read returned nothing although the buffer has space.
fn finds_end(read: Result<usize, Failed>, room: usize) -> bool
    ensures { result ≡ finds_end read room }
{
    match read {
        Ok(count) => count == 0 && 0 < room,
        Err(_) => false,
    }
}

fn read_uninterrupted<R: Read>(reader: &mut R, buf: &mut [u8]) -> Result<usize, Failed>
    ensures bound { IfOk result (λ count. count ≤ length buf.old) }
    ensures octets { ReadConsumes (R.remaining reader.old) (R.remaining reader.new) result buf.new }
{
    for _attempt in 0..u64::MAX {
        match reader.read(buf) {
            Ok(count) => return Ok(count),
            Err(error) if error.kind() == ErrorKind::Interrupted => {}
            Err(_) => return Err(Failed),
        }
    }
    Err(Failed)
}

/// A std writer as a sink, which repeats interrupted writes.
#[derive(Drop)]
pub struct Writer<W> {
    writer: W,
    failed_writes: Option<u64>,
}

impl<W> Writer<W> {
    ghost use Rattle.octet_io.specs.Streams.{writer_of, failed_writes_of};

    /// Wraps a writer, with its failure counter at 0.
    pub fn new(writer: W) -> Self
        ensures writer { writer_of result ≡ writer }
        ensures failures { failed_writes_of result ≡ Some 0 }
    {
        Writer {
            writer,
            failed_writes: Some(0),
        }
    }
}

impl<W: Write> Sink for Writer<W> {
    ghost contents = { λ sink. W.contents sink.writer };

    ghost failures = { λ sink. sink.failed_writes };

    fn write(&mut self, buf: &[u8]) -> Result<usize, Failed> {
        let written = write_uninterrupted(&mut self.writer, buf);
        if written.is_err() {
            self.failed_writes = one_more(self.failed_writes);
        }
        written
    }
}

/// Writes once, and again while interrupted.
pub fn write_uninterrupted<W: Write>(writer: &mut W, buf: &[u8]) -> Result<usize, Failed>
    ensures bound { IfOk result (λ count. count ≤ length buf.now) }
    ensures progress { IfOk result (λ count. 0 < length buf.now → 0 < count) }
    ensures octets { WriteAppends (W.contents writer.old) (W.contents writer.new) result buf.now }
{
    for _attempt in 0..u64::MAX {
        match writer.write(buf) {
            Ok(0) if !buf.is_empty() => return Err(Failed),
            Ok(count) => return Ok(count),
            Err(error) if error.kind() == ErrorKind::Interrupted => {}
            Err(_) => return Err(Failed),
        }
    }
    Err(Failed)
}

/// Bytes in memory as a source, which never fails and counts no reads.
#[derive(Drop)]
pub struct SliceSource<'a> {
    left: &'a [u8],
}

impl<'a> SliceSource<'a> {
    ghost use Rattle.octet_io.specs.Streams.{octets_left};

    /// Reads from these bytes.
    pub fn new(octets: &'a [u8]) -> Self
        ensures { octets_left result ≡ octets.now }
    {
        SliceSource { left: octets }
    }
}

impl Source for SliceSource<'_> {
    ghost remaining = { λ source. Some source.left.now };

    ghost reads = { λ _. None };

    ghost ends = { λ _. None };

    ghost failures = { λ _. Some 0 };

    fn read(&mut self, buf: &mut [u8]) -> Result<usize, Failed> {
        let count = self.left.len().min(buf.len());
        let (now, later) = self.left.split_at(count);
        buf[..count].copy_from_slice(now);
        self.left = later;
        Ok(count)
    }
}

/// A buffer of at most `N` bytes as a sink, which fails if full.
#[derive(Drop)]
pub struct ArraySink<const N: usize> {
    octets: ArrayVec<u8, N>,
    refused_writes: Option<u64>,
}

impl<const N: usize> ArraySink<N> {
    ghost use Rattle.octet_io.specs.Streams.{octets_taken, failed_array_writes};

    /// Creates an empty sink.
    pub fn new() -> Self
        ensures octets { octets_taken result ≡ [] }
        ensures failures { failed_array_writes result ≡ Some 0 }
    {
        ArraySink {
            octets: ArrayVec::new(),
            refused_writes: Some(0),
        }
    }

    /// Returns the bytes written so far.
    pub fn octets(&self) -> &[u8]
        ensures { result.now ≡ octets_taken self.now }
    {
        self.octets.as_slice()
    }
}

impl<const N: usize> Sink for ArraySink<N> {
    ghost use Rattle.octet_io.specs.Streams.{octets_taken, failed_array_writes};

    ghost contents = { λ sink. Some sink.octets.items };

    ghost failures = { λ sink. sink.refused_writes };

    fn write(&mut self, buf: &[u8]) -> Result<usize, Failed>
        ensures bound { IfOk result (λ count. count ≤ length buf.now) }
        ensures progress { IfOk result (λ count. 0 < length buf.now → 0 < count) }
        ensures octets { WriteAppends (Some (octets_taken self.old))
            (Some (octets_taken self.new)) result buf.now }
        ensures failures { CountsFailure (failed_array_writes self.old)
            (failed_array_writes self.new) result }
        ensures full { IfErr result (λ _. length (octets_taken self.old) ≡ N) }
    {
        let count = buf.len().min(self.octets.remaining_capacity());
        if count == 0 && !buf.is_empty() {
            self.refused_writes = one_more(self.refused_writes);
            return Err(Failed);
        }
        self.octets.try_extend_from_slice(&buf[..count]).unwrap();
        Ok(count)
    }
}
