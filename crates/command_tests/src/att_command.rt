//! The command `att`: an input in pieces, and inputs and outputs that fail.

use arrayvec::ArrayVec;
use shell_files::{READS, ShellFault, att_lines};
use std::alloc::Global;
use std::io;
use std::io::{ErrorKind, Read, Write};
use std::process::Abort;

const INPUT: &[u8] = b"0a0300\n0a0000\n12030041\n0a03\n20\nd20300\n";

const OUTPUT: &[u8] = b"0b4c6f636b\n010a000001\n0112030003\n010a000004\n0120000006\n-\n";

/// A reader in pieces of at most `piece` bytes, which fails after `reads` reads.
#[derive(Drop)]
struct Pieces<R> {
    reader: R,
    piece: usize,
    reads: u64,
    error: ErrorKind,
}

impl<R: Read> Read for Pieces<R> {
    fn read(&mut self, buf: &mut [u8]) -> io::Result<usize> {
        if is_failing(&mut self.reads) {
            return Err(io::Error::from(self.error));
        }
        let end = self.piece.min(buf.len());
        self.reader.read(&mut buf[..end])
    }
}

fn is_failing(reads: &mut u64) -> bool {
    if *reads == 0 {
        *reads = u64::MAX;
        return true;
    }
    *reads -= 1;
    false
}

fn in_pieces<R: Read>(reader: R, piece: usize) -> Pieces<R> {
    Pieces {
        reader,
        piece,
        reads: u64::MAX,
        error: ErrorKind::Other,
    }
}

/// A writer that accepts `room` bytes and then fails.
#[derive(Drop)]
struct Room {
    room: usize,
    taken: ArrayVec<u8, 80>,
}

impl Write for Room {
    fn write(&mut self, buf: &[u8]) -> io::Result<usize> {
        let count = buf
            .len()
            .min(self.room)
            .min(self.taken.remaining_capacity());
        if count == 0 {
            return Err(io::Error::from(ErrorKind::BrokenPipe));
        }
        self.room -= count;
        self.taken.try_extend_from_slice(&buf[..count]).unwrap();
        Ok(count)
    }

    fn flush(&mut self) -> io::Result<()> {
        Ok(())
    }
}

/// Runs the command over an input, and compares its result and output.
fn answers<R: Read>(
    rt: &impl Abort,
    alloc: Global,
    input: &mut R,
    output: &[u8],
    ended: Result<(), ShellFault>,
) {
    assert!(rt; is_answered(alloc, input, output, ended), "{output:?}");
}

fn is_answered<R: Read>(
    alloc: Global,
    input: &mut R,
    output: &[u8],
    ended: Result<(), ShellFault>,
) -> bool {
    let mut printed = Vec::new(alloc);
    att_lines(alloc, input, &mut printed) == ended && printed.as_slice() == output
}

fn breaks_off<R: Read>(rt: &impl Abort, alloc: Global, input: &mut R, output: &[u8]) {
    assert!(rt; is_broken_off(alloc, input, output));
}

fn is_broken_off<R: Read>(alloc: Global, input: &mut R, output: &[u8]) -> bool {
    let mut printed = Vec::new(alloc);
    att_lines(alloc, input, &mut printed) == Err(ShellFault::Unreadable)
        && output.starts_with(printed.as_slice())
}

#[test]
fn answers_however_the_input_is_cut(rt: HostRuntime) {
    for piece in 1..40 {
        let mut input = in_pieces(INPUT, piece);
        answers(&rt, rt.alloc(), &mut input, OUTPUT, Ok(()));
    }
}

#[test]
fn tells_a_failed_read(rt: HostRuntime) {
    for reads in 0..39 {
        let mut input = in_pieces(INPUT, 1);
        input.reads = reads;
        breaks_off(&rt, rt.alloc(), &mut input, OUTPUT);
    }
}

#[test]
fn reads_on_after_an_interruption(rt: HostRuntime) {
    for reads in 0..39 {
        let mut input = in_pieces(INPUT, 1);
        input.reads = reads;
        input.error = ErrorKind::Interrupted;
        answers(&rt, rt.alloc(), &mut input, OUTPUT, Ok(()));
    }
}

#[test]
fn gives_up_an_input_without_end(rt: HostRuntime) {
    let mut input = in_pieces(io::repeat(b'\n'), 1);
    breaks_off(&rt, rt.alloc(), &mut input, b"");
    assert_eq!(rt; input.reads, u64::MAX - READS);
}

#[test]
fn tells_a_failed_write(rt: HostRuntime) {
    for room in 0..OUTPUT.len() {
        assert!(rt; is_unwritten(rt.alloc(), room), "{room}");
    }
}

fn is_unwritten(alloc: Global, room: usize) -> bool {
    let mut input = INPUT;
    let mut output = Room {
        room,
        taken: ArrayVec::new(),
    };
    att_lines(alloc, &mut input, &mut output) == Err(ShellFault::Unwritten)
        && output.taken.len() == room
        && OUTPUT.starts_with(output.taken.as_slice())
}
