//! A failing reader and a failing writer.

use crate::cut_streams::{all_told, due_after};
use crate::player::opened;
use crate::wire::Written;
use arrayvec::ArrayVec;
use att_table::examples::DOOR;
use gatt_host::{App, End, Host, HostFault, Input, PacketRef, drive, feed, serve};
use octet_io::{Reader, SliceSource, Source, Writer};
use std::alloc::Global;
use std::io;
use std::io::{ErrorKind, Read, Write};
use std::process::Abort;

/// Command Complete, which allows another command.
const READY: &[u8] = &[0x0E, 0x03, 0x01, 0x00, 0x00];

/// Returns 16 octets at a time and then fails.
#[derive(Drop)]
struct Pieces<'a> {
    octets: &'a [u8],
    reads: usize,
}

impl Read for Pieces<'_> {
    fn read(&mut self, buf: &mut [u8]) -> io::Result<usize> {
        if self.reads == 0 {
            return Err(io::Error::from(ErrorKind::Other));
        }
        self.reads -= 1;
        let count = self.octets.len().min(buf.len()).min(16);
        let (now, later) = self.octets.split_at(count);
        buf[..count].copy_from_slice(now);
        self.octets = later;
        Ok(count)
    }
}

/// Accepts some octets, and then fails or accepts none.
#[derive(Drop)]
struct Room {
    taken: ArrayVec<u8, 256>,
    room: usize,
    fails: bool,
}

impl Write for Room {
    fn write(&mut self, buf: &[u8]) -> io::Result<usize> {
        let count = buf
            .len()
            .min(self.room)
            .min(self.taken.remaining_capacity());
        if count == 0 && self.fails {
            return Err(io::Error::from(ErrorKind::BrokenPipe));
        }
        self.room -= count;
        self.taken.try_extend_from_slice(&buf[..count]).unwrap();
        Ok(count)
    }

    fn flush(&mut self) -> io::Result<()> {
        Ok(())
    }
}

/// Each call returns the fault and writes nothing.
fn has_stopped(host: &mut Host, fault: HostFault) -> bool {
    let mut written = Written::new();
    feed(host, &[0x04], &mut written) == Err(fault)
        && drive(host, &[Input::Call(App::Tick(1))], &mut written) == Err(fault)
        && serves_no_more(host, fault, &mut written)
        && written.octets().is_empty()
        && gives_no_more(host, fault)
}

fn serves_no_more(host: &mut Host, fault: HostFault, written: &mut Written) -> bool {
    let mut source = SliceSource::new(&[0x04]);
    serve(host, &mut source, written, 1) == Err(fault) && source.read(&mut [0; 2]).ok() == Some(1)
}

fn gives_no_more(host: &mut Host, fault: HostFault) -> bool {
    host.drained()
        && host.packet(PacketRef::Event(READY)) == Err(fault)
        && host.drained()
        && !host.next_out(&mut ArrayVec::new())
}

fn serve_failing(
    host: &mut Host,
    told: &[u8],
    reads: usize,
    written: &mut Written,
) -> Result<End, HostFault> {
    let mut reader = Reader::new(Pieces {
        octets: told,
        reads,
    });
    serve(host, &mut reader, written, 1_000)
}

/// Returns true at the end of the input, and false if a failed read stopped the host; `None` for
/// another outcome or output.
fn is_whole(host: &mut Host, told: &[u8], wanted: &[u8], reads: usize) -> Option<bool> {
    let mut written = Written::new();
    let served = serve_failing(host, told, reads, &mut written);
    if written.octets() != wanted {
        return None;
    }
    match served {
        Ok(_) => Some(true),
        Err(HostFault::Read) if has_stopped(host, HostFault::Read) => Some(false),
        Err(_) => None,
    }
}

fn is_whole_of_new(
    rt: &impl Abort,
    alloc: Global,
    told: &[u8],
    wanted: &[u8],
    reads: usize,
) -> Option<bool> {
    let mut host = opened(rt, alloc, DOOR, 2);
    let whole = is_whole(&mut host, told, wanted, reads);
    drop(host);
    whole
}

#[test]
fn readers_that_fail(rt: HostRuntime) {
    let told = all_told(&rt);
    for reads in 0..32 {
        let whole = reads > told.len().div_ceil(16);
        let wanted = due_after(&rt, reads * 16);
        let ended = is_whole_of_new(&rt, rt.alloc(), told.as_slice(), wanted.as_slice(), reads);
        assert!(rt; ended == Some(whole), "{reads}");
    }
}

fn serve_full(host: &mut Host, told: &[u8], taken: &mut Room) -> Result<End, HostFault> {
    let mut reader = Reader::new(Pieces {
        octets: told,
        reads: 1_000,
    });
    serve(host, &mut reader, &mut Writer::new(taken), 1_000)
}

fn has_ended(
    host: &mut Host,
    served: Result<End, HostFault>,
    told: &[u8],
    is_all_written: bool,
) -> bool {
    if is_all_written {
        served
            == Ok(End {
                turns: told.len().div_ceil(16) as u64 + 1,
            })
    } else {
        served == Err(HostFault::Write) && has_stopped(host, HostFault::Write)
    }
}

/// Returns true if a prefix of the output fills the writer.
fn fills(host: &mut Host, told: &[u8], wanted: &[u8], room: usize, fails: bool) -> bool {
    let mut taken = Room {
        taken: ArrayVec::new(),
        room,
        fails,
    };
    let served = serve_full(host, told, &mut taken);
    let (front, rest) = wanted.split_at(room.min(wanted.len()));
    taken.taken.as_slice() == front && has_ended(host, served, told, rest.is_empty())
}

fn fills_by_new(
    rt: &impl Abort,
    alloc: Global,
    told: &[u8],
    wanted: &[u8],
    room: usize,
    fails: bool,
) -> bool {
    let mut host = opened(rt, alloc, DOOR, 2);
    let is_filled = fills(&mut host, told, wanted, room, fails);
    drop(host);
    is_filled
}

#[test]
fn writers_that_fail(rt: HostRuntime) {
    let told = all_told(&rt);
    let wanted = due_after(&rt, told.len());
    fail_writers(&rt, rt.alloc(), told.as_slice(), wanted.as_slice());
}

fn fail_writers(rt: &impl Abort, alloc: Global, told: &[u8], wanted: &[u8]) {
    for room in 0..wanted.len() + 1 {
        assert!(rt;
            fills_by_new(rt, alloc, told, wanted, room, true)
                && fills_by_new(rt, alloc, told, wanted, room, false),
            "{room}"
        );
    }
}
