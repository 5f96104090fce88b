//! A listener receives all notices, however the octets and calls arrive.

use crate::player::ready;
use crate::wire::{Octets, Written, ask, spell};
use att_table::examples::DOOR;
use gatt_host::{
    App, End, Host, HostFault, Input, Listener, Notice, Peer, drive_to, feed_to, serve_to,
};
use octet_io::{ArraySink, SliceSource};
use std::alloc::Global;
use std::process::Abort;

/// Expects a list of notices.
#[derive(Drop)]
pub struct Expects {
    wanted: &'static [Notice<'static>],
    heard: usize,
    differs: bool,
}

impl Expects {
    pub fn new(wanted: &'static [Notice<'static>]) -> Expects {
        Expects {
            wanted,
            heard: 0,
            differs: false,
        }
    }

    pub fn is_met(&self) -> bool {
        !self.differs && self.heard == self.wanted.len()
    }
}

impl Listener for Expects {
    fn hear(&mut self, notice: Notice<'_>) {
        if self.wanted.get(self.heard) != Some(&notice) {
            self.differs = true;
        }
        self.heard = self.heard.saturating_add(1);
    }
}

const CAME: Notice<'static> = Notice::Connected {
    handle: 0x40,
    peer: Peer {
        kind: 1,
        address: [0x0A, 0x00, 0x00, 0x00, 0x00, 0xC0],
    },
};

const WROTE: Notice<'static> = Notice::Written {
    handle: 0x40,
    attribute: 21,
    value: b"a",
};

/// A client connects, writes a value, reads one, executes two writes, and disconnects.
const TOLD: &[Notice<'static>] = &[
    CAME,
    WROTE,
    Notice::Written {
        handle: 0x40,
        attribute: 21,
        value: b"bc",
    },
    Notice::Configured {
        handle: 0x40,
        attribute: 7,
        bits: 1,
    },
    Notice::Disconnected { handle: 0x40 },
];

fn day(rt: &impl Abort) -> Octets {
    let mut octets = Octets::new();
    spell(
        rt,
        &mut octets,
        "043e130100400001010a00000000c018000000480000",
    );
    for pdu in [
        [0x12, 0x15, 0x00, 0x61].as_slice(),
        &[0x0A, 0x03, 0x00],
        &[0x16, 0x15, 0x00, 0x00, 0x00, 0x62],
        &[0x16, 0x07, 0x00, 0x00, 0x00, 0x01, 0x00],
        &[0x16, 0x15, 0x00, 0x01, 0x00, 0x63],
        &[0x18, 0x01],
    ] {
        ask(rt, &mut octets, pdu);
    }
    spell(rt, &mut octets, "04050400400013");
    octets
}

fn hears_pieces(rt: &impl Abort, alloc: Global, size: usize) -> bool {
    let mut host = ready(rt, alloc, DOOR, 2);
    let mut written = Written::new();
    let mut listener = Expects::new(TOLD);
    let fed = feed_pieces(
        &mut host,
        day(rt).as_slice(),
        size,
        &mut written,
        &mut listener,
    );
    drop(host);
    fed && listener.is_met()
}

fn feed_pieces(
    host: &mut Host,
    octets: &[u8],
    size: usize,
    written: &mut Written,
    listener: &mut Expects,
) -> bool {
    for piece in octets.chunks(size.max(1)) {
        if feed_to(host, piece, written, listener).is_err() {
            return false;
        }
    }
    true
}

#[test]
fn octets_in_pieces(rt: HostRuntime) {
    for size in [1, 3, 16, 1000] {
        assert!(rt; hears_pieces(&rt, rt.alloc(), size), "{size}");
    }
}

const CONNECTED: &[Notice<'static>] = &[CAME];

const WRITTEN: &[Notice<'static>] = &[CAME, WROTE];

/// The notices before the fault are received.
#[test]
fn before_a_fault(rt: HostRuntime) {
    let mut host = ready(&rt, rt.alloc(), DOOR, 2);
    let mut listener = Expects::new(CONNECTED);
    let mut octets = Octets::new();
    spell(
        &rt,
        &mut octets,
        "043e130100400001010a00000000c01800000048000007",
    );
    let fed = feed_to(
        &mut host,
        octets.as_slice(),
        &mut Written::new(),
        &mut listener,
    );
    let silent = host.notices().next().is_none();
    drop(host);
    assert!(rt; fed == Err(HostFault::Desync(0x07)));
    assert!(rt; silent && listener.is_met());
}

/// The answer to a Write is not written, but its notice is received.
#[test]
fn before_the_writer_fails(rt: HostRuntime) {
    let mut host = ready(&rt, rt.alloc(), DOOR, 2);
    let mut listener = Expects::new(WRITTEN);
    let fed = feed_to(
        &mut host,
        day(&rt).as_slice(),
        &mut ArraySink::<8>::new(),
        &mut listener,
    );
    drop(host);
    assert!(rt; fed == Err(HostFault::Write));
    assert!(rt; listener.is_met());
}

/// A refused call has no notice.
#[test]
fn octets_and_calls(rt: HostRuntime) {
    let mut host = ready(&rt, rt.alloc(), DOOR, 2);
    let mut listener = Expects::new(TOLD);
    let octets = day(&rt);
    let early = octets.as_slice().get(..30).unwrap_or(&[]);
    let late = octets.as_slice().get(30..).unwrap_or(&[]);
    let inputs = [
        Input::Bytes(early),
        Input::Call(App::Tick(7)),
        Input::Call(App::Tick(6)),
        Input::Bytes(late),
    ];
    let driven = drive_to(&mut host, &inputs, &mut Written::new(), &mut listener);
    drop(host);
    assert!(rt; driven == Ok(1));
    assert!(rt; listener.is_met());
}

/// There are no notices after the end of a stream.
#[test]
fn a_stream(rt: HostRuntime) {
    let mut host = ready(&rt, rt.alloc(), DOOR, 2);
    let mut listener = Expects::new(TOLD);
    let octets = day(&rt);
    let mut source = SliceSource::new(octets.as_slice());
    let served = serve_to(
        &mut host,
        &mut source,
        &mut Written::new(),
        9,
        &mut listener,
    );
    let silent = host.notices().next().is_none();
    drop(host);
    assert!(rt; served == Ok(End { turns: 2 }));
    assert!(rt; silent && listener.is_met());
}
