//! A host is served events.

ghost use Rattle.std.specs.Prelude.{None};

use crate::listening::Expects;
use crate::player::ready;
use crate::sides::{TwoSides, serve_both};
use crate::wire::spelled;
use att_table::examples::BELL;
use device_loop::{End, Happenings, Next, serve_happenings};
use gatt_host::{App, AppFault, HostFault, Notice, Peer};
use octet_io::{ArraySink, Sink};
use std::alloc::Global;
use std::process::Abort;

/// The expected deadline, the event, and the expected answer to a call.
type Turn = (Option<u64>, Next<'static>, Option<Result<(), AppFault>>);

#[derive(Drop)]
struct Listed {
    turns: &'static [Turn],
    asked: usize,
    awaited: Option<Result<(), AppFault>>,
    differs: bool,
}

impl Happenings for Listed {
    ghost octets = { λ _. None };

    ghost calls = { λ _. None };

    ghost history = { λ _. None };

    fn next<'a>(&mut self, deadline: Option<u64>, _buffer: &'a mut [u8]) -> Next<'a> {
        let Some(&(wanted, next, answer)) = self.turns.get(self.asked) else {
            return Next::Failed;
        };
        if deadline != wanted || self.awaited.is_some() {
            self.differs = true;
        }
        self.asked = self.asked.saturating_add(1);
        self.awaited = answer;
        next
    }

    fn answered(&mut self, answer: Result<(), AppFault>) {
        if self.awaited != Some(answer) {
            self.differs = true;
        }
        self.awaited = None;
    }
}

/// A client connects, with a tick in the middle of that event, confirms an indication, and is
/// disconnected.
const DAY: &[Turn] = &[
    (
        None,
        Next::Octets(b"\x04\x3E\x13\x01\x00\x40\x00\x01"),
        None,
    ),
    (None, Next::Call(App::Tick(5)), Some(Ok(()))),
    (
        None,
        Next::Octets(b"\x01\x0A\x00\x00\x00\x00\xC0\x18\x00\x00\x00\x48\x00\x00"),
        None,
    ),
    (
        None,
        Next::Octets(b"\x02\x40\x20\x09\x00\x05\x00\x04\x00\x12\x04\x00\x02\x00"),
        None,
    ),
    (None, Next::Call(App::Update(3, &[0x01])), Some(Ok(()))),
    (
        Some(30_005),
        Next::Call(App::Tick(4)),
        Some(Err(AppFault::TimeWentBack)),
    ),
    (
        Some(30_005),
        Next::Call(App::Update(10, &[0x01])),
        Some(Err(AppFault::NoSuchHandle)),
    ),
    (
        Some(30_005),
        Next::Octets(b"\x02\x40\x20\x05\x00\x01\x00\x04\x00\x1E"),
        None,
    ),
    (None, Next::Call(App::Disconnect(0x40)), Some(Ok(()))),
    (None, Next::Ended, None),
];

const TOLD: &[Notice<'static>] = &[
    Notice::Connected {
        handle: 0x40,
        peer: Peer {
            kind: 1,
            address: [0x0A, 0x00, 0x00, 0x00, 0x00, 0xC0],
        },
    },
    Notice::Configured {
        handle: 0x40,
        attribute: 4,
        bits: 2,
    },
    Notice::Confirmed {
        handle: 0x40,
        attribute: 3,
    },
    Notice::Ending {
        handle: 0x40,
        reason: 0x13,
    },
];

const WRITTEN: &str = "024000050001000400130240000800040004001d03000101060403400013";

const DESYNC: &[Turn] = &[
    (None, Next::Octets(b"\x07"), None),
    (None, Next::Ended, None),
];

/// Turns, events, result, events used, output and notices.
type Case = (
    u64,
    &'static [Turn],
    Result<End, HostFault>,
    usize,
    &'static str,
    &'static [Notice<'static>],
);

const CASES: &[Case] = &[
    (100, DAY, Ok(End::Ended), 10, WRITTEN, TOLD),
    (2, DAY, Ok(End::Turns), 2, "", &[]),
    (0, DAY, Ok(End::Turns), 0, "", &[]),
    (100, &[], Ok(End::Failed), 0, "", &[]),
    (100, DESYNC, Err(HostFault::Desync(0x07)), 1, "", &[]),
];

fn serves<W: Sink>(rt: &impl Abort, alloc: Global, case: Case, out: &mut W) -> bool {
    let (turns, listed, end, asked, _, told) = case;
    let mut host = ready(rt, alloc, BELL, 1);
    let mut happenings = Listed {
        turns: listed,
        asked: 0,
        awaited: None,
        differs: false,
    };
    let mut listener = Expects::new(told);
    let over = serve_happenings(&mut host, &mut happenings, out, &mut listener, turns);
    drop(host);
    over == end
        && happenings.asked == asked
        && happenings.awaited.is_none()
        && !happenings.differs
        && listener.is_met()
}

#[test]
fn as_listed(rt: HostRuntime) {
    for (place, &case) in CASES.iter().enumerate() {
        let mut written = ArraySink::<64>::new();
        assert!(rt; serves(&rt, rt.alloc(), case, &mut written), "{place}");
        let wanted = spelled(&rt, case.4);
        assert!(rt; written.octets() == wanted.as_slice(), "written {place}");
    }
}

/// The writer has no space for the indication; its call is still answered.
#[test]
fn where_the_writer_fails(rt: HostRuntime) {
    let told = TOLD.get(..2).unwrap_or(&[]);
    let case = (100, DAY, Err(HostFault::Write), 5, "", told);
    let mut written = ArraySink::<14>::new();
    assert!(rt; serves(&rt, rt.alloc(), case, &mut written));
    let wanted = spelled(&rt, "0240000500010004001302400008");
    assert!(rt; written.octets() == wanted.as_slice());
}

/// A client connects and exchanges the MTU.
const OCTETS: &[u8] = b"\x04\x3E\x13\x01\x00\x40\x00\x01\x01\x0A\x00\x00\x00\x00\xC0\x18\
    \x00\x00\x00\x48\x00\x00\x02\x40\x20\x07\x00\x03\x00\x04\x00\x02\x17\x00";

/// The second is refused.
const CALLS: &[App<'static>] = &[App::Tick(5), App::Tick(4), App::Update(3, &[0x01])];

/// Octets of an event, turns, result, octets and calls that are left, refused calls, and output.
type Sides = (
    usize,
    u64,
    Result<End, HostFault>,
    usize,
    usize,
    usize,
    &'static str,
);

const MTU: &str = "02400007000300040003f700";

const SIDES: &[Sides] = &[
    (1, 100, Ok(End::Ended), 0, 0, 1, MTU),
    (34, 100, Ok(End::Ended), 0, 0, 1, MTU),
    (35, 100, Ok(End::Ended), 0, 0, 1, MTU),
    (1, 5, Ok(End::Turns), 31, 1, 1, ""),
    (0, 8, Ok(End::Turns), 34, 0, 1, ""),
];

fn serves_both<W: Sink>(rt: &impl Abort, alloc: Global, case: Sides, out: &mut W) -> bool {
    let (most, turns, end, octets, calls, refused, _) = case;
    let mut host = ready(rt, alloc, BELL, 1);
    let mut sides = TwoSides {
        octets: OCTETS,
        calls: CALLS,
        most,
        calls_next: false,
        refused: 0,
    };
    let mut listener = Expects::new(TOLD.get(..1).unwrap_or(&[]));
    let over = serve_both(&mut host, &mut sides, out, &mut listener, turns);
    drop(host);
    over == end
        && sides.octets.len() == octets
        && sides.calls.len() == calls
        && sides.refused == refused
        && listener.is_met() == (octets == 0)
}

#[test]
fn two_sides(rt: HostRuntime) {
    for (place, &case) in SIDES.iter().enumerate() {
        let mut written = ArraySink::<64>::new();
        assert!(rt; serves_both(&rt, rt.alloc(), case, &mut written), "{place}");
        let wanted = spelled(&rt, case.6);
        assert!(rt; written.octets() == wanted.as_slice(), "written {place}");
    }
}
