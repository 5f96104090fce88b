//! The example lock: its motor, its button and strangers.

use crate::player::ready;
use crate::wire::{Octets, Written, ask, spelled};
use arrayvec::ArrayVec;
use att_table::examples::DOOR;
use gatt_host::Host;
use lock::{Lock, Motor};
use std::alloc::Global;
use std::process::Abort;

#[derive(Drop)]
struct Turns(ArrayVec<bool, 8>);

impl Motor for Turns {
    fn turn(&mut self, open: bool) {
        // Without space the comparison fails.
        let _ = self.0.try_push(open);
    }
}

#[derive(Clone, Copy)]
enum Happens {
    /// Time, packets of the controller, and the answer.
    Sends(u64, &'static str, &'static str),
    /// Time, PDU of connection 0040, and its answer, which is completed.
    Asks(u64, &'static str, &'static str),
    Presses,
}

/// A client with a key opens, shuts, and reads the code in time.
const KNOWN: &[Happens] = &[
    Happens::Sends(
        1_000,
        "043e1301004000010055443322110018000000480000",
        "010a200101",
    ),
    Happens::Sends(1_000, "040e04010a2000", ""),
    Happens::Asks(1_000, "120a0001", "01120a000f"),
    Happens::Sends(
        1_000,
        "043e0d05400002020202020202020202",
        "011a20124000ffeeddccbbaa99887766554433221100",
    ),
    Happens::Sends(1_000, "040e06011a20004000", ""),
    Happens::Sends(1_000, "04080400400001", ""),
    Happens::Asks(2_000, "120a0001", "13"),
    Happens::Asks(2_000, "0a0d00", "010a0d0008"),
    Happens::Presses,
    Happens::Asks(6_999, "0a0d00", "0b31323334"),
    Happens::Asks(7_000, "0a0d00", "010a0d0008"),
    Happens::Asks(60_000, "120a0000", "13"),
];

/// A client without a key is disconnected after half a minute.
const STRANGER: &[Happens] = &[
    Happens::Sends(
        1_000,
        "043e130100400001010a00000000c018000000480000",
        "010a200101",
    ),
    Happens::Sends(1_000, "040e04010a2000", ""),
    Happens::Asks(31_000, "0a0300", "0b4c6f636b"),
    Happens::Sends(31_001, "", "01060403400013"),
    Happens::Sends(31_002, "", ""),
];

fn step(rt: &impl Abort, lock: &mut Lock<Turns>, host: &mut Host, happens: Happens) -> bool {
    let mut written = Written::new();
    match happens {
        Happens::Sends(now, octets, wants) => {
            let sent = spelled(rt, octets);
            let served = lock.serve(host, now, sent.as_slice(), &mut written).is_ok();
            served && written.octets() == spelled(rt, wants).as_slice()
        }
        Happens::Asks(now, pdu, wants) => asks(rt, lock, host, now, pdu, wants),
        Happens::Presses => lock.press(host, &mut written).is_ok(),
    }
}

fn asks(
    rt: &impl Abort,
    lock: &mut Lock<Turns>,
    host: &mut Host,
    now: u64,
    pdu: &str,
    wants: &str,
) -> bool {
    let mut written = Written::new();
    let mut sent = Octets::new();
    ask(rt, &mut sent, spelled(rt, pdu).as_slice());
    let served = lock.serve(host, now, sent.as_slice(), &mut written).is_ok();
    let wanted = spelled(rt, wants);
    served && written.octets().ends_with(wanted.as_slice())
}

fn plays(rt: &impl Abort, alloc: Global, day: &[Happens], turned: &[bool]) -> bool {
    let mut host = ready(rt, alloc, DOOR, 2);
    let mut lock = Lock::new(Turns(ArrayVec::new()));
    let mut all = true;
    for happens in day {
        all &= step(rt, &mut lock, &mut host, *happens);
    }
    drop(host);
    all && lock.motor().0.as_slice() == turned
}

#[test]
fn phone_with_a_key(rt: HostRuntime) {
    assert!(rt; plays(&rt, rt.alloc(), KNOWN, &[true, false]));
}

#[test]
fn stranger(rt: HostRuntime) {
    assert!(rt; plays(&rt, rt.alloc(), STRANGER, &[]));
}
