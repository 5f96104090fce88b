//! A stream cut at each place, and one that ends there.

use crate::player::{feed_pieces, opened};
use crate::wire::{Octets, Written, spell};
use att_table::examples::DOOR;
use gatt_host::feed;
use std::alloc::Global;
use std::process::Abort;

/// Packets of the controller and the answers: initialisation, a connection, and a Read in three
/// fragments.
const EXCHANGES: &[(&str, &str)] = &[
    ("", "01030c00"),
    ("040e0401030c00", "01010c08ffffffffff9f0020"),
    ("040e0401010c00", "010120081f00000000000000"),
    ("040e0401012000", "01022000"),
    (
        "040e07010220001b0004",
        "0106200fa000a0000000000000000000000700",
    ),
    (
        "040e0401062000",
        "010820200302010600000000000000000000000000000000000000000000000000000000",
    ),
    ("040e0401082000", "010a200101"),
    ("040e04010a2000", ""),
    ("043e130100400001010a00000000c018000000480000", "010a200101"),
    ("024020010003", ""),
    ("0240100300000400", ""),
    ("02401003000a0300", "0240000900050004000b4c6f636b"),
];

pub fn all_told(rt: &impl Abort) -> Octets {
    let mut told = Octets::new();
    for (octets, _) in EXCHANGES {
        spell(rt, &mut told, octets);
    }
    told
}

/// Returns the output of all packets that end in the first `count` octets.
pub fn due_after(rt: &impl Abort, count: usize) -> Octets {
    let mut told = Octets::new();
    let mut due = Octets::new();
    for (octets, wanted) in EXCHANGES {
        spell(rt, &mut told, octets);
        if told.len() <= count {
            spell(rt, &mut due, wanted);
        }
    }
    due
}

fn cut_everywhere(rt: &impl Abort, alloc: Global, told: &[u8], wanted: &[u8]) {
    for place in 0..told.len() {
        let pieces = told.split_at(place);
        assert!(rt; is_all(rt, alloc, pieces, wanted), "{place}");
    }
}

fn is_all(rt: &impl Abort, alloc: Global, pieces: (&[u8], &[u8]), wanted: &[u8]) -> bool {
    let mut host = opened(rt, alloc, DOOR, 2);
    let mut written = Written::new();
    let are_taken = feed(&mut host, pieces.0, &mut written).is_ok()
        && feed(&mut host, pieces.1, &mut written).is_ok();
    drop(host);
    are_taken && written.octets() == wanted
}

fn end_everywhere(rt: &impl Abort, alloc: Global, told: &[u8]) {
    for place in 0..told.len() {
        let (front, _) = told.split_at(place);
        assert!(rt;
            is_all(rt, alloc, (front, &[]), due_after(rt, place).as_slice()),
            "{place}"
        );
    }
}

fn feed_each(rt: &impl Abort, alloc: Global, told: &[u8], wanted: &[u8]) {
    let mut host = opened(rt, alloc, DOOR, 2);
    let mut written = Written::new();
    let are_taken = feed_pieces(&mut host, 1, told, &mut written);
    drop(host);
    assert!(rt; are_taken && written.octets() == wanted);
}

#[test]
fn cut_streams(rt: HostRuntime) {
    let told = all_told(&rt);
    let wanted = due_after(&rt, told.len());
    feed_each(&rt, rt.alloc(), told.as_slice(), wanted.as_slice());
    cut_everywhere(&rt, rt.alloc(), told.as_slice(), wanted.as_slice());
    end_everywhere(&rt, rt.alloc(), told.as_slice());
}
