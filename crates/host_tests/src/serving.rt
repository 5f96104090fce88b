//! A host between a reader and a writer.

use crate::player::opened;
use crate::wire::Written;
use att_table::examples::DOOR;
use gatt_host::{End, HostFault, serve};
use octet_io::SliceSource;
use std::alloc::Global;
use std::process::Abort;

const CASES: &[(u64, Result<End, HostFault>)] = &[
    (1_000, Ok(End { turns: 2 })),
    (1, Err(HostFault::Turns)),
    (0, Err(HostFault::Turns)),
];

/// Reset is written even without a turn.
fn leads_to(rt: &impl Abort, alloc: Global, turns: u64, outcome: Result<End, HostFault>) -> bool {
    let mut host = opened(rt, alloc, DOOR, 2);
    let mut source = SliceSource::new(&[0x04, 0x0E]);
    let mut written = Written::new();
    let served = serve(&mut host, &mut source, &mut written, turns);
    drop(host);
    served == outcome && written.octets() == [0x01, 0x03, 0x0C, 0x00].as_slice()
}

#[test]
fn end_of_input_and_of_turns(rt: HostRuntime) {
    for (turns, outcome) in CASES {
        assert!(rt; leads_to(&rt, rt.alloc(), *turns, *outcome), "{turns}");
    }
}
