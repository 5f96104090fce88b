//! When connections were last heard, and the values of a host that has stopped.

use crate::player::ready;
use crate::wire::Written;
use att_table::Table;
use att_table::examples::DOOR;
use gatt_host::{App, Host, Input, drive, feed};
use std::process::Abort;

const COMES: Input<'static> = Input::Bytes(
    b"\x04\x3E\x13\x01\x00\x40\x00\x01\x01\x0A\x00\x00\x00\x00\xC0\x18\x00\x00\x00\x48\x00\x00",
);

const ANOTHER_COMES: Input<'static> = Input::Bytes(
    b"\x04\x3E\x13\x01\x00\x41\x00\x01\x01\x0B\x00\x00\x00\x00\xC0\x18\x00\x00\x00\x48\x00\x00",
);

/// Ordinal, slot, handle, and time of the last packet.
type Heard = (u64, usize, u16, u64);

const HEARD: &[(Input<'static>, &[Heard])] = &[
    (Input::Call(App::Tick(5)), &[]),
    (COMES, &[(1, 0, 0x40, 5)]),
    (Input::Call(App::Tick(6)), &[(1, 0, 0x40, 5)]),
    (ANOTHER_COMES, &[(1, 0, 0x40, 5), (2, 1, 0x41, 6)]),
    (
        Input::Call(App::Tick(7)),
        &[(1, 0, 0x40, 5), (2, 1, 0x41, 6)],
    ),
    // A fragment, and an ignored broadcast packet.
    (
        Input::Bytes(b"\x02\x40\x20\x01\x00\x03"),
        &[(1, 0, 0x40, 7), (2, 1, 0x41, 6)],
    ),
    (
        Input::Call(App::Tick(8)),
        &[(1, 0, 0x40, 7), (2, 1, 0x41, 6)],
    ),
    (
        Input::Bytes(b"\x02\x41\x60\x01\x00\x03"),
        &[(1, 0, 0x40, 7), (2, 1, 0x41, 8)],
    ),
    (
        Input::Call(App::Tick(9)),
        &[(1, 0, 0x40, 7), (2, 1, 0x41, 8)],
    ),
    // No connection has the handle.
    (
        Input::Bytes(b"\x02\x42\x20\x01\x00\x03"),
        &[(1, 0, 0x40, 7), (2, 1, 0x41, 8)],
    ),
    (
        Input::Bytes(b"\x04\x05\x04\x00\x40\x00\x13"),
        &[(2, 1, 0x41, 8)],
    ),
    // Another connection takes the slot, with a new ordinal.
    (COMES, &[(3, 0, 0x40, 9), (2, 1, 0x41, 8)]),
    // Packets of an ending connection do not count.
    (
        Input::Call(App::Disconnect(0x41)),
        &[(3, 0, 0x40, 9), (2, 1, 0x41, 8)],
    ),
    (
        Input::Bytes(b"\x02\x41\x20\x01\x00\x03"),
        &[(3, 0, 0x40, 9), (2, 1, 0x41, 8)],
    ),
];

fn are_heard(host: &Host, connections: &[Heard]) -> bool {
    let mut seen = host.connections();
    for &(ordinal, slot, handle, heard) in connections {
        let Some(connection) = seen.next() else {
            return false;
        };
        if connection.ordinal != ordinal
            || connection.slot != slot
            || connection.handle != handle
            || connection.heard != heard
        {
            return false;
        }
    }
    seen.next().is_none()
}

#[test]
fn packets_are_heard(rt: HostRuntime) {
    let mut host = ready(&rt, rt.alloc(), DOOR, 2);
    for (place, &(input, connections)) in HEARD.iter().enumerate() {
        assert!(rt;
            drive(&mut host, &[input], &mut Written::new()) == Ok(0),
            "{place}"
        );
        assert!(rt; are_heard(&host, connections), "heard {place}");
    }
    drop(host);
}

/// A client connects, and writes a value.
const WRITES: &[u8] = b"\x04\x3E\x13\x01\x00\x40\x00\x01\x01\x0A\x00\x00\x00\x00\xC0\x18\
    \x00\x00\x00\x48\x00\x00\x02\x40\x20\x08\x00\x04\x00\x04\x00\x12\x15\x00\x61";

fn is_written(table: &Table) -> bool {
    match table.get(21) {
        Some(_) => table.value(21) == b"a".as_slice(),
        None => false,
    }
}

#[test]
fn values_are_left_after_a_fault(rt: HostRuntime) {
    let mut host = ready(&rt, rt.alloc(), DOOR, 2);
    assert!(rt; feed(&mut host, WRITES, &mut Written::new()).is_ok());
    assert!(rt; feed(&mut host, &[0x07], &mut Written::new()).is_err());
    let (table, keys, rows) = host.into_parts();
    assert!(rt; is_written(&table));
    drop(table);
    drop(keys);
    drop(rows);
}
