//! Subscriptions files, fitted to keys and a table.

use super::cases::assert_case;
use att_table::Table;
use att_table::examples::PORCH;
use gatt_subs::Rows;
use le_hci::{PUBLIC_ADDRESS, Peer, RANDOM_ADDRESS};
use le_security::Keys;
use le_security::examples::KEYS;
use octet_io::ArraySink;
use std::alloc::Global;

const PHONE: Peer = Peer {
    kind: RANDOM_ADDRESS,
    address: [0x01, 0x00, 0x00, 0x00, 0x00, 0xc0],
};

const TABLET: Peer = Peer {
    kind: PUBLIC_ADDRESS,
    address: [0x55, 0x44, 0x33, 0x22, 0x11, 0x00],
};

const STRANGER: Peer = Peer {
    kind: PUBLIC_ADDRESS,
    ..PHONE
};

const BATTERY: &str = "1 c0:00:00:00:00:01 7 1\n";

const CHANGES: &str = "1 c0:00:00:00:00:01 4 2\n! 1 c0:00:00:00:00:01\n";

/// Texts, and the text written after reading.
const READ: &[(&str, &str)] = &[
    ("", ""),
    (BATTERY, BATTERY),
    ("1 c0:00:00:00:00:01 7 1", BATTERY),
    ("\n1 c0:00:00:00:00:01 7 1\n\n", BATTERY),
    (
        "1 C0:00:00:00:00:0A 65535 3",
        "1 c0:00:00:00:00:0a 65535 3\n",
    ),
    (
        "! 1 c0:00:00:00:00:02\n1 c0:00:00:00:00:01 10 1\n1 c0:00:00:00:00:01 9 2\n! 0 c0:00:00:00:00:03\n0 01:00:00:00:00:00 8 1\n0 00:00:00:00:00:02 8 3\n",
        "0 00:00:00:00:00:02 8 3\n0 01:00:00:00:00:00 8 1\n1 c0:00:00:00:00:01 9 2\n1 c0:00:00:00:00:01 10 1\n! 0 c0:00:00:00:00:03\n! 1 c0:00:00:00:00:02\n",
    ),
];

fn is_written(rows: &Rows, text: &str) -> bool {
    let mut sink = ArraySink::<512>::new();
    rows.text(&mut sink).is_ok() && sink.octets() == text.as_bytes()
}

#[test]
fn texts(rt: HostRuntime) {
    for &(text, written) in READ {
        assert_case(&rt, reads_as(rt.alloc(), text, written), text);
    }
}

fn reads_as(alloc: Global, text: &str, written: &str) -> bool {
    match Rows::read(alloc, text) {
        Ok(rows) => is_written(&rows, written),
        Err(_) => false,
    }
}

fn is_fitted(alloc: Global, rows: &mut Rows, table: &str) -> bool {
    match Table::read(alloc, table) {
        Ok(table) => is_fitted_to(alloc, rows, &table),
        Err(_) => false,
    }
}

fn is_fitted_to(alloc: Global, rows: &mut Rows, table: &Table) -> bool {
    match Keys::read(alloc, KEYS) {
        Ok(keys) => rows.fit(alloc, &keys, table).is_ok(),
        Err(_) => false,
    }
}

/// Nothing can be set before fitting, and then only for a peer with a key.
#[test]
fn set(rt: HostRuntime) {
    assert!(&rt; is_set(rt.alloc(), false, CHANGES));
    assert!(&rt; is_set(rt.alloc(), true, "1 c0:00:00:00:00:01 8 1\n"));
}

/// Compares the text after setting all of `CHANGES`, fitted or not.
fn is_set(alloc: Global, fitted: bool, after: &str) -> bool {
    match Rows::read(alloc, CHANGES) {
        Ok(mut rows) => {
            (!fitted || is_fitted(alloc, &mut rows, PORCH)) && is_set_in(&mut rows, after)
        }
        Err(_) => false,
    }
}

fn is_set_in(rows: &mut Rows, after: &str) -> bool {
    if !is_written(rows, CHANGES) || !are_changes(rows) {
        return false;
    }
    set_all(rows);
    rows.owe(&PHONE, false);
    rows.owe(&STRANGER, true);
    rows.of(&STRANGER).is_none() && is_written(rows, after)
}

fn are_changes(rows: &Rows) -> bool {
    rows.get(&PHONE, 4) == 2
        && rows.get(&PHONE, 8) == 0
        && rows.get(&TABLET, 4) == 0
        && rows.get(&STRANGER, 4) == 0
        && rows.owed(&PHONE)
        && !rows.owed(&TABLET)
}

fn set_all(rows: &mut Rows) {
    if let Some(row) = rows.of(&PHONE) {
        if row.can_set(4) {
            row.set(4, 0);
        }
        if row.can_set(8) {
            row.set(8, 1);
        }
    }
}

/// A full sink has a prefix of the text.
#[test]
fn full_sinks(rt: HostRuntime) {
    assert!(rt; fills_sinks(rt.alloc()));
}

fn fills_sinks(alloc: Global) -> bool {
    match Rows::read(alloc, CHANGES) {
        Ok(rows) => fills_each(&rows),
        Err(_) => false,
    }
}

fn fills_each(rows: &Rows) -> bool {
    let mut no_room = ArraySink::<0>::new();
    let mut one_line = ArraySink::<24>::new();
    let mut one_less = ArraySink::<45>::new();
    rows.text(&mut no_room).is_err()
        && is_front(no_room.octets(), 0)
        && rows.text(&mut one_line).is_err()
        && is_front(one_line.octets(), 24)
        && rows.text(&mut one_less).is_err()
        && is_front(one_less.octets(), 45)
}

fn is_front(octets: &[u8], count: usize) -> bool {
    octets.len() == count && CHANGES.as_bytes().starts_with(octets)
}
