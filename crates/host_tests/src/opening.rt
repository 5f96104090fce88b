//! Opening a host.

use arrayvec::ArrayVec;
use att_table::Table;
use att_table::examples::DOOR;
use gatt_host::{Config, Host, OpenFault};
use gatt_subs::Rows;
use le_security::Keys;
use std::alloc::Global;
use std::process::Abort;

/// Slots, receive MTU, random address, and the expected fault.
type Case = (usize, u16, Option<[u8; 6]>, Option<OpenFault>);

const CASES: &[Case] = &[
    (2, 247, None, None),
    (1, 23, None, None),
    (8, 517, Some([0x00, 0x00, 0x00, 0x00, 0x00, 0xC0]), None),
    (2, 247, Some([0x00, 0x00, 0x00, 0x00, 0x00, 0xFF]), None),
    (0, 247, None, Some(OpenFault::BadConfig)),
    (9, 247, None, Some(OpenFault::BadConfig)),
    (2, 22, None, Some(OpenFault::BadConfig)),
    (2, 518, None, Some(OpenFault::BadConfig)),
    (
        2,
        247,
        Some([0xC0, 0xC0, 0xC0, 0xC0, 0xC0, 0xBF]),
        Some(OpenFault::BadConfig),
    ),
    (
        2,
        247,
        Some([0x00, 0x00, 0x00, 0x00, 0x00, 0x40]),
        Some(OpenFault::BadConfig),
    ),
];

fn is_fault(rt: &impl Abort, alloc: Global, case: &Case) -> bool {
    let table = Table::read(alloc, DOOR).expect(rt, "the table");
    let keys = Keys::read(alloc, "").expect(rt, "the keys");
    let rows = Rows::read(alloc, "").expect(rt, "the rows");
    let (slots, rx_mtu, address, fault) = *case;
    let config = Config {
        slots,
        rx_mtu,
        address,
        advertising: ArrayVec::new(),
    };
    Host::open(alloc, table, keys, rows, config).err() == fault
}

#[test]
fn configurations(rt: HostRuntime) {
    for (place, case) in CASES.iter().enumerate() {
        assert!(rt; is_fault(&rt, rt.alloc(), case), "{place}");
    }
}
