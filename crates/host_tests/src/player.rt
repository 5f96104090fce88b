//! Hosts, whose controllers have space for four packets of 27 octets.

ghost use Rattle.std.specs.Prelude.{◌<◌};
ghost use Rattle.host_tests.specs.Reached.{IsInARun};

use crate::wire::{Octets, Written, spell};
use arrayvec::ArrayVec;
use att_table::Table;
use gatt_host::{Config, Host, feed};
use gatt_subs::Rows;
use le_security::Keys;
use le_security::examples::KEYS;
use std::alloc::Global;
use std::process::Abort;

/// Returns a new host whose controller is initialised.
pub fn ready(rt: &impl Abort, alloc: Global, table: &str, slots: usize) -> Host {
    let mut host = opened(rt, alloc, table, slots);
    initialise(rt, &mut host);
    host
}

fn initialise(rt: &impl Abort, host: &mut Host) {
    let mut told = Octets::new();
    spell(rt, &mut told, "040e0401030c00040e0401010c00040e0401012000");
    spell(rt, &mut told, "040e07010220001b0004");
    spell(rt, &mut told, "040e0401062000040e0401082000040e04010a2000");
    let mut written = Written::new();
    let is_fed = feed(host, &[], &mut written).is_ok()
        && feed(host, told.as_slice(), &mut written).is_ok();
    let is_ready = written.octets().ends_with(&[0x01, 0x0A, 0x20, 0x01, 0x01]);
    assert!(rt; is_fed && is_ready);
}

/// Feeds pieces of at most `size` octets. Returns true if there is no fault.
pub fn feed_pieces(host: &mut Host, size: usize, octets: &[u8], written: &mut Written) -> bool
    requires { 0 < size }
{
    for piece in octets.chunks(size) {
        if feed(host, piece, written).is_err() {
            return false;
        }
    }
    true
}

/// Returns a host with the example keys. Callers end it by `drop`, which makes their proofs
/// cheaper.
pub fn opened(rt: &impl Abort, alloc: Global, table: &str, slots: usize) -> Host
    ensures run { IsInARun result }
{
    Host::open(
        alloc,
        read_table(rt, alloc, table),
        read_keys(rt, alloc),
        no_rows(rt, alloc),
        config(slots),
    )
    .expect(rt, "the host")
}

fn read_table(rt: &impl Abort, alloc: Global, text: &str) -> Table {
    Table::read(alloc, text).expect(rt, "the table")
}

fn read_keys(rt: &impl Abort, alloc: Global) -> Keys {
    Keys::read(alloc, KEYS).expect(rt, "the keys")
}

fn no_rows(rt: &impl Abort, alloc: Global) -> Rows {
    Rows::read(alloc, "").expect(rt, "the rows")
}

fn config(slots: usize) -> Config {
    let mut advertising = ArrayVec::new();
    advertising.push(0x02);
    advertising.push(0x01);
    advertising.push(0x06);
    Config {
        slots,
        rx_mtu: 247,
        address: None,
        advertising,
    }
}
