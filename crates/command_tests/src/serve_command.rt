//! The command `serve`, to which no connection comes.

use arrayvec::ArrayVec;
use att_table::Table;
use att_table::examples::DOOR;
use gatt_commands::{RowsOut, ShellFault, serve_on};
use gatt_host::{Config, Host};
use gatt_subs::Rows;
use le_security::Keys;
use le_security::examples::KEYS;
use std::alloc::Global;
use std::net::{Net, TcpListener, TcpStream};
use std::process::Abort;

fn opened(rt: &impl Abort, alloc: Global) -> Host {
    let table = Table::read(alloc, DOOR).expect(rt, "the table");
    let keys = Keys::read(alloc, KEYS).expect(rt, "the keys");
    let rows = Rows::read(alloc, "").expect(rt, "the rows");
    let config = Config {
        slots: 2,
        rx_mtu: 247,
        address: None,
        advertising: ArrayVec::new(),
    };
    Host::open(alloc, table, keys, rows, config).expect(rt, "the host")
}

fn listening<R: Abort + Net<Listener = TcpListener, Stream = TcpStream>>(rt: &R) -> TcpListener {
    TcpListener::bind(rt, "127.0.0.1:0").expect(rt, "a listener")
}

/// Returns true if a new host accepts nobody, and no subscriptions are written.
///
/// Ending the host with `drop` keeps the proof small.
fn is_refused(rt: &impl Abort, alloc: Global, listener: &TcpListener) -> bool {
    let mut host = opened(rt, alloc);
    let mut written: Vec<u8> = Vec::new(alloc);
    let served = serve_on(listener, &mut host, &mut RowsOut::new(&mut written));
    let is_refused = served == Err(ShellFault::Listen) && written.is_empty();
    drop(host);
    is_refused
}

#[test]
fn writes_no_rows_where_nothing_is_accepted(rt: HostRuntime) {
    let listener = listening(&rt);
    assert!(&rt; listener.set_nonblocking(true).is_ok());
    assert!(&rt; is_refused(&rt, rt.alloc(), &listener));
}
