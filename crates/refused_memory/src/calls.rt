//! Calls that allocate memory: the outcome of each, and of a repetition after a refusal.

use arrayvec::ArrayVec;
use att_table::examples::DOOR;
use att_table::{Table, TableFault};
use att_writes::Queue;
use gatt_conn::Conn;
use gatt_host::{Config, Host, OpenFault};
use gatt_subs::{Rows, RowsFault};
use le_acl::Sender;
use le_hci::{Peer, RANDOM_ADDRESS};
use le_security::examples::KEYS;
use le_security::{KeyFault, Keys};
use octet_io::ArraySink;
use sim_controller::{Sim, SimConfig, SimFault};
use std::alloc::{AllocError, Global};

/// A subscription of a client with a key to the battery level of the door lock.
const SUBSCRIPTION: &str = "1 c0:00:00:00:00:01 7 1\n";

const PHONE: Peer = Peer {
    kind: RANDOM_ADDRESS,
    address: [0x01, 0x00, 0x00, 0x00, 0x00, 0xc0],
};

/// A call that allocates memory.
#[derive(Clone, Copy)]
pub enum Call {
    ReadTable,
    ReadKeys,
    ReadRows,
    FitRows,
    MakeSender,
    MakeQueue,
    MakeConn,
    OpenHost,
    MakeSim,
}

/// The outcome of a call.
#[derive(Clone, Copy)]
enum End {
    /// It succeeded, with the right result.
    Done,
    /// It reported refused memory.
    Refused,
    /// A file that it needs could not be read.
    Unprepared,
    Wrong,
}

/// Makes a call, repeats it after a refusal, and returns the outcome in words.
pub fn end_of(alloc: Global, call: Call) -> &'static str {
    match made(alloc, call) {
        End::Done => "done",
        End::Refused => again(alloc, call, "refused, then done"),
        End::Unprepared => again(alloc, call, "not prepared, then done"),
        End::Wrong => "wrong",
    }
}

/// Repeats a call. Returns `words` if it succeeds with the right result.
fn again(alloc: Global, call: Call, words: &'static str) -> &'static str {
    match made(alloc, call) {
        End::Done => words,
        _ => "wrong after a refusal",
    }
}

fn made(alloc: Global, call: Call) -> End {
    match call {
        Call::ReadTable => end_of_table(Table::read(alloc, DOOR)),
        Call::ReadKeys => end_of_keys(Keys::read(alloc, KEYS)),
        Call::ReadRows => end_of_rows(Rows::read(alloc, SUBSCRIPTION)),
        Call::FitRows => fit_rows(alloc),
        Call::MakeSender => end_of_new(Sender::new(alloc, 1, 27)),
        Call::MakeQueue => end_of_new(Queue::new(alloc)),
        Call::MakeConn => end_of_new(Conn::new(alloc)),
        Call::OpenHost => open_host(alloc),
        Call::MakeSim => make_sim(alloc),
    }
}

fn end_of_new<T: Drop>(new: Result<T, AllocError>) -> End {
    match new {
        Ok(_) => End::Done,
        Err(_) => End::Refused,
    }
}

fn done_if(is_right: bool) -> End {
    if is_right { End::Done } else { End::Wrong }
}

fn end_of_table(read: Result<Table, TableFault>) -> End {
    match read {
        Ok(table) => done_if(table.len() == 21),
        Err(TableFault::OutOfMemory) => End::Refused,
        Err(_) => End::Wrong,
    }
}

fn end_of_keys(read: Result<Keys, KeyFault>) -> End {
    match read {
        Ok(keys) => done_if(keys.count() == 3),
        Err(KeyFault::OutOfMemory) => End::Refused,
        Err(_) => End::Wrong,
    }
}

fn end_of_rows(read: Result<Rows, RowsFault>) -> End {
    match read {
        Ok(rows) => done_if(is_written(&rows)),
        Err(RowsFault::OutOfMemory) => End::Refused,
        Err(_) => End::Wrong,
    }
}

fn is_written(rows: &Rows) -> bool {
    let mut sink = ArraySink::<32>::new();
    rows.text(&mut sink).is_ok() && sink.octets() == SUBSCRIPTION.as_bytes()
}

/// Returns true if the rows are unfitted: no peer has a row yet.
fn is_unchanged(rows: &mut Rows) -> bool {
    is_written(rows) && rows.of(&PHONE).is_none()
}

/// Returns true if the rows fit the keys and the table of the door lock.
fn is_fitted(rows: &mut Rows) -> bool {
    is_written(rows) && rows.of(&PHONE).is_some()
}

fn fit_rows(alloc: Global) -> End {
    match Rows::read(alloc, SUBSCRIPTION) {
        Ok(mut rows) => fit_to_keys(alloc, &mut rows),
        Err(_) => End::Unprepared,
    }
}

fn fit_to_keys(alloc: Global, rows: &mut Rows) -> End {
    match Keys::read(alloc, KEYS) {
        Ok(keys) => fit_to_table(alloc, rows, &keys),
        Err(_) => End::Unprepared,
    }
}

fn fit_to_table(alloc: Global, rows: &mut Rows, keys: &Keys) -> End {
    match Table::read(alloc, DOOR) {
        Ok(table) => fit(alloc, rows, keys, &table),
        Err(_) => End::Unprepared,
    }
}

/// Fits rows. If memory is refused, they are unchanged and can still be fitted.
fn fit(alloc: Global, rows: &mut Rows, keys: &Keys, table: &Table) -> End {
    match rows.fit(alloc, keys, table) {
        Ok(()) => done_if(is_fitted(rows)),
        Err(RowsFault::OutOfMemory)
            if is_unchanged(rows) && rows.fit(alloc, keys, table).is_ok() && is_fitted(rows) => {
            End::Refused
        }
        Err(_) => End::Wrong,
    }
}

fn open_host(alloc: Global) -> End {
    match Table::read(alloc, DOOR) {
        Ok(table) => open_with_table(alloc, table),
        Err(_) => End::Unprepared,
    }
}

fn open_with_table(alloc: Global, table: Table) -> End {
    match (Keys::read(alloc, KEYS), Rows::read(alloc, SUBSCRIPTION)) {
        (Ok(keys), Ok(rows)) => open(alloc, table, keys, rows),
        _ => End::Unprepared,
    }
}

fn open(alloc: Global, table: Table, keys: Keys, rows: Rows) -> End {
    let config = Config {
        slots: 2,
        rx_mtu: 247,
        address: None,
        advertising: ArrayVec::new(),
    };
    match Host::open(alloc, table, keys, rows, config) {
        Ok(_) => End::Done,
        Err(OpenFault::OutOfMemory) => End::Refused,
        Err(OpenFault::BadConfig) => End::Wrong,
    }
}

fn make_sim(alloc: Global) -> End {
    let config = SimConfig {
        acl_len: 27,
        packets: 8,
        shared: false,
        cut: 27,
    };
    match Sim::new(alloc, config) {
        Ok(_) => End::Done,
        Err(SimFault::OutOfMemory) => End::Refused,
        Err(_) => End::Wrong,
    }
}
