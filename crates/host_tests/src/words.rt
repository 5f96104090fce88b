//! The texts of faults.

use gatt_host::{
    AppFault, Fault, HostFault, InitFault, KeyFault, OpenFault, RowsFault, TableFault, TableKey,
};
use std::alloc::Global;

/// A fault of each kind, and its text.
const WORDS: &[(Fault, &str)] = &[
    (
        Fault::Table(TableFault::BadUuid),
        "table: this is no UUID, or this UUID is not allowed here",
    ),
    (
        Fault::Keys(KeyFault::BadSize),
        "keys: a size is out of its range",
    ),
    (
        Fault::Rows(RowsFault::Twice(3)),
        "rows: line 3 says what an earlier one has said",
    ),
    (
        Fault::Open(OpenFault::BadConfig),
        "the configuration is out of its limits",
    ),
    (
        Fault::Host(HostFault::Desync(0x07)),
        "the octet 07 begins no packet",
    ),
    (
        Fault::Table(TableFault::Missing(TableKey::Properties)),
        "table: a key that has to be there is not: properties",
    ),
    (
        Fault::Host(HostFault::Init(InitFault::Refused(0x200A, 0x0C))),
        "the controller could not be initialised: the controller answered LE Set Advertise Enable with the status 0c",
    ),
    (
        Fault::Host(HostFault::Hardware(0x42)),
        "the controller reports an error of its own, 42",
    ),
    (
        Fault::Call(AppFault::NoSuchHandle),
        "there is no attribute with the handle",
    ),
    (
        Fault::Call(AppFault::NotAValue),
        "it is no characteristic value",
    ),
    (
        Fault::Call(AppFault::BadLength),
        "the value is longer than its largest length, or a fixed one has another length",
    ),
    (
        Fault::Call(AppFault::NoSuchConnection),
        "no connection with the handle serves",
    ),
    (
        Fault::Call(AppFault::TimeWentBack),
        "the time is earlier than the current time",
    ),
    (Fault::Call(AppFault::Stopped), "the host has stopped"),
    (
        Fault::Call(AppFault::NoServiceChanged),
        "a table has no value that tells of changes, or they have it at different handles",
    ),
];

fn says(alloc: Global, fault: Fault, words: &str) -> bool {
    match format!(in alloc; "{fault}") {
        Ok(text) => text.as_str() == words,
        Err(_) => false,
    }
}

#[test]
fn words_of_faults(rt: HostRuntime) {
    for &(fault, words) in WORDS {
        assert!(rt; says(rt.alloc(), fault, words), "{words}");
    }
}
