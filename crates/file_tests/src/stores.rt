//! Both stores of values behave alike.

use super::cases::assert_at;
use att_values::{Change, FlatStore, PlainStore, ValueStore, run};
use std::alloc::AllocError;
use std::process::Abort;

/// Three values with their largest lengths.
const VALUES: &[(u16, &[u8])] = &[(3, b"one"), (6, b"two"), (512, b"three")];

/// Patches of the second value, and the value after each.
const PATCHES: &[(usize, &[u8], bool, &[u8])] = &[
    (0, b"abcd", false, b"abcd"),
    (1, b"X", true, b"aXcd"),
    (3, b"YZ", true, b"aXcYZ"),
    (5, b"!", true, b"aXcYZ!"),
    (2, b"", true, b"aXcYZ!"),
    (2, b"-", false, b"aX-"),
    (0, b"", false, b""),
];

#[test]
fn patches_of_the_flat_store(rt: HostRuntime) {
    check_flat(&rt, &mut FlatStore::new(rt.alloc()));
}

fn check_flat(rt: &impl Abort, store: &mut FlatStore) {
    assert!(rt; push_flat(store).is_ok());
    assert!(rt; store.len() == 3 && store.octets() == 521);
    check_patches(rt, store, PATCHES);
}

fn push_flat(store: &mut FlatStore) -> Result<(), AllocError> {
    for &(room, value) in VALUES {
        store.push(room, value)?;
    }
    Ok(())
}

#[test]
fn patches_of_the_plain_store(rt: HostRuntime) {
    check_plain(&rt, &mut PlainStore::new(rt.alloc()));
}

fn check_plain(rt: &impl Abort, store: &mut PlainStore) {
    assert!(rt; push_plain(store).is_ok());
    check_patches(rt, store, PATCHES);
}

fn push_plain(store: &mut PlainStore) -> Result<(), AllocError> {
    for &(room, value) in VALUES {
        store.push(room, value)?;
    }
    Ok(())
}

fn check_patches<S: ValueStore>(
    rt: &impl Abort,
    store: &mut S,
    cases: &[(usize, &[u8], bool, &[u8])],
) {
    for &(offset, part, keep, wanted) in cases {
        assert_at(rt, is_patched(store, (offset, part, keep), wanted), offset);
    }
    assert!(rt; is_run(store));
}

fn is_run<S: ValueStore>(store: &mut S) -> bool {
    run_two(store) && has_values(store, b"abXYZ") && has_no_others(store)
}

fn has_no_others<S: ValueStore>(store: &S) -> bool {
    !store.contains(0) && !store.contains(4) && store.room(4) == 0
}

fn is_patched<S: ValueStore>(store: &mut S, by: (usize, &[u8], bool), wanted: &[u8]) -> bool {
    let (offset, part, keep) = by;
    patch(store, offset, part, keep) && has_values(store, wanted)
}

fn patch<S: ValueStore>(store: &mut S, offset: usize, part: &[u8], keep: bool) -> bool {
    if !store.contains(2) || store.room(2) != 6 {
        return false;
    }
    if offset > store.value(2).len() || part.len() > 6 || offset > 6 - part.len() {
        return false;
    }
    store.patch(2, offset, part, keep);
    true
}

fn has_values<S: ValueStore>(store: &S, second: &[u8]) -> bool {
    is_value(store, 1, b"one") && is_value(store, 2, second) && is_value(store, 3, b"three")
}

fn is_value<S: ValueStore>(store: &S, handle: u16, wanted: &[u8]) -> bool {
    store.contains(handle) && store.value(handle) == wanted
}

#[tactic(auto, using(att_values::proofs::Contents::changes))]
fn run_two<S: ValueStore>(store: &mut S) -> bool {
    if !store.contains(2) || store.room(2) != 6 {
        return false;
    }
    let changes = [
        Change::Set {
            handle: 2,
            octets: b"abcd",
        },
        Change::Patch {
            handle: 2,
            offset: 2,
            part: b"XYZ",
            keep: true,
        },
    ];
    run(store, &changes);
    true
}
