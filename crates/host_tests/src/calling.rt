//! Calls in sequence, each with its packets.

use crate::player::ready;
use crate::wire::{Written, spelled};
use att_table::examples::BELL;
use gatt_host::{App, AppFault, Fault, Host, HostFault, call, feed};
use std::alloc::Global;
use std::process::Abort;

/// A call, its result and its packets.
type Case = (App<'static>, Result<(), Fault>, &'static str);

/// A client connects and configures indications. Its packet is completed.
const SUBSCRIBED: &[u8] = b"\x04\x3E\x13\x01\x00\x40\x00\x01\x01\x0A\x00\x00\x00\x00\xC0\x18\
    \x00\x00\x00\x48\x00\x00\x04\x0E\x04\x01\x0A\x20\x00\
    \x02\x40\x20\x09\x00\x05\x00\x04\x00\x12\x04\x00\x02\x00\x04\x13\x05\x01\x40\x00\x01\x00";

const IN_A_ROW: &[Case] = &[
    (
        App::Update(3, &[0x01]),
        Ok(()),
        "0240000800040004001d030001",
    ),
    (App::Update(3, &[0x02]), Ok(()), ""),
    (
        App::Update(10, &[0x01]),
        Err(Fault::Call(AppFault::NoSuchHandle)),
        "",
    ),
    (App::Tick(7), Ok(()), ""),
    (App::Tick(6), Err(Fault::Call(AppFault::TimeWentBack)), ""),
    (App::Disconnect(0x40), Ok(()), "01060403400013"),
    (
        App::Disconnect(0x40),
        Err(Fault::Call(AppFault::NoSuchConnection)),
        "",
    ),
];

/// The packets of an earlier call are written with the next.
const BEHIND_ANOTHER: &[Case] = &[
    (App::Tick(7), Ok(()), "0240000800040004001d030001"),
    (App::Tick(8), Ok(()), ""),
];

/// A stopped host makes no call.
const STOPPED: &[Case] = &[(App::Tick(7), Err(Fault::Host(HostFault::Desync(0x07))), "")];

fn subscribed(rt: &impl Abort, alloc: Global) -> Host {
    let mut host = ready(rt, alloc, BELL, 2);
    assert!(rt; feed(&mut host, SUBSCRIBED, &mut Written::new()).is_ok());
    host
}

fn make_each(rt: &impl Abort, mut host: Host, cases: &[Case]) {
    for (place, &(made, answer, octets)) in cases.iter().enumerate() {
        let mut written = Written::new();
        assert!(rt;
            call(&mut host, made, &mut written) == answer,
            "answer {place}"
        );
        let wanted = spelled(rt, octets);
        assert!(rt; written.octets() == wanted.as_slice(), "written {place}");
    }
    drop(host);
}

#[test]
fn in_a_row(rt: HostRuntime) {
    make_each(&rt, subscribed(&rt, rt.alloc()), IN_A_ROW);
}

#[test]
fn behind_another(rt: HostRuntime) {
    let mut host = subscribed(&rt, rt.alloc());
    assert!(rt; host.drained());
    assert!(rt; host.app(App::Update(3, &[0x01])).is_ok());
    make_each(&rt, host, BEHIND_ANOTHER);
}

#[test]
fn of_a_stopped_host(rt: HostRuntime) {
    let mut host = subscribed(&rt, rt.alloc());
    assert!(rt; feed(&mut host, &[0x07], &mut Written::new()).is_err());
    make_each(&rt, host, STOPPED);
}
