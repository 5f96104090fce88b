//! Turns of a device that cannot save the changes of a client.

ghost use Rattle.std.specs.Prelude.{None, Some};

use crate::player::opened;
use crate::recorded::{Recording, Turn, serve_each};
use att_table::examples::BELL;
use device_loop::{Next, Outgoing, Sending, withhold};
use gatt_host::{App, Listener, Notice};
use octet_io::{Failed, Sink};
use std::alloc::Global;
use std::process::Abort;

#[derive(Clone, Copy)]
struct Hearing;

impl Listener for Hearing {
    fn hear(&mut self, _notice: Notice<'_>) {}
}

#[derive(Drop)]
struct Waiting(Vec<u8>);

impl Sink for Waiting {
    ghost contents = { λ waiting. Some waiting.0.items };

    ghost failures = { λ _. None };

    fn write(&mut self, buf: &[u8]) -> Result<usize, Failed> {
        if self.0.extend_from_slice(buf).is_ok() {
            Ok(buf.len())
        } else {
            Err(Failed)
        }
    }
}

impl Outgoing for Waiting {
    fn waiting(&self) -> &[u8] {
        self.0.as_slice()
    }

    fn clear(&mut self) {
        self.0.clear();
    }

    fn withhold(&mut self, connections: &[u16]) {
        withhold(&mut self.0, connections);
    }
}

/// The controller completes Reset and connects a client, and then says nothing more.
const RECORDED: &[Turn] = &[
    (
        Next::Octets(b"\x04\x0E\x04\x01\x03\x0C\x00"),
        &[],
        Sending::Done,
    ),
    (Next::Call(App::Update(3, &[0x01])), &[0x40], Sending::Waits),
    (Next::Ended, &[], Sending::Done),
];

fn serves_recorded(rt: &impl Abort, alloc: Global) -> bool {
    let mut host = opened(rt, alloc, BELL, 2);
    let mut device = Recording::new(RECORDED);
    let mut out = Waiting(Vec::new(alloc));
    serve_each(&mut host, &mut device, &mut out, &mut Hearing, 3);
    drop(host);
    device.over == RECORDED.len() && out.waiting().is_empty()
}

#[test]
fn a_device_with_a_history(rt: HostRuntime) {
    assert!(rt; serves_recorded(&rt, rt.alloc()));
}
