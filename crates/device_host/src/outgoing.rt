//! The octets that wait for a controller.

ghost use Rattle.std.specs.Prelude.{None, Some};

use device_io::MOST_WAITING;
use device_loop::{Outgoing, withhold};
use octet_io::{Failed, Sink};
use std::alloc::Global;

#[derive(Drop)]
pub(crate) struct ToController {
    octets: Vec<u8>,
}

impl ToController {
    pub(crate) fn new(alloc: Global) -> ToController {
        ToController {
            octets: Vec::new(alloc),
        }
    }
}

impl Sink for ToController {
    ghost contents = { λ outgoing. Some outgoing.octets.items };

    ghost failures = { λ _. None };

    fn write(&mut self, buf: &[u8]) -> Result<usize, Failed> {
        let fits = buf.len() <= MOST_WAITING.saturating_sub(self.octets.len());
        if fits && self.octets.extend_from_slice(buf).is_ok() {
            Ok(buf.len())
        } else {
            Err(Failed)
        }
    }
}

impl Outgoing for ToController {
    fn waiting(&self) -> &[u8] {
        self.octets.as_slice()
    }

    fn clear(&mut self) {
        self.octets.clear();
    }

    fn withhold(&mut self, connections: &[u16]) {
        withhold(&mut self.octets, connections);
    }
}
