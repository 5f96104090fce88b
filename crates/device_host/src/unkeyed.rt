//! The connections whose controller asks for a key that the host does not have.

use app_lines::Names;
use arrayvec::ArrayVec;
use device_io::Log;
use device_loop::{first_size, refused_key};
use gatt_host::MAX_SLOTS;
use std::alloc::Global;
use std::time::Clock;

/// The least octets of a packet, and so the most packets in so many octets.
pub(crate) const LEAST: usize = 4;

/// The connections that the log names already, each by its name.
#[derive(Drop)]
pub(crate) struct Unkeyed {
    logged: ArrayVec<u64, MAX_SLOTS>,
}

impl Unkeyed {
    pub(crate) fn none() -> Unkeyed {
        Unkeyed {
            logged: ArrayVec::new(),
        }
    }

    /// Logs each connection to whose controller these packets refuse a key, once.
    pub(crate) fn note_sent<R: Clock + Eprint>(
        &mut self,
        alloc: Global,
        log: &Log<'_, R>,
        names: &Names,
        octets: &[u8],
    ) {
        let mut rest = octets;
        for _packet in 0..octets.len() / LEAST {
            let Some((packet, others)) = first_packet(rest) else {
                return;
            };
            if let Some(handle) = refused_key(packet)
                && let Some(name) = names.name_of(handle)
            {
                self.note(alloc, log, names, name);
            }
            rest = others;
        }
    }

    fn note<R: Clock + Eprint>(
        &mut self,
        alloc: Global,
        log: &Log<'_, R>,
        names: &Names,
        name: u64,
    ) {
        if self.logged.contains(&name) {
            return;
        }
        self.logged
            .retain(|other| names.handle_of(*other).is_some());
        // It fits: a host has at most `MAX_SLOTS` connections.
        let _ = self.logged.try_push(name);
        if let Ok(line) = format!(in alloc; "no key: connection {name}") {
            log.say(line.as_str());
        }
    }
}

/// Returns the first packet, if it is whole, and the octets after it.
pub(crate) fn first_packet(octets: &[u8]) -> Option<(&[u8], &[u8])> {
    let size = first_size(octets)?;
    octets.split_at_checked(size)
}
