//! The work of a device outside its host: saving, telling and sending.

ghost use Rattle.std.specs.Prelude.{◌≡◌};

use crate::device::Device;
use crate::saving::save;
use crate::telling::tell;
use crate::turn_notices::Hearing;
use crate::unkeyed::{LEAST, first_packet};
use device_io::System;
use device_loop::{Note, Outside, Saving, Sending};
use device_session::Session;
use gatt_host::Host;
use std::time::Clock;

impl<R: System> Outside<Hearing> for Device<'_, R> {
    fn save(&mut self, host: &Host, listener: &mut Hearing) -> Saving {
        let saving = save(self, host, listener);
        self.history = self.history.with(&Note::Saved(&saving, host));
        saving
    }

    fn tell(&mut self, host: &Host, listener: &mut Hearing, saving: &Saving) {
        tell(self, host, listener, saving);
        self.history = self.history.with(&Note::Told);
    }

    fn send(&mut self, octets: &[u8]) -> Sending {
        let sending = write(&mut self.session, octets);
        if let Sending::Done = sending {
            note_refused_keys(self, octets);
            note_refusals(self, octets);
        }
        self.history = self.history.with(&Note::Sent(octets, sending));
        sending
    }
}

fn write<R: Clock + Eprint>(session: &mut Session<'_, R>, octets: &[u8]) -> Sending {
    if octets.is_empty() {
        return Sending::Done;
    }
    match session.write(octets) {
        Ok(true) => Sending::Done,
        Ok(false) => Sending::Waits,
        Err(_) => Sending::Failed,
    }
}

/// Logs the connections whose controllers were sent that there is no key.
fn note_refused_keys<R: Clock + Eprint>(device: &mut Device<'_, R>, octets: &[u8])
    ensures history { device.new.history ≡ device.old.history }
{
    let session = &device.session;
    device
        .unkeyed
        .note_sent(device.alloc, session.log(), session.names(), octets);
}

/// Logs the rights that these packets refuse, and the numbers of the connections that have ended.
fn note_refusals<R: Clock + Eprint>(device: &mut Device<'_, R>, octets: &[u8])
    ensures history { device.new.history ≡ device.old.history }
{
    if !device.session.logs_refusals() {
        return;
    }
    note_packets(&mut device.session, octets);
    device.session.end_refusals();
}

fn note_packets<R: Clock + Eprint>(session: &mut Session<'_, R>, octets: &[u8]) {
    let mut rest = octets;
    for _packet in 0..octets.len() / LEAST {
        let Some((packet, others)) = first_packet(rest) else {
            return;
        };
        session.note_sent(packet);
        rest = others;
    }
}
