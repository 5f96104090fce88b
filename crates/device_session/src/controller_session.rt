//! The controller, the capture of its packets, and the clients without a key.

ghost use Rattle.std.specs.Prelude.{◌≡◌, [], false, is_ok, IfErr, IfOk, IsNone};
ghost use Rattle.device_io.specs.Connector.{is_tried};
ghost use Rattle.device_io.specs.Controller.{after_judging, after_loss, at_first, is_over_at, is_served, IsWrittenTo};

use crate::strangers::{Limits, Strangers};
use device_io::{Connector, Controller, Log, Poller, Recording};
use std::alloc::Global;
use std::io;
use std::time::Clock;

#[derive(Drop)]
pub(crate) struct ControllerSession<'a> {
    pub(crate) controller: Controller<'a>,
    pub(crate) recording: Recording,
    pub(crate) strangers: Strangers,
}

impl<'a> ControllerSession<'a> {
    pub(crate) fn new(
        alloc: Global,
        connector: Connector<'a>,
        patience: u64,
        limits: Limits,
    ) -> ControllerSession<'a>
        ensures controller { result.controller ≡ at_first (is_tried connector.entry) patience }
        ensures limits { result.strangers.limits ≡ limits }
        ensures strangers { result.strangers.known.items ≡ [] }
    {
        ControllerSession {
            controller: Controller::new(alloc, connector, patience),
            recording: Recording::none(),
            strangers: Strangers::new(limits),
        }
    }
}

impl ControllerSession<'_> {
    pub(crate) fn lose(&mut self, poller: &Poller)
        ensures controller { self.new.controller ≡ after_loss self.old.controller }
        ensures strangers { self.new.strangers.known.items ≡ [] }
        ensures limits { self.new.strangers.limits ≡ self.old.strangers.limits }
    {
        self.strangers.forget();
        self.recording.next_stream();
        self.controller.lose(poller);
    }

    /// Reads octets and records them. Returns `None` if nothing can be read yet, and no octets at
    /// the end.
    pub(crate) fn read<'b, R: Clock + Eprint>(
        &mut self,
        poller: &Poller,
        log: &Log<'_, R>,
        now: u64,
        buffer: &'b mut [u8],
    ) -> io::Result<Option<&'b [u8]>>
        ensures nobody { is_served self.old.controller ≡ false → IfOk result IsNone }
        ensures sound { IfOk result (λ _. is_over_at now self.old.controller ≡ false) }
        ensures failed { IfErr result (λ _. self.new.controller
            ≡ after_judging now self.old.controller) }
    {
        let Some(count) = self.controller.read(poller, now, buffer)? else {
            return Ok(None);
        };
        let octets = buffer.split_at(count.min(buffer.len())).0;
        if !octets.is_empty() {
            self.recording.came(octets, log);
        }
        Ok(Some(octets))
    }

    /// Sends octets and records them. Returns false without a controller.
    pub(crate) fn write<R: Clock + Eprint>(
        &mut self,
        octets: &[u8],
        poller: &Poller,
        log: &Log<'_, R>,
        now: u64,
    ) -> io::Result<bool>
        ensures there { IfOk result (λ is_there. is_there ≡ is_served self.old.controller) }
        ensures written { IsWrittenTo octets.now now self.old.controller self.new.controller
            (is_ok result) }
    {
        let is_there = self.controller.write(octets, poller, now)?;
        if is_there {
            self.recording.went(octets, log);
        }
        Ok(is_there)
    }
}
