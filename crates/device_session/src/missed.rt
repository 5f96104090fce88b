//! The values that clients wrote without the application's knowledge.

ghost use Rattle.std.specs.Prelude.{◌≡◌, [], true, IfErr, IfOk};
ghost use Rattle.device_session.specs.Missed.{after_last, after_next, first_of, nothing_missed, with_handle, with_handles, with_missed, with_told, IsNotedUpTo};

use std::alloc::{AllocError, Global};
use std::marker::Model;

/// The handles of written values, each once.
#[derive(Drop)]
pub(crate) struct Missed {
    /// No application was notified of these.
    handles: Vec<u16>,
    /// The current application was notified of these, but may not have read it.
    told: Vec<u16>,
}

impl Model for Missed {
    ghost use Rattle.device_session.specs.Missed as spec;

    ghost Value = { spec.Missed };

    ghost view = { λ missed. record {
      handles = missed.handles.items;
      told = missed.told.items;
    } };
}

impl Missed {
    pub(crate) fn new(alloc: Global) -> Missed
        ensures { result ≡ nothing_missed }
    {
        Missed {
            handles: Vec::new(alloc),
            told: Vec::new(alloc),
        }
    }

    /// Notes a value of which no application was notified.
    ///
    /// An error changes nothing: memory was refused.
    pub(crate) fn add(&mut self, handle: u16) -> Result<(), AllocError>
        ensures missed { IfOk result (λ _. self.new ≡ with_missed self.old handle) }
        ensures unchanged { IfErr result (λ _. self.new ≡ self.old) }
    {
        add_handle(&mut self.handles, handle)
    }

    /// Notes a value of which the application was notified.
    ///
    /// An error changes nothing: memory was refused.
    pub(crate) fn tell(&mut self, handle: u16) -> Result<(), AllocError>
        ensures told { IfOk result (λ _. self.new ≡ with_told self.old handle) }
        ensures unchanged { IfErr result (λ _. self.new ≡ self.old) }
    {
        add_handle(&mut self.told, handle)
    }

    /// Notes that the application has disconnected, and whether it had read everything. If not, it
    /// has missed the values of which it was notified, too.
    ///
    /// After an error, for which memory was refused, some of these are not noted.
    pub(crate) fn end(&mut self, has_read_all: bool) -> Result<(), AllocError>
        // If not everything was read, the values of which the application was notified are missed
        // too.
        ensures ended { IfOk result (λ _. self.new ≡ after_last has_read_all self.old) }
        ensures read { has_read_all ≡ true → self.new ≡ after_last has_read_all self.old }
        ensures told { self.new.told ≡ [] }
        // None that was missed before is lost, and those of which it was notified are noted as far
        // as there is memory.
        ensures kept { IsNotedUpTo self.old.told self.old.handles self.new.handles }
    {
        if has_read_all {
            self.told.clear();
            return Ok(());
        }
        let added = add_handles(&mut self.handles, self.told.as_slice());
        self.told.clear();
        added
    }

    /// Returns the value missed first, and marks it as notified.
    ///
    /// An error changes nothing: memory was refused.
    pub(crate) fn next(&mut self) -> Result<Option<u16>, AllocError>
        ensures first { IfOk result (λ handle. handle ≡ first_of self.old.handles) }
        // Each is noted once as notified.
        ensures told { IfOk result (λ _. self.new ≡ after_next self.old) }
        ensures unchanged { IfErr result (λ _. self.new ≡ self.old) }
    {
        if self.handles.is_empty() {
            return Ok(None);
        }
        let handle = self.handles[0];
        add_handle(&mut self.told, handle)?;
        self.handles.remove(0);
        Ok(Some(handle))
    }
}

fn add_handle(handles: &mut Vec<u16>, handle: u16) -> Result<(), AllocError>
    ensures added { IfOk result (λ _. handles.new.items ≡ with_handle handles.old.items handle) }
    ensures unchanged { IfErr result (λ _. handles.new.items ≡ handles.old.items) }
{
    if !handles.as_slice().contains(&handle) {
        handles.push(handle)?;
    }
    Ok(())
}

fn add_handles(handles: &mut Vec<u16>, more: &[u16]) -> Result<(), AllocError>
    ensures added { IfOk result
        (λ _. handles.new.items ≡ with_handles handles.old.items more.now) }
    ensures kept { IsNotedUpTo more.now handles.old.items handles.new.items }
{
    for handle in more {
        add_handle(handles, *handle)?;
    }
    Ok(())
}
