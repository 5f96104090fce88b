//! Calls of the application as events of the host state.

ghost use Rattle.std.specs.Prelude.{◌≡◌, if◌then◌else◌, true, Err, IsOk, IsOkAnd, IfOk, IfErr, OnErr};
ghost use Rattle.att_table.specs.Changer.{changer_of};
ghost use Rattle.gatt_laws.specs.machine.Calls.{has_length, same_changer, AuthorizeCall, DisconnectCall, TickCall, UpdateCall};
ghost use Rattle.gatt_host.specs.Calls.{call_of, refused_of};
ghost use Rattle.gatt_host.specs.Asked.{call_happening, replacement_happening};
ghost use Rattle.gatt_host.specs.ServerState.{after_replacing, without_notices};
ghost use Rattle.gatt_host.specs.Meaning.{IsAfter, IsOfItsTable};

use crate::server::Server;
use att_table::{Attr, Role, Table};
use host_api::{App, AppFault};

impl Server {
    /// Executes a call. A refused call only clears the notices.
    pub(crate) fn app(&mut self, call: App<'_>) -> Result<(), AppFault>
        requires of_table { IsOfItsTable self.old }
        ensures after { IsOk result
            → IsOkAnd (call_happening self.old (call_of call.entry))
            (λ happening. IsAfter happening self.old self.new) }
        ensures refused { IfErr result
            (λ fault. call_happening self.old (call_of call.entry) ≡ Err (refused_of fault)) }
        ensures silent { OnErr result (self.new ≡ without_notices self.old) }
    {
        let done = self.call(call);
        self.forget_if(done.is_err());
        done
    }

    fn forget_if(&mut self, refused: bool)
        ensures { self.new ≡ (if refused then without_notices self.old else self.old) }
    {
        if refused {
            self.forget();
        }
    }

    fn call(&mut self, call: App<'_>) -> Result<(), AppFault>
        requires of_table { IsOfItsTable self.old }
        ensures after { IsOk result
            → IsOkAnd (call_happening self.old (call_of call.entry))
            (λ happening. IsAfter happening self.old self.new) }
        ensures refused { IfErr result
            (λ fault. call_happening self.old (call_of call.entry) ≡ Err (refused_of fault)) }
        ensures unchanged { OnErr result (self.new ≡ self.old) }
    {
        match call {
            App::Update(handle, value) => self.update_value(handle, value),
            App::Authorize(handle, until) => self.authorize_connection(handle, until),
            App::Disconnect(handle) => self.end_connection(handle),
            App::Tick(time) => self.tick_on(time),
        }
    }

    #[tactic(auto, using(crate::proofs::packets::Lengths::fits_there, crate::proofs::packets::Lengths::exact_there, crate::proofs::packets::Lengths::none_past))]
    fn update_value(&mut self, handle: u16, value: &[u8]) -> Result<(), AppFault>
        requires of_table { IsOfItsTable self.old }
        ensures after { IsOk result
            → IsOkAnd (call_happening self.old (UpdateCall handle value.now))
            (λ happening. IsAfter happening self.old self.new) }
        ensures refused { IfErr result (λ fault. call_happening self.old
            (UpdateCall handle value.now) ≡ Err (refused_of fault)) }
        ensures unchanged { OnErr result (self.new ≡ self.old) }
    {
        if usize::from(handle) > self.table.len() {
            return Err(AppFault::NoSuchHandle);
        }
        let Some(attr) = self.table.get(handle) else {
            return Err(AppFault::NoSuchHandle);
        };
        if attr.role != Role::Value {
            return Err(AppFault::NotAValue);
        }
        if !has_length(attr, value.len()) {
            return Err(AppFault::BadLength);
        }
        self.update(handle, value);
        Ok(())
    }

    fn authorize_connection(&mut self, handle: u16, until: u64) -> Result<(), AppFault>
        ensures after { IsOk result
            → IsOkAnd (call_happening self.old (AuthorizeCall handle until))
            (λ happening. IsAfter happening self.old self.new) }
        ensures refused { IfErr result (λ fault. call_happening self.old
            (AuthorizeCall handle until) ≡ Err (refused_of fault)) }
        ensures unchanged { OnErr result (self.new ≡ self.old) }
    {
        let Some(place) = self.slots.find_serving(handle) else {
            return Err(AppFault::NoSuchConnection);
        };
        self.authorize(place, until);
        Ok(())
    }

    fn end_connection(&mut self, handle: u16) -> Result<(), AppFault>
        ensures after { IsOk result
            → IsOkAnd (call_happening self.old (DisconnectCall handle))
            (λ happening. IsAfter happening self.old self.new) }
        ensures refused { IfErr result (λ fault. call_happening self.old
            (DisconnectCall handle) ≡ Err (refused_of fault)) }
        ensures unchanged { OnErr result (self.new ≡ self.old) }
    {
        match self.slots.find_serving(handle) {
            Some(place) => {
                self.disconnect(place);
                Ok(())
            }
            None => Err(AppFault::NoSuchConnection),
        }
    }

    fn tick_on(&mut self, time: u64) -> Result<(), AppFault>
        ensures after { IsOk result
            → IsOkAnd (call_happening self.old (TickCall time))
            (λ happening. IsAfter happening self.old self.new) }
        ensures refused { IfErr result
            (λ fault. call_happening self.old (TickCall time) ≡ Err (refused_of fault)) }
        ensures unchanged { OnErr result (self.new ≡ self.old) }
    {
        if time < self.time {
            return Err(AppFault::TimeWentBack);
        }
        self.tick(time);
        Ok(())
    }

    /// Replaces the table and returns the old one. A refusal returns the new one and only clears
    /// the notices.
    pub(crate) fn replace_table(&mut self, table: Table) -> Result<Table, (AppFault, Table)>
        ensures after { IfOk result
            (λ old. (old ≡ self.old.table) × (self.new ≡ after_replacing table self.old)) }
        ensures accepted { IsOk result → same_changer self.old.changer (changer_of table)
            ≡ true }
        ensures refused { IfErr result
            (λ fault. replacement_happening self.old table ≡ Err (refused_of fault.0)) }
        ensures given_back { IfErr result (λ fault. fault.1 ≡ table) }
        ensures silent { OnErr result (self.new ≡ without_notices self.old) }
    {
        if !same_changer(self.changer, table.changer()) {
            self.forget();
            return Err((AppFault::NoServiceChanged, table));
        }
        Ok(self.replace(table))
    }
}

fn has_length(attr: &Attr, count: usize) -> bool
    ensures { result ≡ has_length attr.now count }
{
    let largest = usize::from(attr.largest);
    if attr.fixed {
        count == largest
    } else {
        count <= largest
    }
}

/// Returns true if both tables have Service Changed, at the same handle.
fn same_changer(old: Option<u16>, new: Option<u16>) -> bool
    ensures { result ≡ same_changer old new }
{
    match (old, new) {
        (Some(old), Some(new)) => old == new,
        _ => false,
    }
}
