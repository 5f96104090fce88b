//! Decides which values a connection is notified of.

ghost use Rattle.std.specs.Prelude.{◌≡◌, ◌<◌, ◌≤◌, true, false, is_some, None, IfSome, IsNone};
ghost use Rattle.std.specs.Bool.{OnTrue};
ghost use Rattle.att_numbers.specs.Types.{Row};
ghost use Rattle.att_policy.specs.declared.standing.Standing.{Standing};
ghost use Rattle.att_policy.specs.Policy.{configuration_bits_of, first_unmet_rule_of, may_hear_of};
ghost use Rattle.att_attributes.specs.Attributes.{is_value_at};
ghost use Rattle.att_table.specs.Table.{value_at};
ghost use Rattle.gatt_subs.specs.Hearing.{bits_for, is_indicated, is_indication, may_hear_at, wants_indications};
ghost use Rattle.att_numbers.specs.declared.limit.TheConstants.{MAX_ATTRIBUTES};

use att_policy::{Guard, INDICATION, Need, Standing, may_hear};
use att_table::{ConfigRow, Role, Table};
use std::marker::Model;

/// Notification or indication; a client that requested both gets indications.
#[derive(Clone, Copy)]
pub enum Telling {
    Notification,
    Indication,
}

/// A written value, looked up once for all connections.
#[derive(Drop)]
pub struct Raised<'a> {
    table: &'a Table,
    handle: u16,
    guard: &'a Guard,
    /// Reading requires nothing, so every connection may be notified.
    unguarded: bool,
    /// The configuration bits that its properties allow.
    allowed: u8,
    octets: &'a [u8],
}

impl<'a> Model for Raised<'a> {
    ghost use Rattle.gatt_subs.specs.Raised.{InTable, IsLookedUp};

    ghost Value = { InTable };

    ghost view = { λ raised. record { table = raised.table.now; handle = raised.handle } };

    ghost invariant = { λ raised. IsLookedUp raised.table.now raised.handle raised.guard.now
        raised.unguarded raised.allowed raised.octets.now };
}

impl<'a> Raised<'a> {
    /// Looks up the value at a handle.
    ///
    /// `None`: not a characteristic value, or one that neither notifies nor indicates.
    #[inline(always)]
    #[tactic(auto, using(crate::proofs::Unheard::unheard))]
    pub fn of(table: &'a Table, handle: u16) -> Option<Raised<'a>>
        ensures raised { IfSome result
            (λ raised. raised ≡ record { table = table.now; handle = handle }) }
        ensures value { IfSome result
            (λ raised. is_value_at table.now.attributes handle ≡ true) }
        ensures used { IfSome result (λ raised. 0 < handle) }
        ensures most { IfSome result (λ raised. handle ≤ MAX_ATTRIBUTES) }
        ensures none { IsNone result → (row : Row) (standing : Standing)
            → may_hear_at table.now.attributes row standing handle ≡ false }
    {
        let attr = table.get(handle)?;
        if attr.role != Role::Value {
            return None;
        }
        let allowed = attr.guard.properties.configuration_bits();
        if allowed == 0 {
            return None;
        }
        Some(Raised {
            table,
            handle,
            guard: &attr.guard,
            unguarded: needs_nothing(&attr.guard.read),
            allowed,
            octets: table.value(handle),
        })
    }

    /// Returns the handle, 1 to 1,024.
    #[inline(always)]
    pub fn handle(&self) -> u16
        ensures handle { result ≡ self.now.handle }
        ensures used { 0 < result }
        ensures most { result ≤ MAX_ATTRIBUTES }
    {
        self.handle
    }

    /// Returns the value.
    #[inline(always)]
    pub fn octets(&self) -> &'a [u8]
        ensures { result.now ≡ value_at self.now.table.values self.now.handle }
    {
        self.octets
    }

    /// Returns how the connection is notified, if it may be.
    #[inline(always)]
    pub(crate) fn telling(&self, row: &ConfigRow, standing: &Standing) -> Option<Telling>
        ensures may { is_some result
            ≡ may_hear_at self.now.table.attributes row.now standing.entry.now self.now.handle }
        ensures indicated { IfSome result
            (λ telling. is_indication telling ≡ wants_indications row.now self.now.handle) }
    {
        let bits = bits_for(row, self.handle);
        if !is_heard(self.guard, self.unguarded, self.allowed, bits, standing) {
            return None;
        }
        if bits & INDICATION != 0 {
            Some(Telling::Indication)
        } else {
            Some(Telling::Notification)
        }
    }
}

/// Returns true if every connection meets the requirements.
#[tactic(auto, using(crate::proofs::Unheard::met_by_all))]
fn needs_nothing(need: &Need) -> bool
    ensures { OnTrue result
        ((standing : Standing) → first_unmet_rule_of need.now standing ≡ None) }
{
    *need == Need::NONE
}

/// Returns true if a client with these bits may be notified.
#[inline(always)]
#[tactic(auto, using(crate::proofs::Unheard::heard_by_all))]
fn is_heard(guard: &Guard, unguarded: bool, allowed: u8, bits: u8, standing: &Standing) -> bool
    requires unguarded { OnTrue unguarded
        (first_unmet_rule_of guard.now.read standing.now ≡ None) }
    requires allowed { allowed ≡ configuration_bits_of guard.now.properties }
    ensures { result ≡ may_hear_of guard.now bits standing.entry.now }
{
    if unguarded {
        bits & allowed != 0
    } else {
        may_hear(guard, bits, standing)
    }
}

/// Returns the bits of the value's CCCD, which is the next handle.
#[inline(always)]
fn bits_for(row: &ConfigRow, handle: u16) -> u8
    requires { handle ≤ MAX_ATTRIBUTES }
    ensures { result ≡ bits_for row.now handle }
{
    row.get(handle + 1)
}

/// Returns true if the client requested indications of the value.
pub fn wants_indications(row: &ConfigRow, handle: u16) -> bool
    requires { handle ≤ MAX_ATTRIBUTES }
    ensures { result ≡ wants_indications row.now handle }
{
    bits_for(row, handle) & INDICATION != 0
}

/// Returns true if the value must be indicated.
///
/// The connection may be notified of it and requested indications.
#[inline(always)]
pub fn is_indicated(table: &Table, row: &ConfigRow, standing: &Standing, handle: u16) -> bool
    ensures due { result ≡ is_indicated table.now.attributes row.now standing.entry.now handle }
    ensures value { OnTrue result (is_value_at table.now.attributes handle ≡ true) }
{
    match Raised::of(table, handle) {
        Some(raised) => matches!(raised.telling(row, standing), Some(Telling::Indication)),
        None => false,
    }
}
