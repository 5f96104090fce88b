//! The rights of a connection.

ghost use Rattle.std.specs.Prelude.{◌≡◌, is_none};
ghost use Rattle.std.specs.Option.{option_copied};
ghost use Rattle.att_policy.specs.Policy.{first_broken_of};
ghost use Rattle.att_attributes.specs.Attributes.{guard_at, is_configuration_at};
ghost use Rattle.policy_rights.specs.Laws.{SendsByRights};
ghost use Rattle.policy_rights.specs.Rights.{is_sent, is_sent_of, may_of, standing_with_key, subscribes_at, subscribes_of};

use crate::needs::is_notified_or_indicated;
use att_policy::{Access, Guard, INDICATION, KeyFacts, Standing, first_broken, may_hear};
use att_table::{Attr, Role, Table};

/// A use of an attribute by a client.
#[derive(Clone, Copy, PartialEq, Eq)]
pub enum Right {
    Read,
    /// By Write Requests or prepared writes.
    Write,
    /// By Write Commands.
    Command,
    /// To be sent notifications of a value, if the client has subscribed, whenever that was.
    Notify,
    /// To be sent indications of a value, if the client has subscribed, whenever that was.
    Indicate,
    /// To subscribe to a value: to write its CCCD.
    Subscribe,
}

/// The CCCD bit for notifications (Core 5.0, Vol 3 Part G, 3.3.3.3).
pub const NOTIFICATION: u8 = 0x01;

/// Returns the standing of a connection that is encrypted with a key, or not encrypted.
pub fn standing_of(key: Option<KeyFacts>, is_authorized: bool) -> Standing
    ensures { result ≡ standing_with_key key is_authorized }
{
    Standing {
        key,
        key_known: key.is_some(),
        until: if is_authorized { 1 } else { 0 },
        now: 0,
    }
}

/// Returns true if a connection may use the attribute at a handle so.
#[tactic(auto, using(crate::proofs::Standings::sends_by_rights))]
pub fn may(table: &Table, standing: &Standing, handle: u16, right: Right) -> bool
    // A right is exactly what the server grants: an access that breaks no rule, a value that it
    // sends to a client with this bit in its row, or a subscription that it accepts.
    ensures exact { result ≡ may_of table.now.attributes standing.entry.now handle right }
    // With any row of bits, the server sends a value exactly if the row asks for notifications or
    // indications and the connection has the right to be sent these.
    ensures sent { SendsByRights }
{
    match right {
        Right::Read => is_permitted(Access::Read, table, standing, handle),
        Right::Write => is_permitted(Access::Write, table, standing, handle),
        Right::Command => is_permitted(Access::Command, table, standing, handle),
        Right::Notify => is_sent(table, standing, handle, NOTIFICATION),
        Right::Indicate => is_sent(table, standing, handle, INDICATION),
        Right::Subscribe => subscribes(table, standing, handle),
    }
}

fn is_permitted(access: Access, table: &Table, standing: &Standing, handle: u16) -> bool
    ensures { result ≡ is_none
        (first_broken_of access (guard_at table.now.attributes handle) standing.entry.now) }
{
    match first_broken(access, guard_of(table, handle), standing) {
        Some(_) => false,
        None => true,
    }
}

fn guard_of(table: &Table, handle: u16) -> Option<&Guard>
    ensures { option_copied result ≡ guard_at table.now.attributes handle }
{
    Some(&table.get(handle)?.guard)
}

/// Returns true if the host sends the value at a handle to a client that asks for it by this bit.
#[tactic(auto, using(crate::proofs::Subscribing::sent))]
fn is_sent(table: &Table, standing: &Standing, handle: u16, bit: u8) -> bool
    ensures { result ≡ is_sent_of table.now.attributes standing.entry.now handle bit }
{
    match table.get(handle) {
        Some(attr) => is_sent_by(attr, standing, bit),
        None => false,
    }
}

fn is_sent_by(attr: &Attr, standing: &Standing, bit: u8) -> bool
    ensures { result ≡ is_sent attr.now standing.entry.now bit }
{
    attr.role == Role::Value && may_hear(&attr.guard, bit, standing)
}

/// Returns true if the server accepts that a connection subscribes to the value at a handle.
#[tactic(auto, using(crate::proofs::Subscribing::subscribes))]
fn subscribes(table: &Table, standing: &Standing, handle: u16) -> bool
    ensures { result ≡ subscribes_of table.now.attributes standing.entry.now handle }
{
    match table.get(handle) {
        Some(attr) => accepts(table, standing, &attr.guard, handle + 1),
        None => false,
    }
}

/// Returns true if a connection may write all bits of the CCCD at a handle, behind a value with
/// this guard, and there is one.
fn accepts(table: &Table, standing: &Standing, guard: &Guard, handle: u16) -> bool
    ensures { result ≡ subscribes_at table.now.attributes standing.entry.now guard.now handle }
{
    is_configuration(table, handle)
        && is_permitted(Access::Write, table, standing, handle)
        && is_notified_or_indicated(guard.properties)
}

fn is_configuration(table: &Table, handle: u16) -> bool
    ensures { result ≡ is_configuration_at table.now.attributes handle }
{
    match table.get(handle) {
        Some(attr) => attr.role == Role::Configuration,
        None => false,
    }
}

/// Returns all attributes of a table.
#[tactic(auto, using(crate::proofs::Attributes::all_attributes))]
pub fn all_attributes(table: &Table) -> &[Attr]
    ensures { result.now ≡ table.now.attributes }
{
    table.in_range(1, table.len() as u16)
}
