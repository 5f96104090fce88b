//! The server's answer to a use of an attribute, with the reason of a refusal.

ghost use Rattle.std.specs.Prelude.{◌≡◌};
ghost use Rattle.att_policy.specs.Policy.{first_broken_of, first_unmet_rule_of};
ghost use Rattle.att_attributes.specs.Attributes.{guard_at, is_configuration_at};
ghost use Rattle.policy_rights.specs.Rights.{may_of};
ghost use Rattle.policy_words.specs.may.Verdict.{access_verdict, broken_by_write, has_bit, is_yes, sending_verdict, sent_verdict, subscription_answer, subscription_verdict, verdict_of, write_verdict};
ghost use Rattle.std.specs.Option.{option_copied};

use att_numbers::error_code;
use att_policy::{Access, Guard, INDICATION, Properties, Rule, Standing, first_broken};
use att_table::{Attr, Role, Table};
use policy_rights::{NOTIFICATION, Right, is_notified_or_indicated};

/// The server's answer to a use of an attribute.
#[derive(Clone, Copy, PartialEq, Eq)]
pub enum Verdict {
    Yes,
    /// The access breaks this rule, and is refused by this error code.
    Refused(Rule, u8),
    /// The attribute has no property notify or indicate, so nobody may subscribe to it.
    NoConfiguration,
    /// The write of the CCCD at this handle breaks this rule, and is refused by this error code.
    NoSubscription(u16, Rule, u8),
    /// Nothing is sent to a client that has subscribed, by this rule for reading. The rule is
    /// `Property` if the attribute is no value with the property.
    Silent(Rule),
}

impl Verdict {
    /// Returns true if the server grants the use.
    pub fn is_yes(self) -> bool
        ensures { result ≡ is_yes self }
    {
        match self {
            Verdict::Yes => true,
            _ => false,
        }
    }
}

/// Returns the answer to a connection that uses the attribute at a handle so.
///
/// It is yes exactly if the connection has the right.
pub fn verdict_of(table: &Table, standing: &Standing, handle: u16, right: Right) -> Verdict
    // The first broken rule, and the error code with which the server refuses the access, or the
    // write of the configuration that subscribes.
    ensures exact { result
        ≡ verdict_of table.now.attributes standing.entry.now handle right }
    // Yes exactly if the link has the right.
    ensures law { is_yes result
        ≡ may_of table.now.attributes standing.entry.now handle right }
{
    of_use(table, standing, handle, right)
}

fn of_use(table: &Table, standing: &Standing, handle: u16, right: Right) -> Verdict
    ensures { result
        ≡ verdict_of table.now.attributes standing.entry.now handle right }
{
    match right {
        Right::Read => of_access(Access::Read, table, standing, handle),
        Right::Write => of_access(Access::Write, table, standing, handle),
        Right::Command => of_access(Access::Command, table, standing, handle),
        Right::Notify => of_sending(table, standing, handle, NOTIFICATION),
        Right::Indicate => of_sending(table, standing, handle, INDICATION),
        Right::Subscribe => of_subscription(table, standing, handle),
    }
}

fn of_access(access: Access, table: &Table, standing: &Standing, handle: u16) -> Verdict
    ensures { result ≡ access_verdict
        (first_broken_of access (guard_at table.now.attributes handle) standing.entry.now) }
{
    match first_broken(access, guard_of(table, handle), standing) {
        Some((rule, code)) => Verdict::Refused(rule, code),
        None => Verdict::Yes,
    }
}

fn guard_of(table: &Table, handle: u16) -> Option<&Guard>
    ensures { option_copied result ≡ guard_at table.now.attributes handle }
{
    Some(&table.get(handle)?.guard)
}

/// Returns whether the value at a handle is sent to a client that has subscribed by this bit.
fn of_sending(table: &Table, standing: &Standing, handle: u16, bit: u8) -> Verdict
    ensures { result ≡ sending_verdict table.now.attributes standing.entry.now handle bit }
{
    match table.get(handle) {
        Some(attr) if attr.role == Role::Value && has_bit(attr, bit) => of_reading(attr, standing),
        Some(_) => Verdict::Silent(Rule::Property),
        None => Verdict::Refused(Rule::HandleExists, error_code::INVALID_HANDLE),
    }
}

/// Returns the answer to a subscription to the value at a handle.
#[tactic(auto, using(crate::proofs::Subscribing::subscription))]
fn of_subscription(table: &Table, standing: &Standing, handle: u16) -> Verdict
    ensures { result ≡ subscription_verdict table.now.attributes standing.entry.now handle }
{
    match table.get(handle) {
        Some(attr) => of_announced(table, standing, attr, handle + 1),
        None => Verdict::Refused(Rule::HandleExists, error_code::INVALID_HANDLE),
    }
}

/// Returns the answer to a subscription by the CCCD at a handle, after an attribute.
fn of_announced(table: &Table, standing: &Standing, attr: &Attr, handle: u16) -> Verdict
    ensures { result ≡ subscription_answer table.now.attributes standing.entry.now attr.now handle }
{
    if is_notified_or_indicated(attr.guard.properties) && is_configuration(table, handle) {
        return of_configuration(table, standing, handle);
    }
    Verdict::NoConfiguration
}

pub(crate) fn is_configuration(table: &Table, handle: u16) -> bool
    ensures { result ≡ is_configuration_at table.now.attributes handle }
{
    match table.get(handle) {
        Some(attr) => attr.role == Role::Configuration,
        None => false,
    }
}

fn of_configuration(table: &Table, standing: &Standing, handle: u16) -> Verdict
    ensures { result
        ≡ write_verdict handle (broken_by_write table.now.attributes standing.entry.now handle) }
{
    match first_broken(Access::Write, guard_of(table, handle), standing) {
        Some((rule, code)) => Verdict::NoSubscription(handle, rule, code),
        None => Verdict::Yes,
    }
}

/// Returns true if a value has the property that this bit of its CCCD asks for.
fn has_bit(attr: &Attr, bit: u8) -> bool
    ensures { result ≡ has_bit attr.now bit }
{
    bit & attr.guard.properties.configuration_bits() != 0
}

/// Returns the answer by the requirements of reading alone, without the property.
#[tactic(auto, using(crate::proofs::Reading::unmet))]
fn of_reading(attr: &Attr, standing: &Standing) -> Verdict
    ensures { result
        ≡ sent_verdict (first_unmet_rule_of attr.now.guard.read standing.entry.now) }
{
    let readable = Guard {
        properties: Properties::READ,
        read: attr.guard.read,
        write: attr.guard.write,
    };
    match first_broken(Access::Read, Some(&readable), standing) {
        Some((rule, _)) => Verdict::Silent(rule),
        None => Verdict::Yes,
    }
}
