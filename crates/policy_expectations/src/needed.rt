//! The need of a right in a table.

ghost use Rattle.std.specs.Prelude.{◌≡◌, Some};
ghost use Rattle.std.specs.Option.{option_copied};
ghost use Rattle.att_attributes.specs.Attributes.{guard_at, is_configuration_at};
ghost use Rattle.policy_expectations.specs.Needed.{IsNeedFor, need_of_configuration, is_same_need, need_for, need_of_right, needed_if, same_need, written_need};

use att_policy::{Guard, Need, Properties};
use att_table::{Attr, Role, Table};
use bitflags::Flags;
use policy_rights::{Right, is_notified_or_indicated};

/// Returns what a connection needs for a right, or `None` if nobody has it.
#[tactic(auto, using(crate::proofs::RightNeeds::is_need_for))]
pub(crate) fn need_for(table: &Table, handle: u16, right: Right) -> Option<Need>
    ensures need { result ≡ need_for table.now.attributes handle right }
    // Each connection has the right exactly if it meets the need.
    ensures law { IsNeedFor }
{
    match table.get(handle) {
        Some(attr) => need_of_right(table, handle + 1, right, attr),
        None => None,
    }
}

/// Returns the need at an attribute, by the handle of the next one.
fn need_of_right(table: &Table, next: u16, right: Right, attr: &Attr) -> Option<Need>
    ensures { result ≡ need_of_right table.now.attributes next right (Some attr.now) }
{
    let has = attr.guard.properties;
    let is_value = attr.role == Role::Value;
    match right {
        Right::Read => needed_if(has.contains(Properties::READ), attr.guard.read),
        Right::Write => needed_if(has.contains(Properties::WRITE), attr.guard.write),
        Right::Command => {
            needed_if(
                has.contains(Properties::WRITE_WITHOUT_RESPONSE),
                attr.guard.write,
            )
        }
        Right::Notify => needed_if(
            is_value && has.contains(Properties::NOTIFY),
            attr.guard.read,
        ),
        Right::Indicate => {
            needed_if(
                is_value && has.contains(Properties::INDICATE),
                attr.guard.read,
            )
        }
        Right::Subscribe => need_of_configuration(
            is_configuration(table, next) && is_notified_or_indicated(has),
            guard_of(table, next),
        ),
    }
}

fn needed_if(is_permitted: bool, need: Need) -> Option<Need>
    ensures { result ≡ needed_if is_permitted need }
{
    if is_permitted { Some(need) } else { None }
}

fn need_of_configuration(is_notified_or_indicated: bool, guard: Option<&Guard>) -> Option<Need>
    ensures { result ≡ need_of_configuration is_notified_or_indicated (option_copied guard.entry) }
{
    if is_notified_or_indicated {
        written_need(guard)
    } else {
        None
    }
}

fn written_need(guard: Option<&Guard>) -> Option<Need>
    ensures { result ≡ written_need (option_copied guard.entry) }
{
    match guard {
        Some(guard) => needed_if(guard.properties.contains(Properties::WRITE), guard.write),
        None => None,
    }
}

fn guard_of(table: &Table, handle: u16) -> Option<&Guard>
    ensures { option_copied result ≡ guard_at table.now.attributes handle }
{
    Some(&table.get(handle)?.guard)
}

fn is_configuration(table: &Table, handle: u16) -> bool
    ensures { result ≡ is_configuration_at table.now.attributes handle }
{
    match table.get(handle) {
        Some(attr) => attr.role == Role::Configuration,
        None => false,
    }
}

/// Returns true if two needs have equal parts, so that each connection meets both or none.
pub(crate) fn is_same_need(one: Option<Need>, other: Option<Need>) -> bool
    ensures { result ≡ is_same_need one other }
{
    match (one, other) {
        (None, None) => true,
        (Some(one), Some(other)) => same_need(&one, &other),
        _ => false,
    }
}

fn same_need(one: &Need, other: &Need) -> bool
    ensures { result ≡ same_need one.now other.now }
{
    one.needs_encryption() == other.needs_encryption()
        && one.needs_authentication() == other.needs_authentication()
        && one.least_key_size() == other.least_key_size()
        && one.secure == other.secure
        && one.authorized == other.authorized
}
