//! The rights that no key, and each kind of key, gives.

ghost use Rattle.std.specs.Prelude.{◌≡◌, ◌||◌, ◌&&◌, IfOk, OnOk};
ghost use Rattle.std.specs.Bool.{beq};
ghost use Rattle.std.specs.List.{list_all, list_any};
ghost use Rattle.policy_rights.specs.Held.{adds_nothing, has_equal_rights, has_same_rights, is_equal_at, is_same_right, is_used, kinds_that_differ, least_short_size, lesser, may_be_sent, may_follow, may_subscribe, may_use, may_with, may_write, short_writer_size, with_kind};
ghost use Rattle.policy_rights.specs.Laws.{DependsOnKeyAndTime};

use crate::rights::{Right, all_attributes, may, standing_of};
use att_policy::KeyFacts;
use att_table::{Attr, Role, Table};
use std::alloc::{AllocError, Global};

/// Returns true if a link with this key or none, authorized or not, has a right.
#[tactic(auto, using(crate::proofs::Standings::depends_on_key_and_time))]
pub fn may_with(
    table: &Table,
    key: Option<KeyFacts>,
    is_authorized: bool,
    handle: u16,
    right: Right,
) -> bool
    ensures exact { result ≡ may_with table.now.attributes key is_authorized handle right }
    // A key, and whether the application authorizes the connection now, decide all rights.
    ensures all { DependsOnKeyAndTime }
{
    may(table, &standing_of(key, is_authorized), handle, right)
}

/// Returns true if it may write, by requests or by commands.
pub(crate) fn may_write(
    table: &Table,
    key: Option<KeyFacts>,
    is_authorized: bool,
    handle: u16,
) -> bool
    ensures { result ≡ may_write table.now.attributes key is_authorized handle }
{
    may_with(table, key, is_authorized, handle, Right::Write)
        || may_with(table, key, is_authorized, handle, Right::Command)
}

/// Returns true if it may subscribe, once authorized.
pub(crate) fn may_subscribe(table: &Table, key: Option<KeyFacts>, handle: u16) -> bool
    ensures { result ≡ may_subscribe table.now.attributes handle key }
{
    may_with(table, key, true, handle, Right::Subscribe)
}

/// Returns true if it may be sent a value by notifications or by indications, once authorized.
fn may_be_sent(table: &Table, key: Option<KeyFacts>, handle: u16) -> bool
    ensures { result ≡ may_be_sent table.now.attributes handle key }
{
    may_with(table, key, true, handle, Right::Notify)
        || may_with(table, key, true, handle, Right::Indicate)
}

/// Returns true if it may subscribe to a value and then be sent it, once authorized.
pub(crate) fn may_follow(table: &Table, key: Option<KeyFacts>, handle: u16) -> bool
    ensures { result ≡ may_follow table.now.attributes handle key }
{
    may_subscribe(table, key, handle) && may_be_sent(table, key, handle)
}

/// Returns true if it may use an attribute at all, once authorized.
pub fn may_use(table: &Table, key: Option<KeyFacts>, handle: u16) -> bool
    ensures { result ≡ may_use table.now.attributes handle key }
{
    may_with(table, key, true, handle, Right::Read)
        || may_write(table, key, true, handle)
        || may_be_sent(table, key, handle)
        || may_subscribe(table, key, handle)
}

pub(crate) fn anybody_may_use(table: &Table, columns: &[Option<KeyFacts>], handle: u16) -> bool
    ensures { result ≡ list_any (may_use table.now.attributes handle) columns.now }
{
    columns.iter().any(|key| may_use(table, *key, handle))
}

pub(crate) fn anybody_may_follow(table: &Table, columns: &[Option<KeyFacts>], handle: u16) -> bool
    ensures { result ≡ list_any (may_follow table.now.attributes handle) columns.now }
{
    columns.iter().any(|key| may_follow(table, *key, handle))
}

/// Returns the least size of the keys of less than 16 octets that may write, once authorized.
pub(crate) fn least_short_size(
    table: &Table,
    columns: &[Option<KeyFacts>],
    handle: u16,
) -> Option<u8>
    ensures { result ≡ least_short_size table.now.attributes handle columns.now }
{
    let mut least = None;
    for key in columns {
        least = lesser(least, short_writer_size(table, *key, handle));
    }
    least
}

fn lesser(one: Option<u8>, other: Option<u8>) -> Option<u8>
    ensures { result ≡ lesser one other }
{
    match (one, other) {
        (Some(one), Some(other)) => Some(one.min(other)),
        (one, None) => one,
        (None, other) => other,
    }
}

/// Returns the size of a key of less than 16 octets that may write, once authorized.
fn short_writer_size(table: &Table, key: Option<KeyFacts>, handle: u16) -> Option<u8>
    ensures { result ≡ short_writer_size table.now.attributes handle key }
{
    let key = key?;
    if key.size < 16 && may_write(table, Some(key), true, handle) {
        Some(key.size)
    } else {
        None
    }
}

/// Returns true if clients use an attribute: a value or a descriptor.
pub fn is_used(role: Role) -> bool
    ensures { result ≡ is_used role }
{
    match role {
        Role::Value | Role::Descriptor => true,
        Role::Declaration | Role::Configuration => false,
    }
}

fn is_same_right(
    table: &Table,
    one: Option<KeyFacts>,
    other: Option<KeyFacts>,
    is_authorized: bool,
    handle: u16,
    right: Right,
) -> bool
    ensures { result ≡ is_same_right table.now.attributes one other is_authorized handle right }
{
    may_with(table, one, is_authorized, handle, right)
        == may_with(table, other, is_authorized, handle, right)
}

fn has_same_rights(
    table: &Table,
    one: Option<KeyFacts>,
    other: Option<KeyFacts>,
    is_authorized: bool,
    handle: u16,
) -> bool
    ensures { result ≡ has_same_rights table.now.attributes one other is_authorized handle }
{
    is_same_right(table, one, other, is_authorized, handle, Right::Read)
        && is_same_right(table, one, other, is_authorized, handle, Right::Write)
        && is_same_right(table, one, other, is_authorized, handle, Right::Command)
        && is_same_right(table, one, other, is_authorized, handle, Right::Notify)
        && is_same_right(table, one, other, is_authorized, handle, Right::Indicate)
        && is_same_right(table, one, other, is_authorized, handle, Right::Subscribe)
}

fn is_equal_at(table: &Table, one: Option<KeyFacts>, other: Option<KeyFacts>, attr: &Attr) -> bool
    ensures { result ≡ is_equal_at table.now.attributes one other attr.now }
{
    !is_used(attr.role)
        || (has_same_rights(table, one, other, false, attr.handle)
            && has_same_rights(table, one, other, true, attr.handle))
}

/// Returns true if two kinds of keys, or no key, give the same rights to all values and
/// descriptors.
pub fn has_equal_rights(table: &Table, one: Option<KeyFacts>, other: Option<KeyFacts>) -> bool
    ensures { result ≡ has_equal_rights table.now.attributes one other }
{
    all_attributes(table)
        .iter()
        .all(|attr| is_equal_at(table, one, other, attr))
}

/// Returns true if a key permits no more than none.
pub(crate) fn adds_nothing(table: &Table, key: Option<KeyFacts>) -> bool
    ensures { result ≡ adds_nothing table.now.attributes key }
{
    has_equal_rights(table, key, None)
}

/// Returns true if no key permits more than none.
pub(crate) fn all_add_nothing(table: &Table, columns: &[Option<KeyFacts>]) -> bool
    ensures { result ≡ list_all (adds_nothing table.now.attributes) columns.now }
{
    columns.iter().all(|key| adds_nothing(table, *key))
}

/// Returns the first of all kinds of keys with equal rights, in the order of the kinds.
///
/// On `Err` memory was refused.
pub fn kinds_that_differ(
    alloc: Global,
    table: &Table,
    kinds: &[Option<KeyFacts>],
) -> Result<Vec<Option<KeyFacts>>, AllocError>
    ensures { IfOk result
        (λ firsts. firsts.items ≡ kinds_that_differ table.now.attributes kinds.now) }
{
    let mut firsts = Vec::new(alloc);
    for kind in kinds {
        add_if_first(&mut firsts, table, *kind)?;
    }
    Ok(firsts)
}

fn add_if_first(
    firsts: &mut Vec<Option<KeyFacts>>,
    table: &Table,
    kind: Option<KeyFacts>,
) -> Result<(), AllocError>
    ensures ok { OnOk result
        (firsts.new.items ≡ with_kind table.now.attributes firsts.old.items kind) }
{
    if has_equal(table, firsts, kind) {
        return Ok(());
    }
    firsts.push(kind)?;
    Ok(())
}

fn has_equal(table: &Table, firsts: &[Option<KeyFacts>], kind: Option<KeyFacts>) -> bool
    ensures { result ≡ list_any (has_equal_rights table.now.attributes kind) firsts.now }
{
    firsts
        .iter()
        .any(|first| has_equal_rights(table, kind, *first))
}
