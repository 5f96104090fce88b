//! The attributes that somebody may use, but that no expectation names.

ghost use Rattle.std.specs.Prelude.{◌≡◌, ◌++◌, OnOk};
ghost use Rattle.std.specs.List.{flat_map, list_any};
ghost use Rattle.policy_rights.specs.Held.{may_use};
ghost use Rattle.policy_expectations.specs.Differences.{all_named, is_among_named, is_unnamed, is_used_by_some_kind, unnamed_differences};
ghost use Rattle.policy_expectations.specs.Named.{attributes_named_by};

use crate::difference::{Difference, add};
use crate::expectation::Expectation;
use crate::named::add_named;
use att_policy::KeyFacts;
use att_table::{Attr, Table};
use policy_rights::{all_attributes, is_used, may_use};
use std::alloc::{AllocError, Global};

/// Adds the attributes that somebody may use, but that no expectation names.
///
/// On `Err` memory was refused and the differences are invalid.
pub(crate) fn add_unnamed(
    alloc: Global,
    differences: &mut Vec<Difference>,
    table: &Table,
    kinds: &[Option<KeyFacts>],
    expectations: &[Expectation],
) -> Result<(), AllocError>
    ensures ok { OnOk result (differences.new.items ≡ differences.old.items ++ flat_map
        (unnamed_differences table.now.attributes kinds.now
        (all_named table.now expectations.now)) table.now.attributes) }
{
    let mut named = Vec::new(alloc);
    add_all_named(alloc, &mut named, table, expectations)?;
    add_others(differences, table, kinds, &named, all_attributes(table))
}

fn add_all_named(
    alloc: Global,
    named: &mut Vec<Attr>,
    table: &Table,
    expectations: &[Expectation],
) -> Result<(), AllocError>
    ensures ok { OnOk result (named.new.items
        ≡ named.old.items ++ flat_map (attributes_named_by table.now) expectations.now) }
{
    for expected in expectations {
        add_named(alloc, named, table, expected)?;
    }
    Ok(())
}

fn add_others(
    differences: &mut Vec<Difference>,
    table: &Table,
    kinds: &[Option<KeyFacts>],
    named: &[Attr],
    attributes: &[Attr],
) -> Result<(), AllocError>
    ensures ok { OnOk result (differences.new.items ≡ differences.old.items ++ flat_map
        (unnamed_differences table.now.attributes kinds.now named.now) attributes.now) }
{
    for attr in attributes {
        add_other(differences, table, kinds, named, attr)?;
    }
    Ok(())
}

fn add_other(
    differences: &mut Vec<Difference>,
    table: &Table,
    kinds: &[Option<KeyFacts>],
    named: &[Attr],
    attr: &Attr,
) -> Result<(), AllocError>
    ensures ok { OnOk result (differences.new.items ≡ differences.old.items
        ++ unnamed_differences table.now.attributes kinds.now named.now attr.now) }
{
    if is_unnamed(table, kinds, named, attr) {
        add(differences, Difference::Unnamed(attr.handle, attr.kind))
    } else {
        Ok(())
    }
}

/// Returns true if somebody may use an attribute that is not among those that are named.
fn is_unnamed(table: &Table, kinds: &[Option<KeyFacts>], named: &[Attr], attr: &Attr) -> bool
    ensures { result ≡ is_unnamed table.now.attributes kinds.now named.now attr.now }
{
    is_used_by_some_kind(table, kinds, attr) && !is_among_named(named, attr.handle)
}

/// Returns true if an attribute is a value or a descriptor that somebody may use.
fn is_used_by_some_kind(table: &Table, kinds: &[Option<KeyFacts>], attr: &Attr) -> bool
    ensures { result ≡ is_used_by_some_kind table.now.attributes kinds.now attr.now }
{
    is_used(attr.role) && anybody_may_use(table, kinds, attr.handle)
}

fn anybody_may_use(table: &Table, kinds: &[Option<KeyFacts>], handle: u16) -> bool
    ensures { result ≡ list_any (may_use table.now.attributes handle) kinds.now }
{
    kinds.iter().any(|key| may_use(table, *key, handle))
}

fn is_among_named(named: &[Attr], handle: u16) -> bool
    ensures { result ≡ is_among_named named.now handle }
{
    named.iter().any(|attr| attr.handle == handle)
}
