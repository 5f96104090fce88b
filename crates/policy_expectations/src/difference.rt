//! The differences between what is meant and what a table permits.

ghost use Rattle.std.specs.Prelude.{◌≡◌, ◌↔◌, ◌++◌, ◌∷◌, [], IfOk, OnOk};
ghost use Rattle.std.specs.List.{flat_map};
ghost use Rattle.policy_expectations.specs.Differences.{attribute_differences, differences_of, differs, expectation_differences, expected_differences, kind_differs, named_differences, right_differences, right_differs};
ghost use Rattle.policy_expectations.specs.Holding.{AllHold};

use crate::expectation::{Expectation, is_meant, meant_for};
use crate::named::add_named;
use crate::needed::{is_same_need, need_for};
use crate::unnamed::add_unnamed;
use att_policy::{KeyFacts, Need};
use att_table::{Attr, Table};
use policy_rights::{Right, every_kind, may_with};
use std::alloc::{AllocError, Global};

/// A right of an attribute that is not as it is meant.
#[derive(Clone, Copy)]
pub struct Differing {
    pub handle: u16,
    /// The type of the attribute.
    pub kind: u128,
    pub right: Right,
    pub meant: Option<Need>,
}

/// A difference between what is meant and what a table permits.
#[derive(Clone, Copy)]
pub enum Difference {
    /// Some link may use an attribute but should not, or should but may not.
    Use(Differing),
    /// No expectation names the attribute with this handle and type, but somebody may use it.
    Unnamed(u16, u128),
    /// The expectation at a place in the file, for a characteristic, names no attribute.
    NamesNothing(u16, u128),
}

/// Returns the differences in the order of the expectations, and then the attributes that somebody
/// may use but that no expectation names.
///
/// Compares each right for each key that there can be and for none, authorized or not. On `Err`
/// memory was refused.
pub fn differences(
    alloc: Global,
    table: &Table,
    expectations: &[Expectation],
) -> Result<Vec<Difference>, AllocError>
    // Each right is compared with the expectation, for no key and each kind of key that there can
    // be, authorized or not.
    ensures exact { IfOk result (λ differences. differences.items
        ≡ differences_of table.now expectations.now) }
    // There is no difference exactly if each expectation names an attribute, each connection has
    // exactly the rights whose needs it meets, and each value that can be used is named.
    ensures holds { IfOk result (λ differences. (differences.items ≡ [])
        ↔ AllHold table.now expectations.now) }
{
    let kinds = every_kind(alloc)?;
    let mut differences = Vec::new(alloc);
    add_all(alloc, &mut differences, table, &kinds, expectations)?;
    add_unnamed(alloc, &mut differences, table, &kinds, expectations)?;
    Ok(differences)
}

fn add_all(
    alloc: Global,
    differences: &mut Vec<Difference>,
    table: &Table,
    kinds: &[Option<KeyFacts>],
    expectations: &[Expectation],
) -> Result<(), AllocError>
    ensures ok { OnOk result (differences.new.items ≡ differences.old.items
        ++ flat_map (expectation_differences table.now kinds.now) expectations.now) }
{
    for expected in expectations {
        add_of_expectation(alloc, differences, table, kinds, expected)?;
    }
    Ok(())
}

fn add_of_expectation(
    alloc: Global,
    differences: &mut Vec<Difference>,
    table: &Table,
    kinds: &[Option<KeyFacts>],
    expected: &Expectation,
) -> Result<(), AllocError>
    ensures ok { OnOk result (differences.new.items ≡ differences.old.items
        ++ expectation_differences table.now kinds.now expected.now) }
{
    let mut named = Vec::new(alloc);
    add_named(alloc, &mut named, table, expected)?;
    add_of_named(differences, table, kinds, expected, &named)
}

fn add_of_named(
    differences: &mut Vec<Difference>,
    table: &Table,
    kinds: &[Option<KeyFacts>],
    expected: &Expectation,
    named: &[Attr],
) -> Result<(), AllocError>
    ensures ok { OnOk result (differences.new.items ≡ differences.old.items
        ++ named_differences table.now.attributes kinds.now expected.now named.now) }
{
    match named {
        [] => add(
            differences,
            Difference::NamesNothing(expected.place, expected.characteristic),
        ),
        _ => add_of_attributes(differences, table, kinds, expected, named),
    }
}

fn add_of_attributes(
    differences: &mut Vec<Difference>,
    table: &Table,
    kinds: &[Option<KeyFacts>],
    expected: &Expectation,
    attributes: &[Attr],
) -> Result<(), AllocError>
    ensures ok { OnOk result (differences.new.items ≡ differences.old.items ++ flat_map
        (attribute_differences table.now.attributes kinds.now expected.now) attributes.now) }
{
    for attr in attributes {
        add_of_attribute(differences, table, kinds, expected, attr)?;
    }
    Ok(())
}

#[tactic(auto, unfolding(crate::specs::Differences::attribute_differences))]
fn add_of_attribute(
    differences: &mut Vec<Difference>,
    table: &Table,
    kinds: &[Option<KeyFacts>],
    expected: &Expectation,
    attr: &Attr,
) -> Result<(), AllocError>
    ensures ok { OnOk result (differences.new.items ≡ differences.old.items
        ++ attribute_differences table.now.attributes kinds.now expected.now attr.now) }
{
    add_of_right(differences, table, kinds, expected, attr, Right::Read)?;
    add_of_right(differences, table, kinds, expected, attr, Right::Write)?;
    add_of_right(differences, table, kinds, expected, attr, Right::Command)?;
    add_of_right(differences, table, kinds, expected, attr, Right::Notify)?;
    add_of_right(differences, table, kinds, expected, attr, Right::Indicate)?;
    add_of_right(differences, table, kinds, expected, attr, Right::Subscribe)
}

fn add_of_right(
    differences: &mut Vec<Difference>,
    table: &Table,
    kinds: &[Option<KeyFacts>],
    expected: &Expectation,
    attr: &Attr,
    right: Right,
) -> Result<(), AllocError>
    ensures ok { OnOk result (differences.new.items ≡ differences.old.items
        ++ expected_differences table.now.attributes kinds.now expected.now attr.now right) }
{
    let meant = meant_for(expected, right);
    add_if_differs(differences, table, kinds, meant, attr, right)
}

fn add_if_differs(
    differences: &mut Vec<Difference>,
    table: &Table,
    kinds: &[Option<KeyFacts>],
    meant: Option<Need>,
    attr: &Attr,
    right: Right,
) -> Result<(), AllocError>
    ensures ok { OnOk result (differences.new.items ≡ differences.old.items
        ++ right_differences table.now.attributes kinds.now meant attr.now right) }
{
    if right_differs(table, kinds, meant, attr.handle, right) {
        add(
            differences,
            Difference::Use(Differing {
                handle: attr.handle,
                kind: attr.kind,
                right,
                meant,
            }),
        )
    } else {
        Ok(())
    }
}

/// Returns true if a right is not as it is meant, for a link with one of these kinds of keys.
fn right_differs(
    table: &Table,
    kinds: &[Option<KeyFacts>],
    meant: Option<Need>,
    handle: u16,
    right: Right,
) -> bool
    ensures { result ≡ right_differs table.now.attributes kinds.now meant handle right }
{
    if is_same_need(need_for(table, handle, right), meant) {
        return false;
    }
    any_differs(table, kinds, meant, handle, right)
}

fn any_differs(
    table: &Table,
    kinds: &[Option<KeyFacts>],
    meant: Option<Need>,
    handle: u16,
    right: Right,
) -> bool
    ensures { result ≡ right_differs table.now.attributes kinds.now meant handle right }
{
    kinds
        .iter()
        .any(|key| kind_differs(table, meant, handle, right, *key))
}

fn kind_differs(
    table: &Table,
    meant: Option<Need>,
    handle: u16,
    right: Right,
    key: Option<KeyFacts>,
) -> bool
    ensures { result ≡ kind_differs table.now.attributes meant handle right key }
{
    differs(table, meant, handle, right, false, key)
        || differs(table, meant, handle, right, true, key)
}

/// Returns true if a link has a right that it should not have, or has not one that it should have.
pub(crate) fn differs(
    table: &Table,
    meant: Option<Need>,
    handle: u16,
    right: Right,
    is_authorized: bool,
    key: Option<KeyFacts>,
) -> bool
    ensures { result ≡ differs table.now.attributes meant handle right is_authorized key }
{
    may_with(table, key, is_authorized, handle, right) != is_meant(meant, key, is_authorized)
}

pub(crate) fn add(
    differences: &mut Vec<Difference>,
    difference: Difference,
) -> Result<(), AllocError>
    ensures ok { OnOk result
        (differences.new.items ≡ differences.old.items ++ difference ∷ []) }
{
    differences.push(difference)?;
    Ok(())
}
