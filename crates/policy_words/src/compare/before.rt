//! The rights that links surely had in another table.

ghost use Rattle.std.specs.Prelude.{◌≡◌, ◌++◌, IfOk, OnOk};
ghost use Rattle.std.specs.List.{flat_map, list_all};
ghost use Rattle.policy_words.specs.Cell.{rights_where};
ghost use Rattle.policy_words.specs.compare.Before.{IsHeldFor, before_of, gave, had, handle_of_type, has, held_of, is_held_for, loose_type, one_held, partners_by, rights_of};

use crate::cell::Rights;
use crate::compare::pairing::Pair;
use att_policy::KeyFacts;
use att_table::{Attr, Table};
use policy_rights::{Right, all_attributes, is_used, may_with};
use std::alloc::{AllocError, Global};

/// The rights that links with a kind of key surely had.
#[derive(Clone, Copy)]
pub(crate) struct Held {
    pub key: Option<KeyFacts>,
    /// Without an authorization.
    pub always: Rights,
    /// With an authorization.
    pub authorized: Rights,
}

/// Returns the attributes of the other table that may correspond to one.
fn partners_by(
    alloc: Global,
    others: &Table,
    there: Option<u16>,
    kind: u128,
) -> Result<Vec<u16>, AllocError>
    ensures { IfOk result
        (λ partners. partners.items ≡ partners_by there kind others.now.attributes) }
{
    let mut partners = Vec::new(alloc);
    match there {
        Some(handle) => partners.push(handle)?,
        None => add_of_type(&mut partners, kind, all_attributes(others))?,
    }
    Ok(partners)
}

fn add_of_type(handles: &mut Vec<u16>, kind: u128, attributes: &[Attr]) -> Result<(), AllocError>
    ensures ok { OnOk result (handles.new.items
        ≡ handles.old.items ++ flat_map (handle_of_type kind) attributes.now) }
{
    for attr in attributes {
        add_if_of_type(handles, kind, attr)?;
    }
    Ok(())
}

fn add_if_of_type(handles: &mut Vec<u16>, kind: u128, attr: &Attr) -> Result<(), AllocError>
    ensures ok { OnOk result
        (handles.new.items ≡ handles.old.items ++ handle_of_type kind attr.now) }
{
    if is_used(attr.role) && attr.kind == kind {
        handles.push(attr.handle)?;
    }
    Ok(())
}

/// Returns true if each partner gave a right.
fn had(
    others: &Table,
    partners: &[u16],
    key: Option<KeyFacts>,
    is_authorized: bool,
    right: Right,
) -> bool
    ensures { result ≡ had others.now.attributes partners.now key is_authorized right }
{
    match partners {
        [] => false,
        _ => all_gave(others, partners, key, is_authorized, right),
    }
}

fn all_gave(
    others: &Table,
    partners: &[u16],
    key: Option<KeyFacts>,
    is_authorized: bool,
    right: Right,
) -> bool
    ensures { result
        ≡ list_all (gave others.now.attributes key is_authorized right) partners.now }
{
    partners.iter().all(|handle| may_with(others, key, is_authorized, *handle, right))
}

fn held_of(others: &Table, partners: &[u16], key: Option<KeyFacts>) -> Held
    ensures { result ≡ held_of others.now.attributes partners.now key }
{
    Held {
        key,
        always: rights_before(others, partners, key, false),
        authorized: rights_before(others, partners, key, true),
    }
}

fn rights_before(
    others: &Table,
    partners: &[u16],
    key: Option<KeyFacts>,
    is_authorized: bool,
) -> Rights
    ensures { result
        ≡ rights_where (had others.now.attributes partners.now key is_authorized) }
{
    Rights {
        read: had(others, partners, key, is_authorized, Right::Read),
        write: had(others, partners, key, is_authorized, Right::Write),
        command: had(others, partners, key, is_authorized, Right::Command),
        notify: had(others, partners, key, is_authorized, Right::Notify),
        indicate: had(others, partners, key, is_authorized, Right::Indicate),
        subscribe: had(others, partners, key, is_authorized, Right::Subscribe),
    }
}

fn add_before(
    held: &mut Vec<Held>,
    others: &Table,
    partners: &[u16],
    kinds: &[Option<KeyFacts>],
) -> Result<(), AllocError>
    ensures ok { OnOk result (held.new.items
        ≡ held.old.items ++ flat_map (one_held others.now.attributes partners.now) kinds.now) }
{
    for key in kinds {
        add_one_held(held, others, partners, *key)?;
    }
    Ok(())
}

fn add_one_held(
    held: &mut Vec<Held>,
    others: &Table,
    partners: &[u16],
    key: Option<KeyFacts>,
) -> Result<(), AllocError>
    ensures ok { OnOk result
        (held.new.items ≡ held.old.items ++ one_held others.now.attributes partners.now key) }
{
    held.push(held_of(others, partners, key))?;
    Ok(())
}

/// Replaces what links had by what they had to the attributes that correspond to one.
fn replace_before(
    alloc: Global,
    held: &mut Vec<Held>,
    others: &Table,
    kinds: &[Option<KeyFacts>],
    pair: &Pair,
) -> Result<(), AllocError>
    ensures ok { OnOk result (held.new.items
        ≡ before_of others.now.attributes kinds.now pair.now.there pair.now.attr.kind) }
{
    let partners = partners_by(alloc, others, pair.there, pair.attr.kind)?;
    held.clear();
    add_before(held, others, &partners, kinds)
}

/// Has what links had to the attributes that correspond to one, and returns the type if it holds
/// for all uncertain ones of this type.
///
/// It is not computed again for the next uncertain attribute of the same type.
pub(crate) fn renew(
    alloc: Global,
    held: &mut Vec<Held>,
    held_for: Option<u128>,
    others: &Table,
    kinds: &[Option<KeyFacts>],
    pair: &Pair,
) -> Result<Option<u128>, AllocError>
    ensures before { IsHeldFor others.now.attributes kinds.now held_for held.old.items
        → OnOk result (held.new.items
        ≡ before_of others.now.attributes kinds.now pair.now.there pair.now.attr.kind) }
    ensures next { IsHeldFor others.now.attributes kinds.now held_for held.old.items
        → IfOk result (λ now. IsHeldFor others.now.attributes kinds.now now held.new.items) }
{
    if is_held_for(held_for, pair) {
        return Ok(held_for);
    }
    replace_before(alloc, held, others, kinds, pair)?;
    Ok(loose_type(pair))
}

fn is_held_for(held_for: Option<u128>, pair: &Pair) -> bool
    ensures { result ≡ is_held_for held_for pair.now }
{
    match held_for {
        Some(kind) => pair.there.is_none() && kind == pair.attr.kind,
        None => false,
    }
}

/// Returns the type of an uncertain attribute.
fn loose_type(pair: &Pair) -> Option<u128>
    ensures { result ≡ loose_type pair.now }
{
    match pair.there {
        Some(_) => None,
        None => Some(pair.attr.kind),
    }
}

pub(crate) fn has(rights: Rights, right: Right) -> bool
    ensures { result ≡ has rights right }
{
    match right {
        Right::Read => rights.read,
        Right::Write => rights.write,
        Right::Command => rights.command,
        Right::Notify => rights.notify,
        Right::Indicate => rights.indicate,
        Right::Subscribe => rights.subscribe,
    }
}

pub(crate) fn rights_of(held: &Held, is_authorized: bool) -> Rights
    ensures { result ≡ rights_of held.now is_authorized }
{
    if is_authorized {
        held.authorized
    } else {
        held.always
    }
}
