//! The rights that a table gives and another one does not.

ghost use Rattle.std.specs.Prelude.{◌≡◌, ◌++◌, IfOk, OnOk, [], false, slice_get};
ghost use Rattle.std.specs.List.{find, flat_map, list_all, list_any};
ghost use Rattle.std.specs.Option.{option_copied, option_map_or};
ghost use Rattle.policy_words.specs.compare.Gains.{exceeds, exceeds_all, exceeds_at, exceeds_by, gain_of, gained_always, gained_once, gains_by_key, gains_of, has_any_right, has_gain, is_first, is_gained, is_gained_once, kind_if_same, kind_of_peer, kinds_like, kinds_of_peer, one_gain, opens_at, permits, same_gain, same_rights};

use crate::cell::Rights;
use crate::compare::before::{Held, has, renew, rights_of};
use crate::compare::pairing::Pair;
use att_policy::KeyFacts;
use att_table::{Attr, Table};
use le_hci::Peer;
use le_security::Keys;
use policy_rights::{Right, all_attributes, is_same_column, is_used, may_with};
use std::alloc::{AllocError, Global};

/// The rights that links with a kind of key gain.
#[derive(Clone, Copy)]
pub(crate) struct Gain {
    pub key: Option<KeyFacts>,
    /// Without an authorization.
    pub always: Rights,
    /// Only with an authorization.
    pub once: Rights,
}

fn is_gained(table: &Table, handle: u16, held: &Held, is_authorized: bool, right: Right) -> bool
    ensures { result
        ≡ is_gained table.now.attributes handle held.now is_authorized right }
{
    may_with(table, held.key, is_authorized, handle, right)
        && !has(rights_of(held, is_authorized), right)
}

fn is_gained_once(table: &Table, handle: u16, held: &Held, right: Right) -> bool
    ensures { result ≡ is_gained_once table.now.attributes handle held.now right }
{
    is_gained(table, handle, held, true, right) && !is_gained(table, handle, held, false, right)
}

fn gained_always(table: &Table, handle: u16, held: &Held) -> Rights
    ensures { result ≡ gained_always table.now.attributes handle held.now }
{
    Rights {
        read: is_gained(table, handle, held, false, Right::Read),
        write: is_gained(table, handle, held, false, Right::Write),
        command: is_gained(table, handle, held, false, Right::Command),
        notify: is_gained(table, handle, held, false, Right::Notify),
        indicate: is_gained(table, handle, held, false, Right::Indicate),
        subscribe: is_gained(table, handle, held, false, Right::Subscribe),
    }
}

fn gained_once(table: &Table, handle: u16, held: &Held) -> Rights
    ensures { result ≡ gained_once table.now.attributes handle held.now }
{
    Rights {
        read: is_gained_once(table, handle, held, Right::Read),
        write: is_gained_once(table, handle, held, Right::Write),
        command: is_gained_once(table, handle, held, Right::Command),
        notify: is_gained_once(table, handle, held, Right::Notify),
        indicate: is_gained_once(table, handle, held, Right::Indicate),
        subscribe: is_gained_once(table, handle, held, Right::Subscribe),
    }
}

fn gain_of(table: &Table, handle: u16, held: &Held) -> Gain
    ensures { result ≡ gain_of table.now.attributes handle held.now }
{
    Gain {
        key: held.key,
        always: gained_always(table, handle, held),
        once: gained_once(table, handle, held),
    }
}

/// Returns what is gained to an attribute with each kind of key, by what links had before.
pub(crate) fn gains_of(
    alloc: Global,
    table: &Table,
    handle: u16,
    before: &[Held],
) -> Result<Vec<Gain>, AllocError>
    ensures { IfOk result
        (λ gains. gains.items ≡ gains_of table.now.attributes handle before.now) }
{
    let mut gains = Vec::new(alloc);
    add_gains(&mut gains, table, handle, before)?;
    Ok(gains)
}

fn add_gains(
    gains: &mut Vec<Gain>,
    table: &Table,
    handle: u16,
    before: &[Held],
) -> Result<(), AllocError>
    ensures ok { OnOk result (gains.new.items
        ≡ gains.old.items ++ flat_map (one_gain table.now.attributes handle) before.now) }
{
    for held in before {
        add_one_gain(gains, table, handle, held)?;
    }
    Ok(())
}

fn add_one_gain(
    gains: &mut Vec<Gain>,
    table: &Table,
    handle: u16,
    held: &Held,
) -> Result<(), AllocError>
    ensures ok { OnOk result (gains.new.items
        ≡ gains.old.items ++ one_gain table.now.attributes handle held.now) }
{
    gains.push(gain_of(table, handle, held))?;
    Ok(())
}

fn has_any_right(rights: Rights) -> bool
    ensures { result ≡ has_any_right rights }
{
    rights.read
        || rights.write
        || rights.command
        || rights.notify
        || rights.indicate
        || rights.subscribe
}

pub(crate) fn has_gain(gain: &Gain) -> bool
    ensures { result ≡ has_gain gain.now }
{
    has_any_right(gain.always) || has_any_right(gain.once)
}

fn same_rights(one: Rights, other: Rights) -> bool
    ensures { result ≡ same_rights one other }
{
    one.read == other.read
        && one.write == other.write
        && one.command == other.command
        && one.notify == other.notify
        && one.indicate == other.indicate
        && one.subscribe == other.subscribe
}

fn same_gain(one: &Gain, other: &Gain) -> bool
    ensures { result ≡ same_gain one.now other.now }
{
    same_rights(one.always, other.always) && same_rights(one.once, other.once)
}

/// Returns true if no kind before this one has the same gains.
pub(crate) fn is_first(gains: &[Gain], gain: &Gain) -> bool
    ensures { result ≡ is_first gains.now gain.now }
{
    match first_like(gains, gain) {
        Some(first) => is_same_column(first.key, gain.key),
        None => false,
    }
}

fn first_like<'a>(gains: &'a [Gain], gain: &Gain) -> Option<&'a Gain>
    ensures { option_copied result ≡ find (same_gain gain.now) gains.now }
{
    gains.iter().find(|other| same_gain(gain, other))
}

/// Returns the kinds of keys with the same gains.
pub(crate) fn kinds_like(
    alloc: Global,
    gain: &Gain,
    gains: &[Gain],
) -> Result<Vec<Option<KeyFacts>>, AllocError>
    ensures { IfOk result (λ kinds. kinds.items ≡ kinds_like gain.now gains.now) }
{
    let mut kinds = Vec::new(alloc);
    add_kinds_like(&mut kinds, gain, gains)?;
    Ok(kinds)
}

fn add_kinds_like(
    kinds: &mut Vec<Option<KeyFacts>>,
    gain: &Gain,
    gains: &[Gain],
) -> Result<(), AllocError>
    ensures ok { OnOk result
        (kinds.new.items ≡ kinds.old.items ++ flat_map (kind_if_same gain.now) gains.now) }
{
    for other in gains {
        add_if_same(kinds, gain, other)?;
    }
    Ok(())
}

fn add_if_same(
    kinds: &mut Vec<Option<KeyFacts>>,
    gain: &Gain,
    other: &Gain,
) -> Result<(), AllocError>
    ensures ok { OnOk result
        (kinds.new.items ≡ kinds.old.items ++ kind_if_same gain.now other.now) }
{
    if same_gain(gain, other) {
        kinds.push(other.key)?;
    }
    Ok(())
}

/// Returns true if a link gains a right to one of these attributes.
pub(crate) fn gains_rights(
    alloc: Global,
    table: &Table,
    others: &Table,
    kinds: &[Option<KeyFacts>],
    pairs: &[Pair],
) -> Result<bool, AllocError>
    ensures { IfOk result (λ gains. gains
        ≡ list_any (opens_at table.now.attributes others.now.attributes kinds.now) pairs.now) }
{
    let mut before = Vec::new(alloc);
    let mut held_for = None;
    for pair in pairs {
        held_for = renew(alloc, &mut before, held_for, others, kinds, pair)?;
        let is_open = has_gains(alloc, table, pair.attr.handle, &before)?;
        if is_open {
            return Ok(true);
        }
    }
    Ok(false)
}

fn has_gains(alloc: Global, table: &Table, handle: u16, before: &[Held]) -> Result<bool, AllocError>
    ensures { IfOk result (λ gains. gains
        ≡ list_any has_gain (gains_of table.now.attributes handle before.now)) }
{
    let gains = gains_of(alloc, table, handle, before)?;
    Ok(gains.iter().any(has_gain))
}

/// Returns the kinds of a peer's links.
fn kinds_of_peer(
    alloc: Global,
    keys: &Keys,
    peer: &Peer,
) -> Result<Vec<Option<KeyFacts>>, AllocError>
    ensures { IfOk result (λ kinds. kinds.items ≡ kinds_of_peer keys.now peer.now) }
{
    let mut kinds = Vec::new(alloc);
    kinds.push(None)?;
    add_kinds_of_peer(&mut kinds, keys, peer)?;
    Ok(kinds)
}

fn add_kinds_of_peer(
    kinds: &mut Vec<Option<KeyFacts>>,
    keys: &Keys,
    peer: &Peer,
) -> Result<(), AllocError>
    ensures ok { OnOk result
        (kinds.new.items ≡ kinds.old.items ++ flat_map (kind_of_peer peer.now) keys.now) }
{
    for at in 0..keys.count() {
        add_kind_of_peer(kinds, keys, at, peer)?;
    }
    Ok(())
}

fn add_kind_of_peer(
    kinds: &mut Vec<Option<KeyFacts>>,
    keys: &Keys,
    at: usize,
    peer: &Peer,
) -> Result<(), AllocError>
    ensures ok { OnOk result (kinds.new.items ≡ kinds.old.items
        ++ option_map_or (kind_of_peer peer.now) (slice_get keys.now at) []) }
{
    let Some(owner) = keys.peer(at) else {
        return Ok(());
    };
    if *owner == *peer {
        kinds.push(keys.facts(at))?;
    }
    Ok(())
}

/// Returns true if a key permits a use that none of these kinds permits.
fn exceeds_all(table: &Table, kinds: &[Option<KeyFacts>], key: Option<KeyFacts>) -> bool
    ensures { result ≡ exceeds_all table.now.attributes kinds.now key }
{
    all_attributes(table)
        .iter()
        .any(|attr| exceeds_at(table, kinds, key, attr))
}

fn exceeds_at(table: &Table, kinds: &[Option<KeyFacts>], key: Option<KeyFacts>, attr: &Attr) -> bool
    ensures { result ≡ exceeds_at table.now.attributes kinds.now key attr.now }
{
    is_used(attr.role)
        && (exceeds_by(table, kinds, key, attr.handle, false)
            || exceeds_by(table, kinds, key, attr.handle, true))
}

fn exceeds_by(
    table: &Table,
    kinds: &[Option<KeyFacts>],
    key: Option<KeyFacts>,
    handle: u16,
    is_authorized: bool,
) -> bool
    ensures { result ≡ exceeds_by table.now.attributes kinds.now key handle is_authorized }
{
    exceeds(table, kinds, key, handle, is_authorized, Right::Read)
        || exceeds(table, kinds, key, handle, is_authorized, Right::Write)
        || exceeds(table, kinds, key, handle, is_authorized, Right::Command)
        || exceeds(table, kinds, key, handle, is_authorized, Right::Notify)
        || exceeds(table, kinds, key, handle, is_authorized, Right::Indicate)
        || exceeds(table, kinds, key, handle, is_authorized, Right::Subscribe)
}

fn exceeds(
    table: &Table,
    kinds: &[Option<KeyFacts>],
    key: Option<KeyFacts>,
    handle: u16,
    is_authorized: bool,
    right: Right,
) -> bool
    ensures { result ≡ exceeds table.now.attributes kinds.now key handle is_authorized right }
{
    may_with(table, key, is_authorized, handle, right)
        && !any_permits(table, kinds, handle, is_authorized, right)
}

fn any_permits(
    table: &Table,
    kinds: &[Option<KeyFacts>],
    handle: u16,
    is_authorized: bool,
    right: Right,
) -> bool
    ensures { result
        ≡ list_any (permits table.now.attributes handle is_authorized right) kinds.now }
{
    kinds.iter().any(|kind| may_with(table, *kind, is_authorized, handle, right))
}

/// Returns true if a key file gives a peer rights that it has not with the keys of the other one.
pub(crate) fn gains_keys(
    alloc: Global,
    others: &Keys,
    table: &Table,
    keys: &Keys,
) -> Result<bool, AllocError>
    ensures { IfOk result (λ gains. gains
        ≡ list_any (gains_by_key others.now table.now.attributes) keys.now) }
{
    for at in 0..keys.count() {
        let gains = gains_by_key(alloc, others, table, keys, at)?;
        if gains {
            return Ok(true);
        }
    }
    Ok(false)
}

/// Returns true if the key at an index permits its peer a use that no link of it was permitted by
/// the keys of the other file.
pub(crate) fn gains_by_key(
    alloc: Global,
    others: &Keys,
    table: &Table,
    keys: &Keys,
    at: usize,
) -> Result<bool, AllocError>
    ensures { IfOk result (λ gains. gains
        ≡ option_map_or (gains_by_key others.now table.now.attributes)
        (slice_get keys.now at) false) }
{
    let Some(peer) = keys.peer(at) else {
        return Ok(false);
    };
    let kinds = kinds_of_peer(alloc, others, peer)?;
    Ok(exceeds_all(table, &kinds, keys.facts(at)))
}
