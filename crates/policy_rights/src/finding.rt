//! The findings in a table, for its author.

ghost use Rattle.std.specs.Prelude.{◌≡◌, ◌++◌, ◌∷◌, [], IfOk, OnOk};
ghost use Rattle.std.specs.List.{flat_map, list_all, list_any};
ghost use Rattle.std.specs.Option.{option_copied, option_map_or};
ghost use Rattle.policy_rights.specs.Findings.{address_findings, announced_findings, attribute_findings, ends_at_once, findings_of, idle_key, is_private, is_shorter, is_shortest_kind, key_findings, note, private_finding, rule_findings, service_findings, short_key_findings, shortest_key, subscription_findings, has_subscribers, table_findings, unused_findings, used_findings};
ghost use Rattle.policy_rights.specs.Needs.{configuration_need, is_subscription_forgeable, subscription_need};

use crate::columns::is_same;
use crate::held::{
    adds_nothing, all_add_nothing, anybody_may_follow, anybody_may_use, least_short_size, may_write,
};
use crate::needs::{
    asks_less, asks_more, has_idle_read_rule, has_idle_write_rule, has_no_property,
    is_notified_or_indicated, trusts_address, trusts_an_address,
};
use crate::rights::all_attributes;
use att_policy::{KeyFacts, Need};
use att_table::{Attr, Role, Table, is_service};
use le_hci::{Peer, RANDOM_ADDRESS};
use le_security::Keys;
use std::alloc::{AllocError, Global};

/// Something that a table permits, or forbids, perhaps without its author's intent.
///
/// The numbers are handles.
#[derive(Clone, Copy, PartialEq, Eq)]
pub enum Finding {
    /// Everybody may write it.
    OpenWrite(u16),
    /// It asks for authentication to write, but a key of only so many octets may write it.
    ShortKey(u16, u8),
    /// To write it asks for less than to read it.
    EasyWrite(u16),
    /// A rule for reading, but no property that it concerns.
    IdleReadRule(u16),
    /// A rule for writing, but no property that it concerns.
    IdleWriteRule(u16),
    /// An authorization without encryption: an address can be forged.
    ForgedAddress(u16),
    /// It has the property notify or indicate, but no key may both subscribe and be sent it.
    NoSubscriber(u16),
    /// To subscribe it asks for something that being sent the value does not need.
    LastingSubscription(u16),
    /// To subscribe it asks for less than to be sent the value.
    EasySubscription(u16),
    /// No property: nobody may use it.
    NoProperty(u16),
    /// No key may use it.
    Unused(u16),
    /// A service without characteristics and includes.
    EmptyService(u16),
    /// A value that may be subscribed to, but no Service Changed value.
    NoServiceChanged,
    /// These keys permit no more than no key.
    IdleKey(KeyFacts),
    /// No key permits more than no key.
    NoKeyMatters,
    /// Keys of fewer octets than every other kind of key.
    ShortestKey(KeyFacts),
    /// A key for a private address, which its peer changes.
    PrivateAddress(Peer),
}

/// Returns the findings of each attribute in order of handles, then those of the table and of the
/// keys.
///
/// `columns` are those of `columns_of`.
pub fn findings(
    alloc: Global,
    table: &Table,
    keys: &Keys,
    columns: &[Option<KeyFacts>],
) -> Result<Vec<Finding>, AllocError>
    // Each finding is reported exactly if its definition holds.
    ensures { IfOk result
        (λ findings. findings.items ≡ findings_of table.now keys.now columns.now) }
{
    let mut findings = Vec::new(alloc);
    add_all(&mut findings, table, columns, all_attributes(table))?;
    add_of_table(&mut findings, table)?;
    add_of_keys(&mut findings, table, columns)?;
    add_shortest_keys(&mut findings, columns)?;
    add_of_addresses(&mut findings, keys)?;
    Ok(findings)
}

fn add_all(
    findings: &mut Vec<Finding>,
    table: &Table,
    columns: &[Option<KeyFacts>],
    attributes: &[Attr],
) -> Result<(), AllocError>
    ensures ok { OnOk result (findings.new.items ≡ findings.old.items
        ++ flat_map (attribute_findings table.now.attributes columns.now) attributes.now) }
{
    for attr in attributes {
        add_of_attribute(findings, table, columns, attr)?;
    }
    Ok(())
}

fn add_of_attribute(
    findings: &mut Vec<Finding>,
    table: &Table,
    columns: &[Option<KeyFacts>],
    attr: &Attr,
) -> Result<(), AllocError>
    ensures ok { OnOk result (findings.new.items ≡ findings.old.items
        ++ attribute_findings table.now.attributes columns.now attr.now) }
{
    match attr.role {
        Role::Declaration => add_of_service(findings, table, attr),
        Role::Value | Role::Descriptor => add_of_used(findings, table, columns, attr),
        Role::Configuration => Ok(()),
    }
}

fn add_of_service(findings: &mut Vec<Finding>, table: &Table, attr: &Attr) -> Result<(), AllocError>
    ensures ok { OnOk result (findings.new.items ≡ findings.old.items
        ++ service_findings table.now.attributes attr.now) }
{
    let is_empty = is_service(attr.kind) && ends_at_once(table, attr.handle);
    add_if(findings, is_empty, Finding::EmptyService(attr.handle))
}

#[tactic(auto, unfolding(crate::specs::Findings::used_findings))]
fn add_of_used(
    findings: &mut Vec<Finding>,
    table: &Table,
    columns: &[Option<KeyFacts>],
    attr: &Attr,
) -> Result<(), AllocError>
    ensures ok { OnOk result (findings.new.items ≡ findings.old.items
        ++ used_findings table.now.attributes columns.now attr.now) }
{
    let is_open = may_write(table, None, false, attr.handle);
    add_if(findings, is_open, Finding::OpenWrite(attr.handle))?;
    add_short_key(findings, table, columns, attr)?;
    add_of_rules(findings, table, attr)?;
    add_of_announced(findings, table, columns, attr)?;
    add_unused(findings, table, columns, attr)
}

/// Adds a finding if nobody may use an attribute. Without keys, nobody is known who might.
fn add_unused(
    findings: &mut Vec<Finding>,
    table: &Table,
    columns: &[Option<KeyFacts>],
    attr: &Attr,
) -> Result<(), AllocError>
    ensures ok { OnOk result (findings.new.items ≡ findings.old.items
        ++ unused_findings table.now.attributes columns.now attr.now) }
{
    if has_no_property(attr.guard.properties) {
        return add(findings, Finding::NoProperty(attr.handle));
    }
    let is_unused = columns.len() > 1 && !anybody_may_use(table, columns, attr.handle);
    add_if(findings, is_unused, Finding::Unused(attr.handle))
}

fn add_short_key(
    findings: &mut Vec<Finding>,
    table: &Table,
    columns: &[Option<KeyFacts>],
    attr: &Attr,
) -> Result<(), AllocError>
    ensures ok { OnOk result (findings.new.items ≡ findings.old.items
        ++ short_key_findings table.now.attributes columns.now attr.now) }
{
    if !attr.guard.write.needs_authentication() {
        return Ok(());
    }
    match least_short_size(table, columns, attr.handle) {
        Some(size) => add(findings, Finding::ShortKey(attr.handle, size)),
        None => Ok(()),
    }
}

#[tactic(auto, unfolding(crate::specs::Findings::rule_findings))]
fn add_of_rules(findings: &mut Vec<Finding>, table: &Table, attr: &Attr) -> Result<(), AllocError>
    ensures ok { OnOk result (findings.new.items ≡ findings.old.items
        ++ rule_findings table.now.attributes attr.now) }
{
    let guard = &attr.guard;
    add_if(findings, asks_less(guard), Finding::EasyWrite(attr.handle))?;
    add_if(
        findings,
        has_idle_read_rule(guard),
        Finding::IdleReadRule(attr.handle),
    )?;
    add_if(
        findings,
        has_idle_write_rule(guard),
        Finding::IdleWriteRule(attr.handle),
    )?;
    let is_forgeable = trusts_an_address(guard) || is_subscription_forgeable(table, attr.handle);
    add_if(findings, is_forgeable, Finding::ForgedAddress(attr.handle))
}

/// Returns true if a subscription needs an authorization without encryption.
fn is_subscription_forgeable(table: &Table, handle: u16) -> bool
    ensures { result ≡ is_subscription_forgeable table.now.attributes handle }
{
    match subscription_need(table, handle) {
        Some(need) => trusts_address(&need),
        None => false,
    }
}

/// Returns what a subscription to the value at a handle needs.
fn subscription_need(table: &Table, handle: u16) -> Option<Need>
    ensures { result ≡ subscription_need table.now.attributes handle }
{
    match table.get(handle) {
        Some(_) => configuration_need(table, handle + 1),
        None => None,
    }
}

/// Returns what the write of the CCCD at a handle needs.
fn configuration_need(table: &Table, handle: u16) -> Option<Need>
    ensures { result ≡ configuration_need table.now.attributes handle }
{
    match table.get(handle) {
        Some(attr) if attr.role == Role::Configuration => Some(attr.guard.write),
        _ => None,
    }
}

#[tactic(auto, unfolding(crate::specs::Findings::announced_findings))]
fn add_of_announced(
    findings: &mut Vec<Finding>,
    table: &Table,
    columns: &[Option<KeyFacts>],
    attr: &Attr,
) -> Result<(), AllocError>
    ensures ok { OnOk result (findings.new.items ≡ findings.old.items
        ++ announced_findings table.now.attributes columns.now attr.now) }
{
    if !is_notified_or_indicated(attr.guard.properties) {
        return Ok(());
    }
    let has_no_subscriber = columns.len() > 1 && !anybody_may_follow(table, columns, attr.handle);
    add_if(
        findings,
        has_no_subscriber,
        Finding::NoSubscriber(attr.handle),
    )?;
    add_of_subscription(findings, table, attr)
}

/// Adds what differs between the needs of a subscription and those of being sent the value.
fn add_of_subscription(
    findings: &mut Vec<Finding>,
    table: &Table,
    attr: &Attr,
) -> Result<(), AllocError>
    ensures ok { OnOk result (findings.new.items ≡ findings.old.items
        ++ subscription_findings attr.now
        (subscription_need table.now.attributes attr.now.handle)) }
{
    let Some(need) = subscription_need(table, attr.handle) else {
        return Ok(());
    };
    add_if(
        findings,
        asks_more(&need, &attr.guard.read),
        Finding::LastingSubscription(attr.handle),
    )?;
    add_if(
        findings,
        asks_more(&attr.guard.read, &need),
        Finding::EasySubscription(attr.handle),
    )
}

fn add_of_table(findings: &mut Vec<Finding>, table: &Table) -> Result<(), AllocError>
    ensures ok { OnOk result (findings.new.items ≡ findings.old.items ++ table_findings table.now) }
{
    let is_unannounced = table.changer().is_none() && has_announced(table);
    add_if(findings, is_unannounced, Finding::NoServiceChanged)
}

/// Returns true if a value may be subscribed to.
fn has_announced(table: &Table) -> bool
    ensures { result ≡ list_any has_subscribers table.now.attributes }
{
    all_attributes(table).iter().any(has_subscribers)
}

fn has_subscribers(attr: &Attr) -> bool
    ensures { result ≡ has_subscribers attr.now }
{
    attr.role == Role::Value && is_notified_or_indicated(attr.guard.properties)
}

fn add_of_keys(
    findings: &mut Vec<Finding>,
    table: &Table,
    columns: &[Option<KeyFacts>],
) -> Result<(), AllocError>
    ensures ok { OnOk result (findings.new.items ≡ findings.old.items
        ++ key_findings table.now.attributes columns.now) }
{
    if all_add_nothing(table, columns) {
        return add_if(findings, columns.len() > 1, Finding::NoKeyMatters);
    }
    add_idle_keys(findings, table, columns)
}

fn add_idle_keys(
    findings: &mut Vec<Finding>,
    table: &Table,
    columns: &[Option<KeyFacts>],
) -> Result<(), AllocError>
    ensures ok { OnOk result (findings.new.items ≡ findings.old.items
        ++ flat_map (idle_key table.now.attributes) columns.now) }
{
    for key in columns {
        add_idle_key(findings, table, *key)?;
    }
    Ok(())
}

fn add_idle_key(
    findings: &mut Vec<Finding>,
    table: &Table,
    key: Option<KeyFacts>,
) -> Result<(), AllocError>
    ensures ok { OnOk result (findings.new.items ≡ findings.old.items
        ++ idle_key table.now.attributes key) }
{
    match key {
        Some(facts) => {
            let is_idle = adds_nothing(table, key);
            add_if(findings, is_idle, Finding::IdleKey(facts))
        }
        None => Ok(()),
    }
}

fn add_shortest_keys(
    findings: &mut Vec<Finding>,
    columns: &[Option<KeyFacts>],
) -> Result<(), AllocError>
    ensures ok { OnOk result (findings.new.items ≡ findings.old.items
        ++ flat_map (shortest_key columns.now) columns.now) }
{
    for key in columns {
        add_shortest_key(findings, columns, *key)?;
    }
    Ok(())
}

fn add_shortest_key(
    findings: &mut Vec<Finding>,
    columns: &[Option<KeyFacts>],
    key: Option<KeyFacts>,
) -> Result<(), AllocError>
    ensures ok { OnOk result (findings.new.items ≡ findings.old.items
        ++ shortest_key columns.now key) }
{
    match key {
        Some(key) => {
            let is_shortest_kind = is_shortest_kind(columns, key);
            add_if(findings, is_shortest_kind, Finding::ShortestKey(key))
        }
        None => Ok(()),
    }
}

/// Returns true if there are other kinds of keys, and each has more octets.
fn is_shortest_kind(columns: &[Option<KeyFacts>], key: KeyFacts) -> bool
    ensures { result ≡ is_shortest_kind columns.now key }
{
    columns.len() > 2 && has_only_longer(columns, key)
}

fn has_only_longer(columns: &[Option<KeyFacts>], key: KeyFacts) -> bool
    ensures { result ≡ list_all (is_shorter key) columns.now }
{
    columns.iter().all(|other| is_shorter(key, *other))
}

fn is_shorter(key: KeyFacts, other: Option<KeyFacts>) -> bool
    ensures { result ≡ is_shorter key other }
{
    match other {
        Some(other) => is_same(key, other) || key.size < other.size,
        None => true,
    }
}

fn add_of_addresses(findings: &mut Vec<Finding>, keys: &Keys) -> Result<(), AllocError>
    ensures ok { OnOk result (findings.new.items
        ≡ findings.old.items ++ flat_map address_findings keys.now) }
{
    for at in 0..keys.count() {
        add_of_address(findings, keys.peer(at))?;
    }
    Ok(())
}

fn add_of_address(findings: &mut Vec<Finding>, peer: Option<&Peer>) -> Result<(), AllocError>
    ensures ok { OnOk result (findings.new.items
        ≡ findings.old.items ++ option_map_or private_finding (option_copied peer.entry) []) }
{
    match peer {
        Some(peer) => add_if(findings, is_private(peer), Finding::PrivateAddress(*peer)),
        None => Ok(()),
    }
}

/// Returns true if an address is random and not static (Core 5.0, Vol 6 Part B, 1.3.2).
pub fn is_private(peer: &Peer) -> bool
    ensures { result ≡ is_private peer.now }
{
    peer.kind == RANDOM_ADDRESS && peer.address[5] < 0xC0
}

fn add_if(findings: &mut Vec<Finding>, holds: bool, finding: Finding) -> Result<(), AllocError>
    ensures ok { OnOk result (findings.new.items ≡ findings.old.items ++ note holds finding) }
{
    if holds {
        add(findings, finding)
    } else {
        Ok(())
    }
}

fn add(findings: &mut Vec<Finding>, finding: Finding) -> Result<(), AllocError>
    ensures ok { OnOk result (findings.new.items ≡ findings.old.items ++ finding ∷ []) }
{
    findings.push(finding)?;
    Ok(())
}

/// Returns true if the group that an attribute begins has no other attribute.
fn ends_at_once(table: &Table, handle: u16) -> bool
    ensures { result ≡ ends_at_once table.now.attributes handle }
{
    match table.get(handle) {
        Some(_) => table.group_end(handle) == handle,
        None => false,
    }
}
