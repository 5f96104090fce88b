//! The strengths of keys, for which a table permits one or the other.

ghost use Rattle.std.specs.Prelude.{◌≡◌, IfOk, OnOk, false, slice_get};
ghost use Rattle.std.specs.List.{list_any};
ghost use Rattle.std.specs.Option.{option_map_or};
ghost use Rattle.le_security.specs.Entry.{same_peer};
ghost use Rattle.policy_rights.specs.Columns.{columns_among, has_key, is_key_of, peers_of_kind, same_column, same_facts, with_column, with_columns, with_new_peer, with_peer_of};

use att_policy::KeyFacts;
use le_hci::Peer;
use le_security::Keys;
use std::alloc::{AllocError, Global};

/// Returns what may protect a link: nothing, and each kind of key in a key file, in its order.
///
/// Keys with the same facts have the same rights, and one column.
pub fn columns_of(alloc: Global, keys: &Keys) -> Result<Vec<Option<KeyFacts>>, AllocError>
    ensures { IfOk result (λ columns. columns.items ≡ columns_among keys.now) }
{
    let mut columns = Vec::new(alloc);
    columns.push(None)?;
    add_columns(&mut columns, keys)?;
    Ok(columns)
}

/// Adds the kinds of keys of another key file. On `Err` memory was refused and the columns are
/// invalid.
pub fn add_columns(columns: &mut Vec<Option<KeyFacts>>, keys: &Keys) -> Result<(), AllocError>
    ensures ok { OnOk result (columns.new.items ≡ with_columns columns.old.items keys.now) }
{
    for at in 0..keys.count() {
        add_column(columns, keys.facts(at))?;
    }
    Ok(())
}

fn add_column(columns: &mut Vec<Option<KeyFacts>>, key: Option<KeyFacts>) -> Result<(), AllocError>
    ensures ok { OnOk result (columns.new.items ≡ with_column columns.old.items key) }
{
    if has_column(columns, key) {
        return Ok(());
    }
    columns.push(key)?;
    Ok(())
}

/// Returns true if a kind of key, or no key, is among others.
pub fn has_column(columns: &[Option<KeyFacts>], key: Option<KeyFacts>) -> bool
    ensures { result ≡ list_any (same_column key) columns.now }
{
    columns.iter().any(|column| is_same_column(key, *column))
}

/// Returns true if two columns are the same kind of key, or both no key.
pub fn is_same_column(one: Option<KeyFacts>, other: Option<KeyFacts>) -> bool
    ensures { result ≡ same_column one other }
{
    match (one, other) {
        (None, None) => true,
        (Some(one), Some(other)) => is_same(one, other),
        _ => false,
    }
}

/// Returns true if two keys have the same facts.
pub(crate) fn is_same(one: KeyFacts, other: KeyFacts) -> bool
    ensures { result ≡ same_facts one other }
{
    one.size == other.size && one.authenticated == other.authenticated && one.secure == other.secure
}

/// Returns true if a peer has a key of the kind of a column.
pub fn has_key(keys: &Keys, peer: &Peer, column: Option<KeyFacts>) -> bool
    ensures { result ≡ has_key keys.now peer.now column }
{
    for at in 0..keys.count() {
        if is_key_of(keys, at, peer, column) {
            return true;
        }
    }
    false
}

/// Returns true if the key at an index is of a peer and of the kind of a column.
fn is_key_of(keys: &Keys, at: usize, peer: &Peer, column: Option<KeyFacts>) -> bool
    ensures { result ≡ option_map_or (is_key_of peer.now column) (slice_get keys.now at) false }
{
    match keys.peer(at) {
        Some(owner) => *owner == *peer && is_same_column(keys.facts(at), column),
        None => false,
    }
}

/// Returns the peers with a key of the kind of a column, each once.
///
/// On `Err` memory was refused.
pub fn peers_of_kind(
    alloc: Global,
    keys: &Keys,
    column: Option<KeyFacts>,
) -> Result<Vec<Peer>, AllocError>
    ensures { IfOk result (λ peers. peers.items ≡ peers_of_kind keys.now column) }
{
    let mut peers = Vec::new(alloc);
    for at in 0..keys.count() {
        add_peer_of(&mut peers, keys, at, column)?;
    }
    Ok(peers)
}

fn add_peer_of(
    peers: &mut Vec<Peer>,
    keys: &Keys,
    at: usize,
    column: Option<KeyFacts>,
) -> Result<(), AllocError>
    ensures ok { OnOk result (peers.new.items
        ≡ option_map_or (with_peer_of column peers.old.items) (slice_get keys.now at)
        peers.old.items) }
{
    let Some(peer) = keys.peer(at) else {
        return Ok(());
    };
    if !is_same_column(keys.facts(at), column) {
        return Ok(());
    }
    add_peer(peers, peer)
}

fn add_peer(peers: &mut Vec<Peer>, peer: &Peer) -> Result<(), AllocError>
    ensures ok { OnOk result (peers.new.items ≡ with_new_peer peers.old.items peer.now) }
{
    if has_peer(peers, peer) {
        return Ok(());
    }
    peers.push(*peer)?;
    Ok(())
}

fn has_peer(peers: &[Peer], peer: &Peer) -> bool
    ensures { result ≡ list_any (same_peer peer.now) peers.now }
{
    peers.iter().any(|other| *peer == *other)
}
