//! The links that a peer may have.

ghost use Rattle.std.specs.Prelude.{◌≡◌, ◌++◌, filter, IfOk, OnOk};
ghost use Rattle.policy_rights.specs.Columns.{has_key};
ghost use Rattle.policy_words.specs.may.Links.{has_any_key, keyed_links, links_of, standing_on};

use att_policy::{KeyFacts, Standing};
use le_hci::Peer;
use le_security::Keys;
use policy_rights::{columns_of, has_key, standing_of};
use std::alloc::{AllocError, Global};

/// Returns what may protect a link of a peer, or of a stranger: nothing, and each kind of its keys,
/// or only nothing.
pub(crate) fn links_of(
    alloc: Global,
    keys: &Keys,
    peer: Option<Peer>,
    is_unencrypted: bool,
) -> Result<Vec<Option<KeyFacts>>, AllocError>
    ensures { IfOk result (λ links. links.items ≡ links_of keys.now peer is_unencrypted) }
{
    let mut links = Vec::new(alloc);
    links.push(None)?;
    if !is_unencrypted {
        add_keyed(alloc, &mut links, keys, peer)?;
    }
    Ok(links)
}

fn add_keyed(
    alloc: Global,
    links: &mut Vec<Option<KeyFacts>>,
    keys: &Keys,
    peer: Option<Peer>,
) -> Result<(), AllocError>
    ensures ok { OnOk result (links.new.items ≡ links.old.items ++ keyed_links keys.now peer) }
{
    let Some(peer) = peer else {
        return Ok(());
    };
    let kinds = columns_of(alloc, keys)?;
    add_held(links, keys, &peer, &kinds)
}

/// Adds the kinds of keys that a peer has.
fn add_held(
    links: &mut Vec<Option<KeyFacts>>,
    keys: &Keys,
    peer: &Peer,
    kinds: &[Option<KeyFacts>],
) -> Result<(), AllocError>
    ensures ok { OnOk result (links.new.items
        ≡ links.old.items ++ filter (has_key keys.now peer.now) kinds.now) }
{
    for kind in kinds {
        if has_key(keys, peer, *kind) {
            links.push(*kind)?;
        }
    }
    Ok(())
}

/// Returns true if a peer has a key; a stranger has none.
pub(crate) fn has_any_key(keys: &Keys, peer: Option<Peer>) -> bool
    ensures { result ≡ has_any_key keys.now peer }
{
    match peer {
        Some(peer) => keys.known(&peer),
        None => false,
    }
}

/// Returns the standing of a connection on a link of a peer with a key or without one.
pub(crate) fn standing_on(is_known: bool, is_authorized: bool, link: Option<KeyFacts>) -> Standing
    ensures { result ≡ standing_on is_known is_authorized link }
{
    let mut standing = standing_of(link, is_authorized);
    standing.key_known = is_known;
    standing
}
