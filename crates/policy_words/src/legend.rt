//! The keys behind the columns of the matrix.

ghost use Rattle.std.specs.Prelude.{◌≡◌, ◌++◌, OnOk};
ghost use Rattle.std.specs.List.{flat_map};
ghost use Rattle.policy_words.specs.Legend.{address_type_word, also_text, flags_text, has_key_in, is_kind_of_peer, key_text, kind_lines, legend_text, peer_line, peer_words, signs_text, strength_text, words_if};

use crate::columns::Column;
use att_policy::KeyFacts;
use gatt_subs::address_text;
use le_hci::{PUBLIC_ADDRESS, Peer};
use le_security::Keys;
use policy_rights::{has_key, peers_of_kind};
use std::alloc::{AllocError, Global};
use text_words::{add_number, add_octets};

const SIGNS: &[u8] = b"r read  w write  c write without response  s subscribe
n be notified  i be indicated (if it has subscribed, whenever that was)
( ) only while the application authorizes the connection  . nothing

";

/// Adds the meaning of the letters, and the keys of each column.
///
/// `kinds` are all kinds of keys, each with the name of its column. On `Err` memory was refused and
/// the text is invalid.
#[tactic(auto, unfolding(crate::specs::Legend::legend_text))]
pub(crate) fn add_legend(
    alloc: Global,
    text: &mut Vec<u8>,
    keys: &Keys,
    columns: &[Column],
    kinds: &[Column],
) -> Result<(), AllocError>
    ensures ok { OnOk result (text.new.items
        ≡ text.old.items ++ legend_text keys.now columns.now kinds.now) }
{
    add_octets(text, SIGNS)?;
    add_all_kinds(alloc, text, keys, columns, kinds)
}

fn add_all_kinds(
    alloc: Global,
    text: &mut Vec<u8>,
    keys: &Keys,
    columns: &[Column],
    kinds: &[Column],
) -> Result<(), AllocError>
    ensures ok { OnOk result (text.new.items
        ≡ text.old.items ++ flat_map (kind_lines keys.now columns.now kinds.now) kinds.now) }
{
    for kind in kinds {
        add_kind_lines(alloc, text, keys, columns, kinds, kind)?;
    }
    Ok(())
}

#[tactic(auto, unfolding(crate::specs::Legend::kind_lines))]
fn add_kind_lines(
    alloc: Global,
    text: &mut Vec<u8>,
    keys: &Keys,
    columns: &[Column],
    kinds: &[Column],
    kind: &Column,
) -> Result<(), AllocError>
    ensures ok { OnOk result (text.new.items
        ≡ text.old.items ++ kind_lines keys.now columns.now kinds.now kind.now) }
{
    add_octets(text, &[kind.name])?;
    add_octets(text, b"  ")?;
    add_key(text, kind.key)?;
    add_octets(text, b"\n")?;
    let peers = peers_of_kind(alloc, keys, kind.key)?;
    add_peers(text, keys, columns, kinds, kind.name, &peers)
}

/// Adds what protects a link: the facts of its key, or none. On `Err` memory was refused.
pub fn add_key(text: &mut Vec<u8>, key: Option<KeyFacts>) -> Result<(), AllocError>
    ensures ok { OnOk result (text.new.items ≡ text.old.items ++ key_text key) }
{
    match key {
        Some(key) => add_strength(text, key),
        None => add_octets(
            text,
            b"no key: everybody, and each peer until its link is encrypted",
        ),
    }
}

/// Adds the facts of a key.
#[tactic(auto, unfolding(crate::specs::Legend::strength_text))]
pub(crate) fn add_strength(text: &mut Vec<u8>, key: KeyFacts) -> Result<(), AllocError>
    ensures ok { OnOk result (text.new.items ≡ text.old.items ++ strength_text key) }
{
    add_octets(text, b"key of ")?;
    add_number(text, u64::from(key.size))?;
    add_flags(text, key)
}

#[tactic(auto, unfolding(crate::specs::Legend::flags_text))]
pub(crate) fn add_flags(text: &mut Vec<u8>, key: KeyFacts) -> Result<(), AllocError>
    ensures ok { OnOk result (text.new.items ≡ text.old.items ++ flags_text key) }
{
    add_if(text, key.authenticated, b", authenticated")?;
    add_if(text, key.secure, b", secure connections")
}

/// Adds words if a condition holds. Errors: as `add_key`.
pub fn add_if(text: &mut Vec<u8>, holds: bool, words: &[u8]) -> Result<(), AllocError>
    ensures ok { OnOk result (text.new.items ≡ text.old.items ++ words_if holds words.now) }
{
    if holds {
        add_octets(text, words)
    } else {
        Ok(())
    }
}

fn add_peers(
    text: &mut Vec<u8>,
    keys: &Keys,
    columns: &[Column],
    kinds: &[Column],
    name: u8,
    peers: &[Peer],
) -> Result<(), AllocError>
    ensures ok { OnOk result (text.new.items ≡ text.old.items
        ++ flat_map (peer_line keys.now columns.now kinds.now name) peers.now) }
{
    for peer in peers {
        add_peer(text, keys, columns, kinds, name, peer)?;
    }
    Ok(())
}

#[tactic(auto, unfolding(crate::specs::Legend::peer_line))]
fn add_peer(
    text: &mut Vec<u8>,
    keys: &Keys,
    columns: &[Column],
    kinds: &[Column],
    name: u8,
    peer: &Peer,
) -> Result<(), AllocError>
    ensures ok { OnOk result (text.new.items
        ≡ text.old.items ++ peer_line keys.now columns.now kinds.now name peer.now) }
{
    add_octets(text, b"     ")?;
    add_peer_words(text, peer)?;
    add_others(text, keys, columns, kinds, name, peer)?;
    add_octets(text, b"\n")
}

/// Adds the address of a peer with its type. Errors: as `add_key`.
pub fn add_peer_words(text: &mut Vec<u8>, peer: &Peer) -> Result<(), AllocError>
    ensures ok { OnOk result (text.new.items ≡ text.old.items ++ peer_words peer.now) }
{
    add_octets(text, address_type_word(peer.kind).as_bytes())?;
    add_octets(text, &address_text(peer.address))
}

fn address_type_word(kind: u8) -> &'static str
    ensures { result.now ≡ address_type_word kind }
{
    if kind == PUBLIC_ADDRESS {
        "public "
    } else {
        "random "
    }
}

fn add_others(
    text: &mut Vec<u8>,
    keys: &Keys,
    columns: &[Column],
    kinds: &[Column],
    name: u8,
    peer: &Peer,
) -> Result<(), AllocError>
    ensures ok { OnOk result (text.new.items
        ≡ text.old.items ++ flat_map (also_text keys.now kinds.now peer.now name) columns.now) }
{
    for other in columns {
        add_other(text, keys, kinds, peer, name, other)?;
    }
    Ok(())
}

fn add_other(
    text: &mut Vec<u8>,
    keys: &Keys,
    kinds: &[Column],
    peer: &Peer,
    name: u8,
    other: &Column,
) -> Result<(), AllocError>
    ensures ok { OnOk result (text.new.items
        ≡ text.old.items ++ also_text keys.now kinds.now peer.now name other.now) }
{
    if other.name == name || !has_key_in(keys, kinds, peer, other.name) {
        return Ok(());
    }
    add_octets(text, b" (also ")?;
    add_octets(text, &[other.name])?;
    add_octets(text, b")")
}

/// Returns true if a peer has a key of a kind of the column with a name.
fn has_key_in(keys: &Keys, kinds: &[Column], peer: &Peer, name: u8) -> bool
    ensures { result ≡ has_key_in keys.now kinds.now peer.now name }
{
    kinds
        .iter()
        .any(|kind| is_kind_of_peer(keys, peer, name, kind))
}

fn is_kind_of_peer(keys: &Keys, peer: &Peer, name: u8, kind: &Column) -> bool
    ensures { result ≡ is_kind_of_peer keys.now peer.now name kind.now }
{
    kind.name == name && has_key(keys, peer, kind.key)
}
