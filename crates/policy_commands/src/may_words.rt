//! The words of `may`: a peer, a right and a handle.

ghost use Rattle.std.specs.Prelude.{◌≡◌, drop, if◌then◌else◌, is_some};
ghost use Rattle.policy_commands.specs.MayWords.{address_in, kind_in, known_peer, named_peer, only_peer, peer_named, right_of};

use le_hci::{PUBLIC_ADDRESS, Peer, RANDOM_ADDRESS};
use le_security::{Keys, read_address};
use policy_rights::Right;

/// Why a word is refused.
#[derive(Clone, Copy, PartialEq, Eq)]
pub enum Wrong {
    Right,
    Handle,
    /// It is no address.
    Peer,
    /// No key of the file is the peer's.
    NoKey,
    /// A public and a random peer with this address have keys.
    TwoPeers,
}

impl Wrong {
    /// Returns a sentence about the word.
    pub fn words(self) -> &'static str {
        match self {
            Wrong::Right =>
                "RIGHT: it is none of read, write, command, notify, indicate and subscribe",
            Wrong::Handle => "HANDLE: it is no number from 0 to 65535",
            Wrong::Peer => "PEER: it is neither `stranger` nor an address as c0:00:00:00:00:01",
            Wrong::NoKey => "PEER: KEYS has no key of this peer; ask for `stranger`",
            Wrong::TwoPeers => {
                "PEER: KEYS has a public and a random peer; write `public ` or `random ` before it"
            }
        }
    }
}

/// Reads a right by its word: that of its property in a table file, or `subscribe`.
pub(crate) fn read_right(word: &str) -> Option<Right>
    ensures { result ≡ right_of word.now }
{
    match word {
        "read" => Some(Right::Read),
        "write" => Some(Right::Write),
        "command" => Some(Right::Command),
        "notify" => Some(Right::Notify),
        "indicate" => Some(Right::Indicate),
        "subscribe" => Some(Right::Subscribe),
        _ => None,
    }
}

/// Reads a peer that has a key, or a stranger.
pub(crate) fn read_peer(keys: &Keys, word: &str) -> Result<Option<Peer>, Wrong>
    ensures { result ≡ peer_named keys.now word.now }
{
    if word == "stranger" {
        return Ok(None);
    }
    match named_peer(keys, word.as_bytes()) {
        Ok(peer) => Ok(Some(peer)),
        Err(wrong) => Err(wrong),
    }
}

fn named_peer(keys: &Keys, word: &[u8]) -> Result<Peer, Wrong>
    ensures { result ≡ named_peer keys.now word.now }
{
    let kind = kind_in(word);
    let Some(address) = read_address(address_in(word, kind)) else {
        return Err(Wrong::Peer);
    };
    match kind {
        Some(kind) => known_peer(keys, Peer { kind, address }),
        None => only_peer(keys, address),
    }
}

/// Returns the address type that a word begins with, if it does.
fn kind_in(word: &[u8]) -> Option<u8>
    ensures { result ≡ kind_in word.now }
{
    let front = word.split_at(word.len().min(7)).0;
    if front == b"public ".as_slice() {
        Some(PUBLIC_ADDRESS)
    } else if front == b"random ".as_slice() {
        Some(RANDOM_ADDRESS)
    } else {
        None
    }
}

/// Returns the word after the address type.
fn address_in(word: &[u8], kind: Option<u8>) -> &[u8]
    ensures { result.now ≡ address_in word.now kind }
{
    match kind {
        Some(_) => word.split_at(word.len().min(7)).1,
        None => word,
    }
}

fn known_peer(keys: &Keys, peer: Peer) -> Result<Peer, Wrong>
    ensures { result ≡ known_peer keys.now peer }
{
    if keys.known(&peer) {
        Ok(peer)
    } else {
        Err(Wrong::NoKey)
    }
}

/// Returns the peer with an address, whose type the keys have.
fn only_peer(keys: &Keys, address: [u8; 6]) -> Result<Peer, Wrong>
    ensures { result ≡ only_peer keys.now address }
{
    let random = Peer {
        kind: RANDOM_ADDRESS,
        address,
    };
    let public = Peer {
        kind: PUBLIC_ADDRESS,
        address,
    };
    if !keys.known(&random) {
        return known_peer(keys, public);
    }
    if keys.known(&public) {
        return Err(Wrong::TwoPeers);
    }
    Ok(random)
}
