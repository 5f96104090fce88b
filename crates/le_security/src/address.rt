//! Device addresses, as texts and as on the wire.

ghost use Rattle.std.specs.Prelude.{◌≡◌};
ghost use Rattle.le_security.specs.Address.{address_octets, address_of, address_type_of, peer_of};

use le_hci::{PUBLIC_ADDRESS, Peer, RANDOM_ADDRESS};

/// Reads an address: six pairs of hexadecimal digits joined by colons.
///
/// The result has the octets in wire order, the reverse of the text's.
pub fn read_address(text: &[u8]) -> Option<[u8; 6]>
    ensures { result ≡ address_of text.now }
{
    let [
        a,
        b,
        b':',
        c,
        d,
        b':',
        e,
        f,
        b':',
        g,
        h,
        b':',
        i,
        j,
        b':',
        k,
        l,
    ] = text
    else {
        return None;
    };
    octets_of([*a, *b, *c, *d, *e, *f, *g, *h, *i, *j, *k, *l])
}

fn octets_of(digits: [u8; 12]) -> Option<[u8; 6]>
    ensures { result ≡ address_octets digits }
{
    let mut octets = [0; 6];
    if hex::decode_to_slice(digits, &mut octets).is_err() {
        return None;
    }
    octets.reverse();
    Some(octets)
}

/// Reads the address type `public` or `random`.
pub fn read_address_type(word: &str) -> Option<u8>
    ensures { result ≡ address_type_of word.now }
{
    match word {
        "public" => Some(PUBLIC_ADDRESS),
        "random" => Some(RANDOM_ADDRESS),
        _ => None,
    }
}

/// Reads a peer from its address type and address.
///
/// The type is 0 for public, 1 for random (Core 5.0, Vol 2 Part E, 7.7.65.1).
#[tactic(auto, unfolding(crate::specs::Address::peer_of))]
pub fn read_peer(kind: &str, address: &str) -> Option<Peer>
    ensures { result ≡ peer_of kind.now address.now }
{
    let kind = match kind {
        "0" => PUBLIC_ADDRESS,
        "1" => RANDOM_ADDRESS,
        _ => return None,
    };
    Some(Peer {
        kind,
        address: read_address(address.as_bytes())?,
    })
}
