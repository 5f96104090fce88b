//! The keys for requests, with their octets.

use att_policy::KeyFacts;
use le_hci::{PUBLIC_ADDRESS, Peer, RANDOM_ADDRESS};
use le_security::examples::{KEYS, SECURE_KEY};
use le_security::{Key, Keys};
use std::alloc::Global;
use std::process::Abort;

const PHONE: Peer = Peer {
    kind: RANDOM_ADDRESS,
    address: [0x01, 0x00, 0x00, 0x00, 0x00, 0xc0],
};

const PUBLIC_PHONE: Peer = Peer {
    kind: PUBLIC_ADDRESS,
    ..PHONE
};

const TABLET: Peer = Peer {
    kind: PUBLIC_ADDRESS,
    address: [0x55, 0x44, 0x33, 0x22, 0x11, 0x00],
};

const WATCH: Peer = Peer {
    kind: RANDOM_ADDRESS,
    address: [0x02, 0x00, 0x00, 0x00, 0x00, 0xc0],
};

/// A peer, a random number and a diversifier.
type Request = (Peer, [u8; 8], u16);

/// Requests and answers for the door's keys and the secure key.
const ANSWERS: &[(Request, Option<Key>)] = &[
    (
        (PHONE, [0x01; 8], 257),
        Some(Key {
            ltk: *b"\x00\x11\x22\x33\x44\x55\x66\x77\x88\x99\xaa\xbb\xcc\xdd\xee\xff",
            facts: KeyFacts {
                size: 16,
                authenticated: false,
                secure: false,
            },
        }),
    ),
    ((PHONE, [0x02; 8], 257), None),
    ((PHONE, [0x01; 8], 258), None),
    ((PUBLIC_PHONE, [0x01; 8], 257), None),
    ((TABLET, [0x01; 8], 257), None),
    (
        (TABLET, [0x03; 8], 771),
        Some(Key {
            ltk: *b"\xa1\xa2\xa3\xa4\xa5\xa6\xa7\x00\x00\x00\x00\x00\x00\x00\x00\x00",
            facts: KeyFacts {
                size: 7,
                authenticated: true,
                secure: false,
            },
        }),
    ),
    (
        (WATCH, [0x00; 8], 0),
        Some(Key {
            ltk: *b"\x0f\x0e\x0d\x0c\x0b\x0a\x09\x08\x07\x06\x05\x04\x03\x02\x01\x00",
            facts: KeyFacts {
                size: 16,
                authenticated: true,
                secure: true,
            },
        }),
    ),
];

#[test]
fn answers(rt: HostRuntime) {
    let keys = read_all_keys(&rt, rt.alloc());
    check_each_answer(&rt, &keys, ANSWERS);
    drop(keys);
}

fn read_all_keys(rt: &impl Abort, alloc: Global) -> Keys {
    let text = KEYS.replacen(alloc, "", SECURE_KEY, 1).expect(rt, "memory");
    let keys = Keys::read(alloc, &text).expect(rt, "the keys");
    drop(text);
    keys
}

fn check_each_answer(rt: &impl Abort, keys: &Keys, cases: &[(Request, Option<Key>)]) {
    assert!(rt; keys.count() == 4);
    for (request, key) in cases {
        assert!(rt; is_answer(keys, request, key.as_ref()));
    }
}

fn is_answer(keys: &Keys, request: &Request, key: Option<&Key>) -> bool {
    let (peer, random_number, diversifier) = request;
    keys.answer(peer, *random_number, *diversifier) == key
}

#[test]
fn peers(rt: HostRuntime) {
    let keys = Keys::read(rt.alloc(), KEYS).expect(&rt, "the keys");
    let are_known = has_peers(&keys) && knows_peers(&keys);
    drop(keys);
    assert!(rt; are_known);
}

fn has_peers(keys: &Keys) -> bool {
    keys.count() == 3 && are_peers(keys, &[PHONE, TABLET, TABLET]) && keys.peer(3).is_none()
}

fn are_peers(keys: &Keys, peers: &[Peer]) -> bool {
    for (place, peer) in peers.iter().enumerate() {
        if keys.peer(place) != Some(peer) {
            return false;
        }
    }
    true
}

fn knows_peers(keys: &Keys) -> bool {
    keys.known(&PHONE) && keys.known(&TABLET) && !keys.known(&WATCH) && !keys.known(&PUBLIC_PHONE)
}
