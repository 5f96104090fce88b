//! The effect of encryption events on a link's key.

use att_policy::KeyFacts;
use le_security::{Key, Link, LinkChange};
use std::process::Abort;

const FACTS: KeyFacts = KeyFacts {
    size: 16,
    authenticated: false,
    secure: false,
};

const WEAKER_FACTS: KeyFacts = KeyFacts { size: 7, ..FACTS };

const KEY: Key = Key {
    ltk: [0x00; 16],
    facts: FACTS,
};

const WEAKER: Key = Key {
    ltk: [0x00; 16],
    facts: WEAKER_FACTS,
};

#[derive(Clone, Copy)]
enum Event {
    Request(Option<&'static Key>),
    Encryption(u8, u8),
    Refresh(u8),
}

/// An event, its change, and the link's key after it.
type Step = (Event, Option<LinkChange>, Option<KeyFacts>);

const NO_KEY: &[Step] = &[
    (Event::Request(None), None, None),
    (Event::Encryption(0x00, 0x01), Some(LinkChange::Same), None),
];

const LOST: &[Step] = &[
    (Event::Request(Some(&KEY)), None, None),
    (
        Event::Encryption(0x00, 0x01),
        Some(LinkChange::Raised),
        Some(FACTS),
    ),
    (Event::Encryption(0x06, 0x01), Some(LinkChange::Lost), None),
    (Event::Encryption(0x00, 0x00), Some(LinkChange::Same), None),
];

const REFRESHED: &[Step] = &[
    (Event::Request(Some(&KEY)), None, None),
    (
        Event::Encryption(0x00, 0x02),
        Some(LinkChange::Raised),
        Some(FACTS),
    ),
    (Event::Request(Some(&WEAKER)), None, Some(FACTS)),
    (
        Event::Refresh(0x00),
        Some(LinkChange::Raised),
        Some(WEAKER_FACTS),
    ),
    (Event::Refresh(0x3D), Some(LinkChange::Lost), None),
];

#[test]
fn asked_for_a_key_that_is_not_there(rt: HostRuntime) {
    check_trace(&rt, NO_KEY);
}

#[test]
fn encrypted_and_lost(rt: HostRuntime) {
    check_trace(&rt, LOST);
}

#[test]
fn refreshed(rt: HostRuntime) {
    check_trace(&rt, REFRESHED);
}

fn check_trace(rt: &impl Abort, trace: &[Step]) {
    let mut link = Link::new();
    assert!(rt; link.facts().is_none());
    for &step in trace {
        check_step(rt, &mut link, step);
    }
}

fn check_step(rt: &impl Abort, link: &mut Link, step: Step) {
    let (event, change, key) = step;
    assert!(rt; happen(link, event) == change);
    assert!(rt; link.facts() == key);
}

fn happen(link: &mut Link, event: Event) -> Option<LinkChange> {
    match event {
        Event::Request(answer) => {
            link.request(answer);
            None
        }
        Event::Encryption(status, enabled) => Some(link.encryption(status, enabled)),
        Event::Refresh(status) => Some(link.refresh(status)),
    }
}
