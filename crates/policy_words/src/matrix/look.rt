//! The findings of a table in words.

ghost use Rattle.std.specs.Prelude.{◌≡◌, ◌++◌, codes, OnOk};
ghost use Rattle.std.specs.List.{flat_map};
ghost use Rattle.policy_words.specs.matrix.Look.{at_handle, finding_text, finding_words, look_text, private_address_words, short_key_words, short_writer_words};
ghost use Rattle.policy_words.specs.Legend.{strength_text};

use crate::legend::{add_peer_words, add_strength};
use att_policy::KeyFacts;
use le_hci::Peer;
use policy_rights::Finding;
use std::alloc::AllocError;
use text_words::{add_number, add_octets, add_right_number};

/// Adds the findings, a line each.
pub(crate) fn add_look(text: &mut Vec<u8>, findings: &[Finding]) -> Result<(), AllocError>
    ensures ok { OnOk result (text.new.items ≡ text.old.items ++ look_text findings.now) }
{
    match findings {
        [] => add_octets(text, b"Nothing to look at twice.\n"),
        _ => {
            add_octets(text, b"Look twice:\n")?;
            add_findings(text, findings)
        }
    }
}

fn add_findings(text: &mut Vec<u8>, findings: &[Finding]) -> Result<(), AllocError>
    ensures ok { OnOk result (text.new.items
        ≡ text.old.items ++ flat_map finding_text findings.now) }
{
    for finding in findings {
        add_finding(text, *finding)?;
    }
    Ok(())
}

fn add_finding(text: &mut Vec<u8>, finding: Finding) -> Result<(), AllocError>
    ensures ok { OnOk result (text.new.items ≡ text.old.items ++ finding_text finding) }
{
    add_words(text, finding)?;
    add_octets(text, b"\n")
}

fn add_words(text: &mut Vec<u8>, finding: Finding) -> Result<(), AllocError>
    ensures ok { OnOk result (text.new.items ≡ text.old.items ++ finding_words finding) }
{
    match finding {
        Finding::OpenWrite(handle) => {
            add_at(text, handle, b"everybody may write it: `write` has no rule")
        }
        Finding::ShortKey(handle, size) => add_short_key(text, handle, size),
        Finding::EasyWrite(handle) => add_at(
            text,
            handle,
            b"to write it needs less than to read it: compare `write` and `read`",
        ),
        Finding::IdleReadRule(handle) => add_at(
            text,
            handle,
            b"`read` has no effect: there is no property read, notify or indicate",
        ),
        Finding::IdleWriteRule(handle) => add_at(
            text,
            handle,
            b"`write` has no effect: there is no property write or command",
        ),
        Finding::ForgedAddress(handle) => add_at(
            text,
            handle,
            b"`authorized` without `encrypted`: a stranger can use the address of another",
        ),
        Finding::NoSubscriber(handle) => add_at(
            text,
            handle,
            b"nobody with a key of the file may subscribe to it and be sent it",
        ),
        Finding::LastingSubscription(handle) => add_at(
            text,
            handle,
            b"who subscribed once is sent it as long as `read` permits: `config` needs more",
        ),
        Finding::EasySubscription(handle) => add_at(
            text,
            handle,
            b"to subscribe needs less than to be sent it: compare `config` and `read`",
        ),
        Finding::NoProperty(handle) => {
            add_at(text, handle, b"nobody may use it: `properties` is empty")
        }
        Finding::Unused(handle) => add_at(
            text,
            handle,
            b"nobody with a key of the key file may use it",
        ),
        Finding::EmptyService(handle) => {
            add_at(text, handle, b"a service without characteristics")
        }
        Finding::NoServiceChanged => add_octets(
            text,
            b"       no Service Changed (1801, 2a05): after another table clients use old handles",
        ),
        Finding::IdleKey(key) => { add_key_words(text, key, b" permits no more than no key") }
        Finding::NoKeyMatters => {
            add_octets(text, b"       no key makes a difference to this table")
        }
        Finding::ShortestKey(key) => add_key_words(text, key, b" is shorter than all others"),
        Finding::PrivateAddress(peer) => add_private_address(text, &peer),
    }
}

fn add_at(text: &mut Vec<u8>, handle: u16, words: &[u8]) -> Result<(), AllocError>
    ensures ok { OnOk result (text.new.items ≡ text.old.items ++ at_handle handle words.now) }
{
    add_right_number(text, u64::from(handle), 5)?;
    add_octets(text, b"  ")?;
    add_octets(text, words)
}

#[tactic(auto, unfolding(crate::specs::matrix::Look::short_key_words))]
fn add_short_key(text: &mut Vec<u8>, handle: u16, size: u8) -> Result<(), AllocError>
    ensures ok { OnOk result (text.new.items
        ≡ text.old.items ++ short_key_words handle size) }
{
    add_at(text, handle, b"a key of ")?;
    add_size(text, size)
}

fn add_size(text: &mut Vec<u8>, size: u8) -> Result<(), AllocError>
    ensures ok { OnOk result (text.new.items ≡ text.old.items ++ short_writer_words size) }
{
    add_number(text, u64::from(size))?;
    add_octets(
        text,
        b" may write it: `key_size = 16` in `write` would exclude it",
    )
}

fn add_private_address(text: &mut Vec<u8>, peer: &Peer) -> Result<(), AllocError>
    ensures ok { OnOk result (text.new.items ≡ text.old.items ++ private_address_words peer.now) }
{
    add_octets(text, b"       ")?;
    add_peer_words(text, peer)?;
    add_octets(text, b" is a private address, which its client changes")
}

/// Adds words about a kind of key after its facts.
fn add_key_words(text: &mut Vec<u8>, key: KeyFacts, words: &[u8]) -> Result<(), AllocError>
    ensures ok { OnOk result (text.new.items ≡ text.old.items
        ++ (codes "       a " ++ strength_text key ++ words.now)) }
{
    add_octets(text, b"       a ")?;
    add_strength(text, key)?;
    add_octets(text, words)
}
