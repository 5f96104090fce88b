//! The answer of `may`: a line for each link of a peer.

ghost use Rattle.std.specs.Prelude.{◌≡◌, ◌++◌, IfOk, OnOk};
ghost use Rattle.std.specs.List.{flat_map, list_any};
ghost use Rattle.policy_words.specs.may.Answer.{answer_text, is_granted, link_line, link_text, verdict_on};
ghost use Rattle.policy_words.specs.may.Verdict.{is_yes};

mod links;
mod reason;
mod verdict;

use crate::legend::add_key;
use crate::may::links::{has_any_key, links_of, standing_on};
use crate::may::reason::add_verdict;
pub(crate) use crate::may::verdict::is_configuration;
pub use crate::may::verdict::{Verdict, verdict_of};
use att_policy::KeyFacts;
use att_table::Table;
use le_hci::Peer;
use le_security::Keys;
use policy_rights::Right;
use std::alloc::{AllocError, Global};
use text_words::add_octets;

/// The question who may use an attribute.
#[derive(Clone, Copy)]
pub struct Question {
    /// The peer, or a stranger.
    pub peer: Option<Peer>,
    pub right: Right,
    pub handle: u16,
    /// Set while the application authorizes the connection.
    pub is_authorized: bool,
    /// Set to ask only for a link that is not encrypted.
    pub is_unencrypted: bool,
}

/// Adds a line for each link that the peer may have, and returns true if one of them has the right.
///
/// On `Err` memory was refused and the text is invalid.
pub fn add_answer(
    alloc: Global,
    text: &mut Vec<u8>,
    table: &Table,
    keys: &Keys,
    question: &Question,
) -> Result<bool, AllocError>
    ensures text { OnOk result (text.new.items ≡ text.old.items
        ++ answer_text table.now.attributes keys.now question.now) }
    // True exactly if one link of the peer has the right.
    ensures granted { IfOk result
        (λ granted. granted ≡ is_granted table.now.attributes keys.now question.now) }
{
    let links = links_of(alloc, keys, question.peer, question.is_unencrypted)?;
    let is_known = has_any_key(keys, question.peer);
    add_lines(text, table, question, is_known, &links)?;
    Ok(has_any(table, question, is_known, &links))
}

fn add_lines(
    text: &mut Vec<u8>,
    table: &Table,
    question: &Question,
    is_known: bool,
    links: &[Option<KeyFacts>],
) -> Result<(), AllocError>
    ensures ok { OnOk result (text.new.items ≡ text.old.items
        ++ flat_map (link_line table.now.attributes question.now is_known) links.now) }
{
    for link in links {
        add_line(text, table, question, is_known, *link)?;
    }
    Ok(())
}

#[tactic(auto, unfolding(crate::specs::may::Answer::link_line))]
fn add_line(
    text: &mut Vec<u8>,
    table: &Table,
    question: &Question,
    is_known: bool,
    link: Option<KeyFacts>,
) -> Result<(), AllocError>
    ensures ok { OnOk result (text.new.items
        ≡ text.old.items ++ link_line table.now.attributes question.now is_known link) }
{
    add_link(text, link)?;
    add_octets(text, b"  ")?;
    let verdict = verdict_on(table, question, is_known, link);
    add_verdict(text, table, question.handle, question.right, verdict)?;
    add_octets(text, b"\n")
}

fn add_link(text: &mut Vec<u8>, link: Option<KeyFacts>) -> Result<(), AllocError>
    ensures ok { OnOk result (text.new.items ≡ text.old.items ++ link_text link) }
{
    match link {
        Some(_) => add_key(text, link),
        None => add_octets(text, b"not encrypted"),
    }
}

fn verdict_on(table: &Table, question: &Question, is_known: bool, link: Option<KeyFacts>) -> Verdict
    ensures { result ≡ verdict_on table.now.attributes question.now is_known link }
{
    let standing = standing_on(is_known, question.is_authorized, link);
    verdict_of(table, &standing, question.handle, question.right)
}

fn has_any(table: &Table, question: &Question, is_known: bool, links: &[Option<KeyFacts>]) -> bool
    ensures { result ≡ list_any
        (λ link. is_yes (verdict_on table.now.attributes question.now is_known link)) links.now }
{
    links
        .iter()
        .any(|link| is_granted_on(table, question, is_known, *link))
}

fn is_granted_on(table: &Table, question: &Question, is_known: bool, link: Option<KeyFacts>) -> bool
    ensures { result ≡ is_yes (verdict_on table.now.attributes question.now is_known link) }
{
    verdict_on(table, question, is_known, link).is_yes()
}
