//! Kinds of keys in words, sizes that follow each other as one.

ghost use Rattle.std.specs.Prelude.{◌≡◌, ◌++◌, codes, OnOk};
ghost use Rattle.policy_words.specs.Kinds.{follows, kinds_text, last_size_words, run_from, run_words};

use crate::legend::add_flags;
use att_policy::KeyFacts;
use std::alloc::AllocError;
use text_words::{add_number, add_octets};

/// Adds kinds of keys in words. They are a part of all kinds, in the order of `every_kind`.
///
/// On `Err` memory was refused and the text is invalid.
pub fn add_kinds(text: &mut Vec<u8>, kinds: &[Option<KeyFacts>]) -> Result<(), AllocError>
    ensures ok { OnOk result (text.new.items ≡ text.old.items ++ kinds_text kinds.now) }
{
    match kinds {
        [] => Ok(()),
        [None, rest @ ..] if rest.len() == 40 => add_octets(text, b"everybody"),
        [Some(_), rest @ ..] if rest.len() == 39 => add_octets(text, b"every key"),
        [first, rest @ ..] => add_runs(text, *first, rest),
    }
}

/// Adds a kind and those after it.
fn add_runs(
    text: &mut Vec<u8>,
    kind: Option<KeyFacts>,
    kinds: &[Option<KeyFacts>],
) -> Result<(), AllocError>
    ensures ok { OnOk result (text.new.items ≡ text.old.items ++ run_from kind kind kinds.now) }
{
    let mut first = kind;
    let mut last = kind;
    for next in kinds {
        if !follows(last, *next) {
            end_run(text, first, last)?;
            first = *next;
        }
        last = *next;
    }
    add_run(text, first, last)
}

/// Returns true if a key has one octet more than another, and the same properties.
fn follows(last: Option<KeyFacts>, kind: Option<KeyFacts>) -> bool
    ensures { result ≡ follows last kind }
{
    match (last, kind) {
        (Some(last), Some(key)) => {
            u16::from(key.size) == u16::from(last.size) + 1
                && key.authenticated == last.authenticated
                && key.secure == last.secure
        }
        _ => false,
    }
}

fn end_run(
    text: &mut Vec<u8>,
    first: Option<KeyFacts>,
    last: Option<KeyFacts>,
) -> Result<(), AllocError>
    ensures ok { OnOk result (text.new.items
        ≡ text.old.items ++ run_words first last ++ codes "; ") }
{
    add_run(text, first, last)?;
    add_octets(text, b"; ")
}

#[tactic(auto, unfolding(crate::specs::Kinds::run_words))]
fn add_run(
    text: &mut Vec<u8>,
    first: Option<KeyFacts>,
    last: Option<KeyFacts>,
) -> Result<(), AllocError>
    ensures ok { OnOk result (text.new.items ≡ text.old.items ++ run_words first last) }
{
    match first {
        None => add_octets(text, b"no key"),
        Some(first) => {
            add_octets(text, b"key of ")?;
            add_number(text, u64::from(first.size))?;
            add_last_size(text, first, last)?;
            add_flags(text, first)
        }
    }
}

fn add_last_size(
    text: &mut Vec<u8>,
    first: KeyFacts,
    last: Option<KeyFacts>,
) -> Result<(), AllocError>
    ensures ok { OnOk result (text.new.items ≡ text.old.items ++ last_size_words first last) }
{
    match last {
        Some(last) if last.size != first.size => {
            add_octets(text, b" to ")?;
            add_number(text, u64::from(last.size))
        }
        _ => Ok(()),
    }
}
