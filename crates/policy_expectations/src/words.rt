//! The words of a difference: the attribute, the right, the verdict, and what is meant.

ghost use Rattle.std.specs.Prelude.{◌≡◌, ◌++◌, OnOk};
ghost use Rattle.policy_expectations.specs.Words.{meant_text, need_parts, parts_text, right_word, size_part, verdict_words};

use att_policy::Need;
use policy_rights::Right;
use policy_words::add_if;
use std::alloc::{AllocError, Global};
use text_words::{add_number, add_octets};

/// Adds the word of a right.
pub(crate) fn add_right(text: &mut Vec<u8>, right: Right) -> Result<(), AllocError>
    ensures ok { OnOk result (text.new.items ≡ text.old.items ++ right_word right) }
{
    add_octets(text, right_word(right).as_bytes())
}

fn right_word(right: Right) -> &'static str
    ensures { result.now ≡ right_word right }
{
    match right {
        Right::Read => " read: ",
        Right::Write => " write: ",
        Right::Command => " command: ",
        Right::Notify => " notify: ",
        Right::Indicate => " indicate: ",
        Right::Subscribe => " subscribe: ",
    }
}

/// Adds how a table differs from what is meant.
pub(crate) fn add_verdict(text: &mut Vec<u8>, is_permitted: bool) -> Result<(), AllocError>
    ensures ok { OnOk result (text.new.items ≡ text.old.items ++ verdict_words is_permitted) }
{
    add_octets(text, verdict_words(is_permitted).as_bytes())
}

fn verdict_words(is_permitted: bool) -> &'static str
    ensures { result.now ≡ verdict_words is_permitted }
{
    if is_permitted {
        " may, but should not: "
    } else {
        " should, but may not: "
    }
}

/// Adds who is meant to have a right, by the keys of the file.
pub(crate) fn add_meant(
    alloc: Global,
    text: &mut Vec<u8>,
    meant: Option<Need>,
) -> Result<(), AllocError>
    ensures ok { OnOk result (text.new.items ≡ text.old.items ++ meant_text meant) }
{
    match meant {
        Some(need) => add_need(alloc, text, need),
        None => add_octets(text, b"nobody"),
    }
}

fn add_need(alloc: Global, text: &mut Vec<u8>, need: Need) -> Result<(), AllocError>
    ensures ok { OnOk result (text.new.items ≡ text.old.items ++ parts_text (need_parts need)) }
{
    let mut parts = Vec::new(alloc);
    add_parts(&mut parts, need)?;
    add_listed(text, &parts)
}

fn add_parts(text: &mut Vec<u8>, need: Need) -> Result<(), AllocError>
    ensures ok { OnOk result (text.new.items ≡ text.old.items ++ need_parts need) }
{
    add_if(text, need.encrypted, b", encrypted")?;
    add_if(text, need.authenticated, b", authenticated")?;
    add_size(text, need.key_size)?;
    add_if(text, need.secure, b", secure")?;
    add_if(text, need.authorized, b", authorized")
}

/// Adds parts without the comma before the first; without parts, that everybody is meant.
fn add_listed(text: &mut Vec<u8>, parts: &[u8]) -> Result<(), AllocError>
    ensures ok { OnOk result (text.new.items ≡ text.old.items ++ parts_text parts.now) }
{
    match parts {
        [_, _, listed @ ..] => add_octets(text, listed),
        _ => add_octets(text, b"everybody"),
    }
}

fn add_size(text: &mut Vec<u8>, size: Option<u8>) -> Result<(), AllocError>
    ensures ok { OnOk result (text.new.items ≡ text.old.items ++ size_part size) }
{
    match size {
        Some(size) => {
            add_octets(text, b", key_size = ")?;
            add_number(text, u64::from(size))
        }
        None => Ok(()),
    }
}
