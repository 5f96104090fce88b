//! The permitted uses of an attribute and their needs, in words.

ghost use Rattle.std.specs.Prelude.{◌≡◌, ◌++◌, codes, if◌then◌else◌, IfOk, OnOk};
ghost use Rattle.att_policy.specs.Need.{needs_authentication_of};
ghost use Rattle.std.specs.Str.{bytes_eq};
ghost use Rattle.policy_rights.specs.Needs.{is_written};
ghost use Rattle.policy_words.specs.Uses.{asked_size_words, both_texts, reading_text, heard_words, key_words, need_words, uses_text, size_words, writing_text, written_words};

use crate::legend::add_if;
use att_policy::{Guard, Need, Properties};
use bitflags::Flags;
use policy_rights::{is_heard, is_written};
use std::alloc::{AllocError, Global};
use text_words::{add_number, add_octets};

/// Adds the permitted uses of a guarded attribute and their needs.
#[tactic(auto, unfolding(crate::specs::Uses::uses_text))]
pub(crate) fn add_uses(alloc: Global, text: &mut Vec<u8>, guard: &Guard) -> Result<(), AllocError>
    ensures ok { OnOk result (text.new.items ≡ text.old.items ++ uses_text guard.now) }
{
    if !is_heard(guard.properties) {
        add_unheard(text, guard)
    } else if is_written(guard.properties) {
        add_both(alloc, text, guard)
    } else {
        add_heard(text, guard)
    }
}

fn add_unheard(text: &mut Vec<u8>, guard: &Guard) -> Result<(), AllocError>
    ensures ok { OnOk result (text.new.items ≡ text.old.items
        ++ (if is_written guard.now.properties then writing_text guard.now else codes " nothing")) }
{
    if is_written(guard.properties) {
        add_written(text, guard)
    } else {
        add_octets(text, b" nothing")
    }
}

fn add_both(alloc: Global, text: &mut Vec<u8>, guard: &Guard) -> Result<(), AllocError>
    ensures ok { OnOk result (text.new.items ≡ text.old.items ++ both_texts guard.now) }
{
    if have_same_need(alloc, guard)? {
        add_heard_words(text, guard.properties)?;
    } else {
        add_heard(text, guard)?;
        add_octets(text, b";")?;
    }
    add_written(text, guard)
}

fn have_same_need(alloc: Global, guard: &Guard) -> Result<bool, AllocError>
    ensures ok { IfOk result
        (λ is_same. is_same ≡ bytes_eq (need_words guard.now.read) (need_words guard.now.write)) }
{
    let read = need_words(alloc, &guard.read)?;
    let write = need_words(alloc, &guard.write)?;
    Ok(read.as_slice() == write.as_slice())
}

fn add_heard(text: &mut Vec<u8>, guard: &Guard) -> Result<(), AllocError>
    ensures ok { OnOk result (text.new.items ≡ text.old.items ++ reading_text guard.now) }
{
    add_heard_words(text, guard.properties)?;
    add_need(text, &guard.read)
}

fn add_written(text: &mut Vec<u8>, guard: &Guard) -> Result<(), AllocError>
    ensures ok { OnOk result (text.new.items ≡ text.old.items ++ writing_text guard.now) }
{
    add_written_words(text, guard.properties)?;
    add_need(text, &guard.write)
}

/// Adds the properties by which a client receives a value. On `Err` memory was refused.
#[tactic(auto, unfolding(crate::specs::Uses::heard_words))]
pub(crate) fn add_heard_words(text: &mut Vec<u8>, properties: Properties) -> Result<(), AllocError>
    ensures ok { OnOk result (text.new.items ≡ text.old.items ++ heard_words properties) }
{
    add_if(text, properties.contains(Properties::READ), b" read")?;
    add_if(text, properties.contains(Properties::NOTIFY), b" notify")?;
    add_if(
        text,
        properties.contains(Properties::INDICATE),
        b" indicate",
    )
}

/// Adds the properties by which a client writes a value. On `Err` memory was refused.
#[tactic(auto, unfolding(crate::specs::Uses::written_words))]
pub(crate) fn add_written_words(
    text: &mut Vec<u8>,
    properties: Properties,
) -> Result<(), AllocError>
    ensures ok { OnOk result (text.new.items ≡ text.old.items ++ written_words properties) }
{
    add_if(text, properties.contains(Properties::WRITE), b" write")?;
    let is_command = properties.contains(Properties::WRITE_WITHOUT_RESPONSE);
    add_if(text, is_command, b" command")
}

fn need_words(alloc: Global, need: &Need) -> Result<Vec<u8>, AllocError>
    ensures ok { IfOk result (λ words. words.items ≡ need_words need.now) }
{
    let mut words = Vec::new(alloc);
    add_need(&mut words, need)?;
    Ok(words)
}

/// Adds what a need asks of a link, after a space; nothing if it asks nothing.
///
/// On `Err` memory was refused.
#[tactic(auto, unfolding(crate::specs::Uses::need_words))]
pub(crate) fn add_need(text: &mut Vec<u8>, need: &Need) -> Result<(), AllocError>
    ensures ok { OnOk result (text.new.items ≡ text.old.items ++ need_words need.now) }
{
    if need.needs_encryption() {
        add_key(text, need)?;
        if need.authorized {
            return add_octets(text, b", authorized");
        }
    } else if need.authorized {
        return add_octets(text, b" if authorized");
    }
    Ok(())
}

fn add_key(text: &mut Vec<u8>, need: &Need) -> Result<(), AllocError>
    ensures ok { OnOk result (text.new.items ≡ text.old.items ++ key_words need.now) }
{
    if need.secure {
        return add_octets(text, b" if secure connections");
    }
    add_octets(text, protection(need).as_bytes())?;
    add_asked_size(text, need.key_size)
}

fn protection(need: &Need) -> &'static str
    ensures { result.now ≡ (if needs_authentication_of need.now
        then codes " if authenticated" else codes " if encrypted") }
{
    if need.needs_authentication() {
        " if authenticated"
    } else {
        " if encrypted"
    }
}

fn add_asked_size(text: &mut Vec<u8>, size: Option<u8>) -> Result<(), AllocError>
    ensures ok { OnOk result (text.new.items ≡ text.old.items ++ asked_size_words size) }
{
    match size {
        Some(size) => add_size(text, size),
        None => Ok(()),
    }
}

/// Adds the size of a key in octets.
fn add_size(text: &mut Vec<u8>, size: u8) -> Result<(), AllocError>
    ensures ok { OnOk result (text.new.items ≡ text.old.items ++ size_words size) }
{
    add_octets(text, b", key of ")?;
    add_number(text, u64::from(size))
}
