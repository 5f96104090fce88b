//! The names and the values of attributes, cut to the width of a cell.

ghost use Rattle.std.specs.Prelude.{◌≡◌, ◌++◌, ◌∷◌, [], if◌then◌else◌, IfOk, OnOk};
ghost use Rattle.std.specs.List.{list_all};
ghost use Rattle.policy_words.specs.matrix.Rows.{cut_text, hex_text, is_plain, is_plain_text, middle_cut_text, cut_type_text, quoted_text, short_name, short_value_text};

use crate::type_text::add_type;
use att_table::type_octets;
use std::alloc::{AllocError, Global};
use text_words::{add_hex, add_octets};

/// Returns the text of a type, whole or cut to 28 octets: a UUID of 128 bits in its middle.
pub(crate) fn cut_type(alloc: Global, kind: u128, is_whole: bool) -> Result<Vec<u8>, AllocError>
    ensures { IfOk result (λ name. name.items ≡ cut_type_text is_whole kind) }
{
    let octets = type_octets(kind);
    let mut name = Vec::new(alloc);
    add_type(&mut name, octets.as_slice())?;
    if is_whole {
        return Ok(name);
    }
    let mut cut = Vec::new(alloc);
    add_name(&mut cut, &name, octets.len() == 16)?;
    Ok(cut)
}

fn add_name(text: &mut Vec<u8>, name: &[u8], is_long: bool) -> Result<(), AllocError>
    ensures ok { OnOk result (text.new.items ≡ text.old.items ++ short_name is_long name.now) }
{
    if is_long {
        add_middle_cut(text, name)
    } else {
        add_cut(text, name)
    }
}

fn add_middle_cut(text: &mut Vec<u8>, name: &[u8]) -> Result<(), AllocError>
    ensures ok { OnOk result (text.new.items ≡ text.old.items ++ middle_cut_text name.now) }
{
    if name.len() > 28 {
        add_octets(text, name.split_at(13).0)?;
        add_octets(text, b"..")?;
        add_octets(text, name.split_at(name.len() - 13).1)
    } else {
        add_octets(text, name)
    }
}

fn add_cut(text: &mut Vec<u8>, name: &[u8]) -> Result<(), AllocError>
    ensures ok { OnOk result (text.new.items ≡ text.old.items ++ cut_text name.now) }
{
    if name.len() > 28 {
        add_octets(text, name.split_at(26).0)?;
        add_octets(text, b"..")
    } else {
        add_octets(text, name)
    }
}

/// Returns a value as a text or in hexadecimal, cut after 12 octets.
pub(crate) fn short_value(alloc: Global, value: &[u8]) -> Result<Vec<u8>, AllocError>
    ensures { IfOk result (λ text. text.items ≡ short_value_text value.now) }
{
    let mut text = Vec::new(alloc);
    add_value(&mut text, value)?;
    Ok(text)
}

fn add_value(text: &mut Vec<u8>, value: &[u8]) -> Result<(), AllocError>
    ensures ok { OnOk result (text.new.items ≡ text.old.items ++ short_value_text value.now) }
{
    match value {
        [] => add_octets(text, b"empty"),
        _ => add_shown(text, value),
    }
}

fn add_shown(text: &mut Vec<u8>, value: &[u8]) -> Result<(), AllocError>
    ensures ok { OnOk result (text.new.items ≡ text.old.items
        ++ (if is_plain_text value.now then quoted_text value.now else hex_text value.now)) }
{
    if is_plain_text(value) {
        add_quoted(text, value)
    } else {
        add_short_hex(text, value)
    }
}

/// Returns true if a value is a text: three octets or more, each plain ASCII.
fn is_plain_text(value: &[u8]) -> bool
    ensures { result ≡ is_plain_text value.now }
{
    value.len() > 2 && are_plain(value)
}

fn are_plain(value: &[u8]) -> bool
    ensures { result ≡ list_all is_plain value.now }
{
    value.iter().all(|octet| is_plain(*octet))
}

fn is_plain(octet: u8) -> bool
    ensures { result ≡ is_plain octet }
{
    32 <= octet && octet < 127 && octet != b'"' && octet != b'\\'
}

fn add_quoted(text: &mut Vec<u8>, value: &[u8]) -> Result<(), AllocError>
    ensures ok { OnOk result (text.new.items ≡ text.old.items ++ quoted_text value.now) }
{
    add_octets(text, b"\"")?;
    if value.len() > 10 {
        add_octets(text, &value[..8])?;
        add_octets(text, b"\"..")
    } else {
        add_octets(text, value)?;
        add_octets(text, b"\"")
    }
}

fn add_short_hex(text: &mut Vec<u8>, value: &[u8]) -> Result<(), AllocError>
    ensures ok { OnOk result (text.new.items ≡ text.old.items ++ hex_text value.now) }
{
    if value.len() > 6 {
        add_hex(text, &value[..5])?;
        add_octets(text, b"..")
    } else {
        add_hex(text, value)
    }
}
