//! The rights and the keys that are gained, a line each.

ghost use Rattle.std.specs.Prelude.{◌≡◌, ◌++◌, IfOk, OnOk, [], slice_get};
ghost use Rattle.std.specs.List.{flat_map};
ghost use Rattle.std.specs.Option.{option_map_or};
ghost use Rattle.policy_words.specs.compare.Gains.{gains_of};
ghost use Rattle.policy_words.specs.compare.Lines.{after_space, gain_line, gain_lines, gain_text, gaining_key_line, letter_text, letters_text, pair_lines, whose_text};

use crate::cell::cell_of;
use crate::columns::Column;
use crate::compare::before::{Held, renew};
use crate::compare::gaining::{Gain, gains_by_key, gains_of, has_gain, is_first, kinds_like};
use crate::compare::pairing::Pair;
use crate::kinds::add_kinds;
use crate::legend::{add_key, add_peer_words};
use crate::type_text::add_handle_and_type;
use att_policy::KeyFacts;
use att_table::{Attr, Table};
use le_hci::Peer;
use le_security::Keys;
use policy_rights::has_column;
use std::alloc::{AllocError, Global};
use text_words::add_octets;

/// Adds kinds of keys in words and the names of their columns, and ends the line.
#[tactic(auto, unfolding(crate::specs::compare::Lines::whose_text))]
pub(crate) fn add_whose(
    alloc: Global,
    text: &mut Vec<u8>,
    columns: &[Column],
    kinds: &[Option<KeyFacts>],
) -> Result<(), AllocError>
    ensures ok { OnOk result
        (text.new.items ≡ text.old.items ++ whose_text columns.now kinds.now) }
{
    add_octets(text, b"  ")?;
    add_kinds(text, kinds)?;
    add_letters(alloc, text, columns, kinds)?;
    add_octets(text, b"\n")
}

fn add_letters(
    alloc: Global,
    text: &mut Vec<u8>,
    columns: &[Column],
    kinds: &[Option<KeyFacts>],
) -> Result<(), AllocError>
    ensures ok { OnOk result
        (text.new.items ≡ text.old.items ++ letters_text columns.now kinds.now) }
{
    let mut letters = Vec::new(alloc);
    add_each_letter(&mut letters, kinds, columns)?;
    add_after_space(text, &letters)
}

fn add_after_space(text: &mut Vec<u8>, octets: &[u8]) -> Result<(), AllocError>
    ensures ok { OnOk result (text.new.items ≡ text.old.items ++ after_space octets.now) }
{
    match octets {
        [] => Ok(()),
        _ => {
            add_octets(text, b" ")?;
            add_octets(text, octets)
        }
    }
}

fn add_each_letter(
    text: &mut Vec<u8>,
    kinds: &[Option<KeyFacts>],
    columns: &[Column],
) -> Result<(), AllocError>
    ensures ok { OnOk result (text.new.items
        ≡ text.old.items ++ flat_map (letter_text kinds.now) columns.now) }
{
    for column in columns {
        add_letter(text, kinds, column)?;
    }
    Ok(())
}

fn add_letter(
    text: &mut Vec<u8>,
    kinds: &[Option<KeyFacts>],
    column: &Column,
) -> Result<(), AllocError>
    ensures ok { OnOk result
        (text.new.items ≡ text.old.items ++ letter_text kinds.now column.now) }
{
    if has_column(kinds, column.key) {
        add_octets(text, &[b' ', column.name])
    } else {
        Ok(())
    }
}

/// Adds the lines of the rights that links gain to these attributes.
pub(crate) fn add_pair_lines(
    alloc: Global,
    text: &mut Vec<u8>,
    table: &Table,
    others: &Table,
    kinds: &[Option<KeyFacts>],
    columns: &[Column],
    pairs: &[Pair],
) -> Result<(), AllocError>
    ensures ok { OnOk result (text.new.items ≡ text.old.items ++ flat_map (pair_lines
        table.now.attributes others.now.attributes kinds.now columns.now) pairs.now) }
{
    let mut before = Vec::new(alloc);
    let mut held_for = None;
    for pair in pairs {
        held_for = renew(alloc, &mut before, held_for, others, kinds, pair)?;
        add_lines_of_pair(alloc, text, table, columns, pair, &before)?;
    }
    Ok(())
}

fn add_lines_of_pair(
    alloc: Global,
    text: &mut Vec<u8>,
    table: &Table,
    columns: &[Column],
    pair: &Pair,
    before: &[Held],
) -> Result<(), AllocError>
    ensures ok { OnOk result (text.new.items ≡ text.old.items ++ gain_lines pair.now.attr
        columns.now (gains_of table.now.attributes pair.now.attr.handle before.now)) }
{
    let gains = gains_of(alloc, table, pair.attr.handle, before)?;
    add_gain_lines(alloc, text, &pair.attr, columns, &gains)
}

fn add_gain_lines(
    alloc: Global,
    text: &mut Vec<u8>,
    attr: &Attr,
    columns: &[Column],
    gains: &[Gain],
) -> Result<(), AllocError>
    ensures ok { OnOk result
        (text.new.items ≡ text.old.items ++ gain_lines attr.now columns.now gains.now) }
{
    for gain in gains {
        add_gain_line(alloc, text, attr, columns, gains, gain)?;
    }
    Ok(())
}

fn add_gain_line(
    alloc: Global,
    text: &mut Vec<u8>,
    attr: &Attr,
    columns: &[Column],
    gains: &[Gain],
    gain: &Gain,
) -> Result<(), AllocError>
    ensures ok { OnOk result
        (text.new.items ≡ text.old.items ++ gain_line attr.now columns.now gains.now gain.now) }
{
    if has_gain(gain) && is_first(gains, gain) {
        add_gain(alloc, text, attr, columns, gains, gain)
    } else {
        Ok(())
    }
}

#[tactic(auto, unfolding(crate::specs::compare::Lines::gain_text))]
fn add_gain(
    alloc: Global,
    text: &mut Vec<u8>,
    attr: &Attr,
    columns: &[Column],
    gains: &[Gain],
    gain: &Gain,
) -> Result<(), AllocError>
    ensures ok { OnOk result
        (text.new.items ≡ text.old.items ++ gain_text attr.now columns.now gains.now gain.now) }
{
    let kinds = kinds_like(alloc, gain, gains)?;
    let cell = cell_of(alloc, gain.always, gain.once)?;
    add_handle_and_type(text, attr.handle, attr.kind)?;
    add_octets(text, b"  ")?;
    add_octets(text, &cell)?;
    add_whose(alloc, text, columns, &kinds)
}

/// Adds a line for each key by which a peer gains rights that it has not with the keys of the other
/// file.
pub(crate) fn add_gaining_keys(
    alloc: Global,
    text: &mut Vec<u8>,
    others: &Keys,
    table: &Table,
    keys: &Keys,
) -> Result<(), AllocError>
    ensures ok { OnOk result (text.new.items ≡ text.old.items
        ++ flat_map (gaining_key_line others.now table.now.attributes) keys.now) }
{
    for at in 0..keys.count() {
        add_gaining_key(alloc, text, others, table, keys, at)?;
    }
    Ok(())
}

#[tactic(auto, unfolding(crate::specs::compare::Lines::gaining_key_line))]
fn add_gaining_key(
    alloc: Global,
    text: &mut Vec<u8>,
    others: &Keys,
    table: &Table,
    keys: &Keys,
    at: usize,
) -> Result<(), AllocError>
    ensures ok { OnOk result (text.new.items ≡ text.old.items
        ++ option_map_or (gaining_key_line others.now table.now.attributes)
        (slice_get keys.now at) []) }
{
    let Some(peer) = keys.peer(at) else {
        return Ok(());
    };
    if !gains_by_key(alloc, others, table, keys, at)? {
        return Ok(());
    }
    add_octets(text, b"       ")?;
    add_peer_words(text, peer)?;
    add_octets(text, b": ")?;
    add_key(text, keys.facts(at))?;
    add_octets(text, b"\n")
}
