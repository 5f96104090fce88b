//! The rights that a new table and key file open and close, as `compare` prints them.

ghost use Rattle.std.specs.Prelude.{◌≡◌, ◌++◌, [], All, codes, false, IfOk, OnOk};
ghost use Rattle.att_table.specs.Changer.{changer_of};
ghost use Rattle.policy_words.specs.compare.Compared.{alone_lines, closed_lines, closed_text, columns_of_both, comparison_text, dropped_lines, gains_lines, kinds_of_both, legend_if_any, legend_of, lines_of_changes, lines_under, moved_lines, moves_text, opened_lines, opened_text, places_text, reached_text, section, still_sent_lines, without_last};
ghost use Rattle.policy_words.specs.compare.Gains.{opens};
ghost use Rattle.policy_words.specs.compare.Laws.{PermitsNoMore};
ghost use Rattle.policy_words.specs.compare.Pairing.{pairs_of};

mod before;
mod changed;
mod gaining;
mod lines;
mod moves;
mod pairing;

use crate::columns::{Column, named_columns};
use crate::compare::changed::lines_of_changes;
use crate::compare::gaining::{gains_keys, gains_rights};
use crate::compare::lines::{add_gaining_keys, add_pair_lines};
use crate::compare::moves::{alone_lines, dropped_lines, moved_lines, still_sent_lines};
use crate::compare::pairing::{Pair, pairs_of};
use crate::legend::add_legend;
use att_policy::KeyFacts;
use att_table::Table;
use le_security::Keys;
use policy_rights::{add_columns, all_attributes, columns_of, every_kind};
use std::alloc::{AllocError, Global};
use text_words::add_octets;

/// Returns true if a table and a key file give a right that the others do not.
///
/// A table gives a right if a link with some kind of key, or without one, has it to an attribute,
/// and may have lacked it before. It surely had it if the attribute that corresponds gave it. If
/// this one is uncertain, all attributes of the type must have given it. A peer gains rights by a
/// key that permits a use that no link of it was permitted. On `Err` memory was refused.
pub fn opens(
    alloc: Global,
    table: &Table,
    keys: &Keys,
    other: &Table,
    other_keys: &Keys,
) -> Result<bool, AllocError>
    // True exactly if a right is opened: to an attribute, for a link with no key or any kind of
    // key, authorized or not; or by a key of a peer.
    ensures exact { IfOk result (λ is_open. is_open
        ≡ opens table.now keys.now other.now other_keys.now) }
    // If nothing is opened, each connection that may use a value or a descriptor might use so
    // before what corresponds to it.
    ensures no_more { IfOk result (λ is_open. is_open ≡ false
        → All (PermitsNoMore table.now.attributes other.now.attributes)
        (pairs_of table.now other.now)) }
{
    any_opened(alloc, table, keys, other, other_keys)
}

fn any_opened(
    alloc: Global,
    table: &Table,
    keys: &Keys,
    other: &Table,
    other_keys: &Keys,
) -> Result<bool, AllocError>
    ensures { IfOk result (λ is_open. is_open
        ≡ opens table.now keys.now other.now other_keys.now) }
{
    let kinds = every_kind(alloc)?;
    let pairs = pairs_of(alloc, table, other)?;
    if gains_rights(alloc, table, other, &kinds, &pairs)? {
        return Ok(true);
    }
    gains_keys(alloc, other_keys, table, keys)
}

/// Adds what a table and a key file open and close, compared with others.
///
/// On `Err` memory was refused and the text is invalid.
#[tactic(auto, unfolding(crate::specs::compare::Compared::comparison_text))]
pub fn add_comparison(
    alloc: Global,
    text: &mut Vec<u8>,
    table: &Table,
    keys: &Keys,
    other: &Table,
    other_keys: &Keys,
) -> Result<(), AllocError>
    // The rights that the new files open and close, by attribute and kind of key, the attributes
    // that moved, and the subscriptions that `Host::replace` would drop or keep.
    ensures ok { OnOk result (text.new.items ≡ text.old.items
        ++ comparison_text table.now keys.now other.now other_keys.now) }
{
    let kinds = every_kind(alloc)?;
    let columns = columns_of_both(alloc, keys, other_keys)?;
    let mut opened = gains_lines(alloc, &kinds, &columns, table, keys, other, other_keys)?;
    let closed = gains_lines(alloc, &kinds, &columns, other, other_keys, table, keys)?;
    add_opened(text, &opened)?;
    add_closed(text, &closed)?;
    add_moves(alloc, text, &kinds, &columns, table, other)?;
    add_octets(text, reached_text(table, other).as_bytes())?;
    add_octets(&mut opened, &closed)?;
    add_explanation(alloc, text, &opened, keys, &columns)
}

/// Returns the columns of the kinds of keys in two key files.
fn columns_of_both(alloc: Global, keys: &Keys, other_keys: &Keys) -> Result<Vec<Column>, AllocError>
    ensures { IfOk result (λ columns. columns.items ≡ columns_of_both keys.now other_keys.now) }
{
    named_columns(alloc, &kinds_of_both(alloc, other_keys, keys)?)
}

fn kinds_of_both(
    alloc: Global,
    keys: &Keys,
    others: &Keys,
) -> Result<Vec<Option<KeyFacts>>, AllocError>
    ensures { IfOk result (λ kinds. kinds.items ≡ kinds_of_both keys.now others.now) }
{
    if keys.count() == 0 && others.count() == 0 {
        return Ok(Vec::new(alloc));
    }
    let mut kinds = columns_of(alloc, keys)?;
    add_columns(&mut kinds, others)?;
    Ok(kinds)
}

#[tactic(auto, unfolding(crate::specs::compare::Compared::gains_lines))]
fn gains_lines(
    alloc: Global,
    kinds: &[Option<KeyFacts>],
    columns: &[Column],
    table: &Table,
    keys: &Keys,
    other: &Table,
    other_keys: &Keys,
) -> Result<Vec<u8>, AllocError>
    ensures { IfOk result (λ lines. lines.items ≡ gains_lines kinds.now columns.now
        table.now keys.now other.now other_keys.now) }
{
    let mut lines = Vec::new(alloc);
    let pairs = pairs_of(alloc, table, other)?;
    add_pair_lines(alloc, &mut lines, table, other, kinds, columns, &pairs)?;
    add_gaining_keys(alloc, &mut lines, other_keys, table, keys)?;
    Ok(lines)
}

/// Adds lines after their heading, or other words in place of a heading without lines.
fn add_section(
    text: &mut Vec<u8>,
    heading: &[u8],
    nothing: &[u8],
    lines: &[u8],
) -> Result<(), AllocError>
    ensures ok { OnOk result (text.new.items
        ≡ text.old.items ++ section heading.now nothing.now lines.now) }
{
    match lines {
        [] => add_octets(text, nothing),
        _ => {
            add_octets(text, heading)?;
            add_octets(text, lines)
        }
    }
}

#[tactic(auto, unfolding(crate::specs::compare::Compared::opened_text))]
fn add_opened(text: &mut Vec<u8>, lines: &[u8]) -> Result<(), AllocError>
    ensures ok { OnOk result (text.new.items ≡ text.old.items ++ opened_text lines.now) }
{
    add_section(
        text,
        b"Opened:\n",
        b"Nothing is opened, for clients with every kind of key and without one.\n",
        lines,
    )
}

#[tactic(auto, unfolding(crate::specs::compare::Compared::closed_text))]
fn add_closed(text: &mut Vec<u8>, lines: &[u8]) -> Result<(), AllocError>
    ensures ok { OnOk result (text.new.items ≡ text.old.items ++ closed_text lines.now) }
{
    add_section(
        text,
        b"Closed:\n",
        b"Nothing is closed, for clients with every kind of key and without one.\n",
        lines,
    )
}

#[tactic(auto, unfolding(crate::specs::compare::Compared::moves_text))]
fn add_moves(
    alloc: Global,
    text: &mut Vec<u8>,
    kinds: &[Option<KeyFacts>],
    columns: &[Column],
    table: &Table,
    other: &Table,
) -> Result<(), AllocError>
    ensures ok { OnOk result (text.new.items ≡ text.old.items
        ++ moves_text kinds.now columns.now table.now other.now) }
{
    let pairs = pairs_of(alloc, table, other)?;
    let others = pairs_of(alloc, other, table)?;
    add_changed_section(alloc, text, table, other, &pairs, &others)?;
    add_places(alloc, text, &pairs, &others)?;
    add_dropped_section(alloc, text, table, other)?;
    add_lasting_section(alloc, text, kinds, columns, table, other)
}

fn add_changed_section(
    alloc: Global,
    text: &mut Vec<u8>,
    table: &Table,
    other: &Table,
    pairs: &[Pair],
    others: &[Pair],
) -> Result<(), AllocError>
    ensures ok { OnOk result (text.new.items ≡ text.old.items ++ lines_under (codes "Changed:")
        (lines_of_changes table.now other.now pairs.now others.now)) }
{
    let lines = lines_of_changes(alloc, table, other, pairs, others)?;
    add_section(text, b"Changed:\n", b"", &lines)
}

#[tactic(auto, unfolding(crate::specs::compare::Compared::places_text))]
fn add_places(
    alloc: Global,
    text: &mut Vec<u8>,
    pairs: &[Pair],
    others: &[Pair],
) -> Result<(), AllocError>
    ensures ok { OnOk result
        (text.new.items ≡ text.old.items ++ places_text pairs.now others.now) }
{
    add_moved_section(alloc, text, pairs, others)?;
    add_alone_section(alloc, text, b"New:\n", pairs, others)?;
    add_alone_section(alloc, text, b"Gone:\n", others, pairs)
}

fn add_moved_section(
    alloc: Global,
    text: &mut Vec<u8>,
    pairs: &[Pair],
    others: &[Pair],
) -> Result<(), AllocError>
    ensures ok { OnOk result (text.new.items ≡ text.old.items
        ++ lines_under (codes "Moved to another handle:") (moved_lines pairs.now others.now)) }
{
    let lines = moved_lines(alloc, pairs, others)?;
    add_section(text, b"Moved to another handle:\n", b"", &lines)
}

/// Adds the attributes that the other table does not have, below a heading.
fn add_alone_section(
    alloc: Global,
    text: &mut Vec<u8>,
    heading: &[u8],
    pairs: &[Pair],
    others: &[Pair],
) -> Result<(), AllocError>
    ensures ok { OnOk result (text.new.items ≡ text.old.items
        ++ section heading.now [] (alone_lines pairs.now others.now)) }
{
    let lines = alone_lines(alloc, pairs, others)?;
    add_section(text, heading, b"", &lines)
}

fn add_dropped_section(
    alloc: Global,
    text: &mut Vec<u8>,
    table: &Table,
    other: &Table,
) -> Result<(), AllocError>
    ensures ok { OnOk result (text.new.items ≡ text.old.items
        ++ lines_under (codes "Subscriptions that are dropped:")
        (dropped_lines table.now other.now)) }
{
    let lines = dropped_lines(alloc, other, table, all_attributes(other))?;
    add_section(text, b"Subscriptions that are dropped:\n", b"", &lines)
}

fn add_lasting_section(
    alloc: Global,
    text: &mut Vec<u8>,
    kinds: &[Option<KeyFacts>],
    columns: &[Column],
    table: &Table,
    other: &Table,
) -> Result<(), AllocError>
    ensures ok { OnOk result (text.new.items ≡ text.old.items
        ++ lines_under (codes "Subscriptions that last although they are closed:")
        (still_sent_lines kinds.now columns.now table.now other.now)) }
{
    let lines = still_sent_lines(alloc, other, table, kinds, columns, all_attributes(other))?;
    add_section(
        text,
        b"Subscriptions that last although they are closed:\n",
        b"",
        &lines,
    )
}

fn reached_text(table: &Table, other: &Table) -> &'static str
    ensures { result.now ≡ reached_text (changer_of table.now) (changer_of other.now) }
{
    match (table.changer(), other.changer()) {
        (None, None) => {
            "No peer is reached: neither table has a Service Changed characteristic.\n"
        }
        (Some(one), Some(other)) if one == other => {
            "Service Changed reaches the peers that subscribed to it.\n"
        }
        _ => "Service Changed reaches no peer: it is not at the same handle in both tables.\n",
    }
}

/// Adds the meaning of letters and columns if there are lines with them.
fn add_explanation(
    alloc: Global,
    text: &mut Vec<u8>,
    lines: &[u8],
    keys: &Keys,
    columns: &[Column],
) -> Result<(), AllocError>
    ensures ok { OnOk result (text.new.items
        ≡ text.old.items ++ legend_if_any lines.now (legend_of keys.now columns.now)) }
{
    match lines {
        [] => Ok(()),
        _ => {
            add_octets(text, b"\n")?;
            add_legend_of(alloc, text, keys, columns)
        }
    }
}

/// Adds the meaning of the letters, and the columns without an empty line if there are none.
fn add_legend_of(
    alloc: Global,
    text: &mut Vec<u8>,
    keys: &Keys,
    columns: &[Column],
) -> Result<(), AllocError>
    ensures ok { OnOk result
        (text.new.items ≡ text.old.items ++ legend_of keys.now columns.now) }
{
    let mut legend = Vec::new(alloc);
    add_legend(alloc, &mut legend, keys, columns, columns)?;
    match columns {
        [] => add_octets(text, without_last(&legend)),
        _ => add_octets(text, &legend),
    }
}

fn without_last(octets: &[u8]) -> &[u8]
    ensures { result.now ≡ without_last octets.now }
{
    &octets[..octets.len().saturating_sub(1)]
}
