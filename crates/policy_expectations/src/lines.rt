//! The lines of a right that is not as it is meant.

ghost use Rattle.std.specs.Prelude.{◌≡◌, ◌++◌, IfOk, OnOk};
ghost use Rattle.std.specs.List.{filter};
ghost use Rattle.policy_expectations.specs.Lines.{differing_text, differs_so, is_on_side, is_today, kind_if, kinds_on, named_today, side_line, side_of, side_text, side_words, today_text};

use crate::difference::{Differing, differs};
use crate::words::{add_meant, add_right, add_verdict};
use att_policy::KeyFacts;
use att_table::Table;
use policy_rights::{has_column, may_with};
use policy_words::{add_handle_and_type, add_if, add_kinds};
use std::alloc::{AllocError, Global};
use text_words::add_octets;

/// The links that differ in one way: what a line is about.
#[derive(Clone, Copy)]
struct Side {
    is_authorized: bool,
    /// The table gives the right.
    is_permitted: bool,
}

/// Adds at most four lines for a right: of the links that may but should not, and of those that
/// should but may not, without an authorization and with one.
#[tactic(auto, unfolding(crate::specs::Lines::differing_text))]
pub(crate) fn add_differing(
    alloc: Global,
    text: &mut Vec<u8>,
    table: &Table,
    kinds: &[Option<KeyFacts>],
    columns: &[Option<KeyFacts>],
    found: Differing,
) -> Result<(), AllocError>
    ensures ok { OnOk result (text.new.items ≡ text.old.items
        ++ differing_text table.now.attributes kinds.now columns.now found) }
{
    add_side(
        alloc,
        text,
        table,
        kinds,
        columns,
        found,
        side_of(false, true),
    )?;
    add_side(
        alloc,
        text,
        table,
        kinds,
        columns,
        found,
        side_of(false, false),
    )?;
    add_side(
        alloc,
        text,
        table,
        kinds,
        columns,
        found,
        side_of(true, true),
    )?;
    add_side(
        alloc,
        text,
        table,
        kinds,
        columns,
        found,
        side_of(true, false),
    )
}

fn side_of(is_authorized: bool, is_permitted: bool) -> Side
    ensures { result ≡ side_of is_authorized is_permitted }
{
    Side {
        is_authorized,
        is_permitted,
    }
}

fn add_side(
    alloc: Global,
    text: &mut Vec<u8>,
    table: &Table,
    kinds: &[Option<KeyFacts>],
    columns: &[Option<KeyFacts>],
    found: Differing,
    side: Side,
) -> Result<(), AllocError>
    ensures ok { OnOk result (text.new.items ≡ text.old.items
        ++ side_text table.now.attributes kinds.now columns.now found side) }
{
    let kinds = kinds_on(alloc, table, kinds, found, side)?;
    add_line(alloc, text, columns, found, side, &kinds)
}

/// Returns the kinds of keys on a side.
fn kinds_on(
    alloc: Global,
    table: &Table,
    kinds: &[Option<KeyFacts>],
    found: Differing,
    side: Side,
) -> Result<Vec<Option<KeyFacts>>, AllocError>
    ensures { IfOk result (λ on. on.items
        ≡ kinds_on table.now.attributes kinds.now found side) }
{
    let mut on = Vec::new(alloc);
    for key in kinds {
        let is_on = is_on_side(table, found, side, *key);
        add_kind_if(&mut on, is_on, *key)?;
    }
    Ok(on)
}

fn add_kind_if(
    kinds: &mut Vec<Option<KeyFacts>>,
    holds: bool,
    key: Option<KeyFacts>,
) -> Result<(), AllocError>
    ensures ok { OnOk result (kinds.new.items ≡ kinds.old.items ++ kind_if holds key) }
{
    if holds {
        kinds.push(key)?;
    }
    Ok(())
}

/// Returns true if a side is that of the first link with a key that differs.
fn is_on_side(table: &Table, found: Differing, side: Side, key: Option<KeyFacts>) -> bool
    ensures { result ≡ is_on_side table.now.attributes found side key }
{
    differs_so(table, found, side.is_authorized, key)
        && !(side.is_authorized && differs_so(table, found, false, key))
        && may_with(table, key, side.is_authorized, found.handle, found.right) == side.is_permitted
}

fn differs_so(table: &Table, found: Differing, is_authorized: bool, key: Option<KeyFacts>) -> bool
    ensures { result ≡ differs_so table.now.attributes found is_authorized key }
{
    differs(
        table,
        found.meant,
        found.handle,
        found.right,
        is_authorized,
        key,
    )
}

fn add_line(
    alloc: Global,
    text: &mut Vec<u8>,
    columns: &[Option<KeyFacts>],
    found: Differing,
    side: Side,
    kinds: &[Option<KeyFacts>],
) -> Result<(), AllocError>
    ensures ok { OnOk result (text.new.items
        ≡ text.old.items ++ side_line columns.now found side kinds.now) }
{
    match kinds {
        [] => Ok(()),
        _ => add_words(alloc, text, columns, found, side, kinds),
    }
}

fn add_words(
    alloc: Global,
    text: &mut Vec<u8>,
    columns: &[Option<KeyFacts>],
    found: Differing,
    side: Side,
    kinds: &[Option<KeyFacts>],
) -> Result<(), AllocError>
    ensures ok { OnOk result (text.new.items
        ≡ text.old.items ++ side_words columns.now found side kinds.now) }
{
    add_handle_and_type(text, found.handle, found.kind)?;
    add_right(text, found.right)?;
    add_kinds(text, kinds)?;
    add_today(alloc, text, columns, kinds)?;
    add_if(text, side.is_authorized, b", once authorized,")?;
    add_verdict(text, side.is_permitted)?;
    add_meant(alloc, text, found.meant)?;
    add_octets(text, b" is meant")?;
    add_octets(text, b"\n")
}

/// Adds which of the kinds are in the key file, unless they are everybody.
fn add_today(
    alloc: Global,
    text: &mut Vec<u8>,
    columns: &[Option<KeyFacts>],
    kinds: &[Option<KeyFacts>],
) -> Result<(), AllocError>
    ensures ok { OnOk result (text.new.items
        ≡ text.old.items ++ today_text columns.now kinds.now) }
{
    if kinds.len() == 41 {
        return Ok(());
    }
    let today = kinds_today(alloc, columns, kinds)?;
    add_names(text, &today)
}

fn kinds_today(
    alloc: Global,
    columns: &[Option<KeyFacts>],
    kinds: &[Option<KeyFacts>],
) -> Result<Vec<Option<KeyFacts>>, AllocError>
    ensures { IfOk result (λ today. today.items ≡ filter (is_today columns.now) kinds.now) }
{
    let mut today = Vec::new(alloc);
    for key in kinds {
        let is_today = is_today(columns, *key);
        add_kind_if(&mut today, is_today, *key)?;
    }
    Ok(today)
}

fn is_today(columns: &[Option<KeyFacts>], key: Option<KeyFacts>) -> bool
    ensures { result ≡ is_today columns.now key }
{
    key.is_some() && has_column(columns, key)
}

fn add_names(text: &mut Vec<u8>, today: &[Option<KeyFacts>]) -> Result<(), AllocError>
    ensures ok { OnOk result (text.new.items ≡ text.old.items ++ named_today today.now) }
{
    match today {
        [] => Ok(()),
        _ => {
            add_octets(text, b" (today: ")?;
            add_kinds(text, today)?;
            add_octets(text, b")")
        }
    }
}
