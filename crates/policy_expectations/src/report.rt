//! The differences in words.

ghost use Rattle.std.specs.Prelude.{◌≡◌, ◌++◌, OnOk};
ghost use Rattle.std.specs.List.{flat_map};
ghost use Rattle.policy_rights.specs.Columns.{columns_among};
ghost use Rattle.policy_rights.specs.Kinds.{every_kind};
ghost use Rattle.policy_expectations.specs.Report.{all_hold_text, difference_text, hold_words, names_nothing_text, reach_words, report_text, unnamed_text};

use crate::difference::Difference;
use crate::lines::add_differing;
use att_policy::KeyFacts;
use att_table::{Table, type_octets};
use le_security::Keys;
use policy_rights::{columns_of, every_kind};
use policy_words::{add_handle_and_type, add_type};
use std::alloc::{AllocError, Global};
use text_words::{add_number, add_octets};

/// Adds lines for each difference; if there is none, one with the number of the expectations.
///
/// A line names all kinds of keys with the same difference, and those of them that are in a key
/// file. On `Err` memory was refused and the text is invalid.
pub fn add_report(
    alloc: Global,
    text: &mut Vec<u8>,
    table: &Table,
    keys: &Keys,
    count: usize,
    differences: &[Difference],
) -> Result<(), AllocError>
    // There are at most four lines for each right that differs, and a line for each expectation
    // that names no attribute and each attribute that somebody may use but no expectation names.
    // Without such a line the text says that all expectations hold.
    ensures ok { OnOk result (text.new.items ≡ text.old.items
        ++ report_text table.now.attributes keys.now count differences.now) }
{
    match differences {
        [] => add_all_hold(text, count),
        _ => add_found(alloc, text, table, keys, differences),
    }
}

fn add_all_hold(text: &mut Vec<u8>, count: usize) -> Result<(), AllocError>
    ensures ok { OnOk result (text.new.items ≡ text.old.items ++ all_hold_text count) }
{
    add_hold_words(text, count)?;
    add_octets(text, b"\n")
}

fn add_hold_words(text: &mut Vec<u8>, count: usize) -> Result<(), AllocError>
    ensures ok { OnOk result (text.new.items ≡ text.old.items ++ hold_words count) }
{
    if count == 0 {
        return add_octets(
            text,
            b"There are no expectations, and nobody can use a value or a descriptor.",
        );
    }
    if count == 1 {
        add_octets(text, b"1 expectation holds")?;
        return add_reach(text);
    }
    add_number(text, count as u64)?;
    add_octets(text, b" expectations hold")?;
    add_reach(text)
}

/// Adds the clients of which it holds.
fn add_reach(text: &mut Vec<u8>) -> Result<(), AllocError>
    ensures ok { OnOk result (text.new.items ≡ text.old.items ++ reach_words) }
{
    add_octets(
        text,
        b", for clients with every kind of key and without one.",
    )
}

fn add_found(
    alloc: Global,
    text: &mut Vec<u8>,
    table: &Table,
    keys: &Keys,
    differences: &[Difference],
) -> Result<(), AllocError>
    ensures ok { OnOk result (text.new.items ≡ text.old.items
        ++ flat_map (difference_text table.now.attributes every_kind (columns_among keys.now))
        differences.now) }
{
    let kinds = every_kind(alloc)?;
    let columns = columns_of(alloc, keys)?;
    add_differences(alloc, text, table, &kinds, &columns, differences)
}

fn add_differences(
    alloc: Global,
    text: &mut Vec<u8>,
    table: &Table,
    kinds: &[Option<KeyFacts>],
    columns: &[Option<KeyFacts>],
    differences: &[Difference],
) -> Result<(), AllocError>
    ensures ok { OnOk result (text.new.items ≡ text.old.items
        ++ flat_map (difference_text table.now.attributes kinds.now columns.now)
        differences.now) }
{
    for difference in differences {
        add_difference(alloc, text, table, kinds, columns, difference)?;
    }
    Ok(())
}

fn add_difference(
    alloc: Global,
    text: &mut Vec<u8>,
    table: &Table,
    kinds: &[Option<KeyFacts>],
    columns: &[Option<KeyFacts>],
    difference: &Difference,
) -> Result<(), AllocError>
    ensures ok { OnOk result (text.new.items ≡ text.old.items
        ++ difference_text table.now.attributes kinds.now columns.now difference.now) }
{
    match *difference {
        Difference::Use(found) => add_differing(alloc, text, table, kinds, columns, found),
        Difference::Unnamed(handle, kind) => {
            add_unnamed(text, handle, kind)?;
            add_octets(text, b"\n")
        }
        Difference::NamesNothing(place, kind) => {
            add_names_nothing(text, place, kind)?;
            add_octets(text, b"\n")
        }
    }
}

fn add_unnamed(text: &mut Vec<u8>, handle: u16, kind: u128) -> Result<(), AllocError>
    ensures ok { OnOk result (text.new.items ≡ text.old.items ++ unnamed_text handle kind) }
{
    add_handle_and_type(text, handle, kind)?;
    add_octets(text, b": it can be used, but no expectation names it")
}

#[tactic(auto, unfolding(crate::specs::Report::names_nothing_text))]
fn add_names_nothing(text: &mut Vec<u8>, place: u16, kind: u128) -> Result<(), AllocError>
    ensures ok { OnOk result (text.new.items ≡ text.old.items ++ names_nothing_text place kind) }
{
    add_octets(text, b"       expectation ")?;
    add_number(text, u64::from(place))?;
    add_octets(text, b", ")?;
    add_type(text, type_octets(kind).as_slice())?;
    add_octets(text, b": it names no attribute")
}
