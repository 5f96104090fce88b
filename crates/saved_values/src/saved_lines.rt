//! The text of the saved values of a table.

ghost use Rattle.std.specs.Prelude.{◌≡◌, ◌++◌, ◌∷◌, [], IfOk, OnOk};
ghost use Rattle.std.specs.List.{All};
ghost use Rattle.std.specs.Str.{IsUtf8};
ghost use Rattle.att_table.specs.Facts.{IsTable};
ghost use Rattle.saved_values.specs.ReadBack.{RestoresTheTable, RestoresWhatWasSaved};
ghost use Rattle.saved_values.specs.SavedValue.{IsSavedValue, IsTyped};
ghost use Rattle.saved_values.specs.ValuesText.{saved_lines, saved_of, saved_values, values_text};

use crate::saved_value::add_value_line;
use crate::saves::{Saves, is_saved, value_told};
use att_table::{Attr, Table};
use std::alloc::{AllocError, Global};

/// Returns the lines of the values that differ from the table file, `initial`.
///
/// The lines are in order of handles. Fails if memory is refused.
pub fn values_text(
    alloc: Global,
    table: &Table,
    initial: &Table,
    saves: Saves,
) -> Result<Vec<u8>, AllocError>
    ensures text { IfOk result (λ text. text.items
        ≡ values_text (saved_values saves table.now initial.now)) }
    ensures utf8 { IfOk result (λ text. IsUtf8 text.items) }
    // In the table of the file, if both have the same attributes, the text restores all values that
    // were saved.
    ensures restores { IfOk result (λ text.
        RestoresWhatWasSaved saves table.now initial.now text.items) }
    // It restores the table itself, if that differs from the one of the file only in values that
    // may be saved.
    ensures whole { IfOk result (λ text.
        RestoresTheTable saves table.now initial.now text.items) }
{
    let mut text = Vec::new(alloc);
    add_values(&mut text, table, initial, saves)?;
    Ok(text)
}

/// Adds the lines of a table's saved values; `initial` is the table of the file.
pub fn add_values(
    text: &mut Vec<u8>,
    table: &Table,
    initial: &Table,
    saves: Saves,
) -> Result<(), AllocError>
    ensures ok { OnOk result (text.new.items ≡ text.old.items
        ++ values_text (saved_values saves table.now initial.now)) }
    // Each line can be read as its value.
    ensures values { OnOk result (All IsSavedValue (saved_values saves table.now initial.now)) }
    ensures table { IsTable table.now }
{
    add_values_of(text, all_attributes(table), table, initial, saves)
}

#[tactic(auto, using(crate::proofs::Writing::all_attributes))]
fn all_attributes(table: &Table) -> &[Attr]
    ensures attributes { result.now ≡ table.now.attributes }
    ensures table { IsTable table.now }
{
    table.in_range(1, table.len() as u16)
}

fn add_values_of(
    text: &mut Vec<u8>,
    attributes: &[Attr],
    table: &Table,
    initial: &Table,
    saves: Saves,
) -> Result<(), AllocError>
    ensures ok { OnOk result (text.new.items ≡ text.old.items
        ++ saved_lines saves table.now initial.now attributes.now) }
    ensures typed { OnOk result
        (All IsTyped (saved_of saves table.now initial.now attributes.now)) }
{
    for attr in attributes {
        add_saved(text, attr, table, initial, saves)?;
    }
    Ok(())
}

fn add_saved(
    text: &mut Vec<u8>,
    attr: &Attr,
    table: &Table,
    initial: &Table,
    saves: Saves,
) -> Result<(), AllocError>
    ensures ok { OnOk result (text.new.items ≡ text.old.items
        ++ saved_lines saves table.now initial.now (attr.now ∷ [])) }
    ensures typed { All IsTyped (saved_of saves table.now initial.now (attr.now ∷ [])) }
{
    if is_saved(attr, table, initial, saves) {
        add_value_line(text, attr.handle, attr.kind, value_told(table, attr.handle))
    } else {
        Ok(())
    }
}
