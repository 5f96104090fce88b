//! The matrix of the rights of a table, its legend and the findings, as `show` prints them.

ghost use Rattle.std.specs.Prelude.{◌≡◌, ◌++◌, OnOk};
ghost use Rattle.policy_rights.specs.Columns.{columns_among};
ghost use Rattle.policy_words.specs.matrix.Shared.{NamesEachKind, SharesCells};
ghost use Rattle.policy_words.specs.matrix.Shown.{ShowsRights, columns_of_table, explanation_text};

mod layout;
mod look;
mod rows;
mod value;
mod widths;

use crate::columns::{Column, matrix_columns, named_kinds};
use crate::legend::add_legend;
use crate::matrix::look::add_look;
use crate::matrix::rows::add_blocks;
use crate::matrix::widths::{layout_of, most_columns};
use att_policy::KeyFacts;
use att_table::Table;
use le_security::Keys;
use policy_rights::{columns_of, findings};
use std::alloc::{AllocError, Global};
use text_words::add_octets;

/// Adds the matrix of a table, its legend and what to look at twice, in lines of a width if they
/// fit into it.
///
/// A row is a value or a descriptor, a column all kinds of keys with equal rights. On `Err` memory
/// was refused and the text is invalid.
#[tactic(auto, using(crate::proofs::Shared::names_each_kind, crate::proofs::Shared::shares_cells))]
pub fn add_matrix(
    alloc: Global,
    text: &mut Vec<u8>,
    table: &Table,
    keys: &Keys,
    width: usize,
) -> Result<(), AllocError>
    // A matrix of the rights with one column for all kinds of keys with equal rights, each kind
    // with its column, and the findings. Types are whole if a line has space for them and all
    // columns. The contract does not fix which columns share a block.
    ensures ok { OnOk result
        (ShowsRights table.now keys.now width text.old.items text.new.items) }
    // No kind of key is missing.
    ensures kinds { NamesEachKind }
    // The cells of a column are those of each of its kinds.
    ensures cells { SharesCells }
{
    let kinds = columns_of(alloc, keys)?;
    let columns = matrix_columns(alloc, table, &kinds)?;
    let layout = layout_of(alloc, table, &columns, width)?;
    add_blocks(
        alloc,
        text,
        table,
        layout,
        &columns,
        most_columns(layout, width),
    )?;
    add_explanation(alloc, text, table, keys, &kinds, &columns)
}

fn add_explanation(
    alloc: Global,
    text: &mut Vec<u8>,
    table: &Table,
    keys: &Keys,
    kinds: &[Option<KeyFacts>],
    columns: &[Column],
) -> Result<(), AllocError>
    requires kinds { kinds.now ≡ columns_among keys.now }
    requires columns { columns.now ≡ columns_of_table table.now keys.now }
    ensures ok { OnOk result (text.new.items
        ≡ text.old.items ++ explanation_text table.now keys.now) }
{
    let named = named_kinds(alloc, table, kinds, columns)?;
    add_legend(alloc, text, keys, columns, &named)?;
    add_octets(text, b"\n")?;
    let found = findings(alloc, table, keys, kinds)?;
    add_look(text, &found)
}
