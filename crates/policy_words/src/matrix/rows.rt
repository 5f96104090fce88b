//! The rows of the matrix, in blocks of columns.

ghost use Rattle.std.specs.Prelude.{◌≡◌, ◌++◌, OnOk};
ghost use Rattle.std.specs.List.{flat_map};
ghost use Rattle.text_words.specs.Cells.{left, right};
ghost use Rattle.policy_words.specs.Cell.{cell_text};
ghost use Rattle.policy_words.specs.matrix.Rows.{AddsBlocks, block_text, cells_text, header_text, heading_text, secondary_text, matrix_line, name_cells, cut_type_text, names_text, row_text, value_cells, short_value_text};

use crate::cell::{Asked, cell};
use crate::columns::Column;
use crate::matrix::layout::Layout;
use crate::matrix::value::{cut_type, short_value};
use crate::table::{add_length_cell, told_value};
use crate::type_text::add_type;
use att_numbers::attribute_type::SECONDARY_SERVICE;
use att_table::{Attr, Role, Table, is_service};
use policy_rights::all_attributes;
use std::alloc::{AllocError, Global};
use text_words::{add_left, add_octets, add_right, add_right_number};

/// Adds the matrix, in blocks of at most `most` columns.
pub(crate) fn add_blocks(
    alloc: Global,
    text: &mut Vec<u8>,
    table: &Table,
    layout: Layout,
    columns: &[Column],
    most: usize,
) -> Result<(), AllocError>
    ensures ok { OnOk result
        (AddsBlocks layout table.now columns.now text.old.items text.new.items) }
{
    if columns.is_empty() {
        return Ok(());
    }
    let (block, rest) = columns.split_at(most.clamp(1, columns.len()));
    add_block(alloc, text, table, layout, block)?;
    add_blocks(alloc, text, table, layout, rest, most)
}

fn add_block(
    alloc: Global,
    text: &mut Vec<u8>,
    table: &Table,
    layout: Layout,
    columns: &[Column],
) -> Result<(), AllocError>
    ensures ok { OnOk result (text.new.items
        ≡ text.old.items ++ block_text layout table.now columns.now) }
{
    add_header(text, layout, columns)?;
    add_lines(alloc, text, table, layout, columns, all_attributes(table))?;
    add_octets(text, b"\n")
}

#[tactic(auto, unfolding(crate::specs::matrix::Rows::header_text))]
fn add_header(text: &mut Vec<u8>, layout: Layout, columns: &[Column]) -> Result<(), AllocError>
    ensures ok { OnOk result (text.new.items ≡ text.old.items ++ header_text layout columns.now) }
{
    add_left(text, b"", 7)?;
    add_left(text, b"", layout.name)?;
    add_octets(text, b"  ")?;
    add_left(text, b"size", 5)?;
    add_octets(text, b"  ")?;
    add_left(text, b"at first", layout.value)?;
    add_names(text, layout, columns)?;
    add_octets(text, b"\n")
}

fn add_names(text: &mut Vec<u8>, layout: Layout, columns: &[Column]) -> Result<(), AllocError>
    ensures ok { OnOk result (text.new.items ≡ text.old.items ++ names_text layout columns.now) }
{
    for column in columns {
        add_right(text, &[column.name], layout.cell)?;
    }
    Ok(())
}

fn add_lines(
    alloc: Global,
    text: &mut Vec<u8>,
    table: &Table,
    layout: Layout,
    columns: &[Column],
    attributes: &[Attr],
) -> Result<(), AllocError>
    ensures ok { OnOk result (text.new.items
        ≡ text.old.items ++ flat_map (matrix_line layout table.now columns.now) attributes.now) }
{
    for attr in attributes {
        add_line(alloc, text, table, layout, columns, attr)?;
    }
    Ok(())
}

fn add_line(
    alloc: Global,
    text: &mut Vec<u8>,
    table: &Table,
    layout: Layout,
    columns: &[Column],
    attr: &Attr,
) -> Result<(), AllocError>
    ensures ok { OnOk result (text.new.items
        ≡ text.old.items ++ matrix_line layout table.now columns.now attr.now) }
{
    match attr.role {
        Role::Declaration => add_heading(text, table, attr),
        Role::Value | Role::Descriptor => add_row(alloc, text, table, layout, columns, attr),
        Role::Configuration => Ok(()),
    }
}

fn add_heading(text: &mut Vec<u8>, table: &Table, attr: &Attr) -> Result<(), AllocError>
    ensures ok { OnOk result (text.new.items
        ≡ text.old.items ++ heading_text table.now attr.now) }
{
    if !is_service(attr.kind) {
        return Ok(());
    }
    add_type(text, told_value(table, attr.handle))?;
    add_kind(text, attr.kind)?;
    add_octets(text, b"\n")
}

fn add_kind(text: &mut Vec<u8>, kind: u128) -> Result<(), AllocError>
    ensures ok { OnOk result (text.new.items ≡ text.old.items ++ secondary_text kind) }
{
    if kind == SECONDARY_SERVICE {
        add_octets(text, b" (secondary)")
    } else {
        Ok(())
    }
}

#[tactic(auto, unfolding(crate::specs::matrix::Rows::row_text))]
fn add_row(
    alloc: Global,
    text: &mut Vec<u8>,
    table: &Table,
    layout: Layout,
    columns: &[Column],
    attr: &Attr,
) -> Result<(), AllocError>
    ensures ok { OnOk result (text.new.items
        ≡ text.old.items ++ row_text layout table.now columns.now attr.now) }
{
    add_name_cells(alloc, text, layout, attr)?;
    add_value_cells(alloc, text, table, layout, attr)?;
    add_cells(alloc, text, table, layout, columns, attr.handle)?;
    add_octets(text, b"\n")
}

#[tactic(auto, unfolding(crate::specs::matrix::Rows::name_cells))]
fn add_name_cells(
    alloc: Global,
    text: &mut Vec<u8>,
    layout: Layout,
    attr: &Attr,
) -> Result<(), AllocError>
    ensures ok { OnOk result (text.new.items ≡ text.old.items ++ name_cells layout attr.now) }
{
    add_right_number(text, u64::from(attr.handle), 5)?;
    add_octets(text, b"  ")?;
    add_name_cell(alloc, text, layout, attr.kind)?;
    add_octets(text, b"  ")
}

#[tactic(auto, unfolding(crate::specs::matrix::Rows::value_cells))]
fn add_value_cells(
    alloc: Global,
    text: &mut Vec<u8>,
    table: &Table,
    layout: Layout,
    attr: &Attr,
) -> Result<(), AllocError>
    ensures ok { OnOk result (text.new.items
        ≡ text.old.items ++ value_cells layout table.now attr.now) }
{
    add_length_cell(alloc, text, attr)?;
    add_octets(text, b"  ")?;
    add_value_cell(alloc, text, layout, told_value(table, attr.handle))
}

fn add_name_cell(
    alloc: Global,
    text: &mut Vec<u8>,
    layout: Layout,
    kind: u128,
) -> Result<(), AllocError>
    ensures ok { OnOk result (text.new.items
        ≡ text.old.items ++ left layout.name (cut_type_text layout.is_whole kind)) }
{
    let name = cut_type(alloc, kind, layout.is_whole)?;
    add_left(text, &name, layout.name)
}

fn add_value_cell(
    alloc: Global,
    text: &mut Vec<u8>,
    layout: Layout,
    value: &[u8],
) -> Result<(), AllocError>
    ensures ok { OnOk result (text.new.items
        ≡ text.old.items ++ left layout.value (short_value_text value.now)) }
{
    let shown = short_value(alloc, value)?;
    add_left(text, &shown, layout.value)
}

fn add_cells(
    alloc: Global,
    text: &mut Vec<u8>,
    table: &Table,
    layout: Layout,
    columns: &[Column],
    handle: u16,
) -> Result<(), AllocError>
    ensures ok { OnOk result (text.new.items
        ≡ text.old.items ++ cells_text layout table.now.attributes columns.now handle) }
{
    for column in columns {
        add_cell(alloc, text, table, layout, column, handle)?;
    }
    Ok(())
}

fn add_cell(
    alloc: Global,
    text: &mut Vec<u8>,
    table: &Table,
    layout: Layout,
    column: &Column,
    handle: u16,
) -> Result<(), AllocError>
    ensures ok { OnOk result (text.new.items ≡ text.old.items
        ++ right layout.cell (cell_text table.now.attributes handle column.now.key)) }
{
    let asked = Asked {
        key: column.key,
        handle,
    };
    let cell = cell(alloc, table, asked)?;
    add_right(text, &cell, layout.cell)
}
