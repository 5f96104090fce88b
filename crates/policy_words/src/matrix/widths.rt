//! How wide the cells of a table are.

ghost use Rattle.std.specs.Prelude.{◌≡◌, ◌≤◌, IfOk, max};
ghost use Rattle.policy_words.specs.matrix.Layout.{HasLeastWidths, cell_width, columns_in, name_width, row_width, type_width, value_width, widest_cell, widest_cell_of, widest_type, widest_value};

use crate::cell::{Asked, cell};
use crate::columns::Column;
use crate::matrix::layout::Layout;
use crate::matrix::value::short_value;
use crate::table::told_value;
use crate::type_text::add_type;
use att_table::{Attr, Table, type_octets};
use policy_rights::{all_attributes, is_used};
use std::alloc::{AllocError, Global};
use text_words::WIDEST;

/// Returns the least widths for the rows of a table. Names are cut if a line of this width has no
/// space for all columns after whole ones.
pub(crate) fn layout_of(
    alloc: Global,
    table: &Table,
    columns: &[Column],
    width: usize,
) -> Result<Layout, AllocError>
    ensures { IfOk result (λ layout. HasLeastWidths layout table.now columns.now width) }
{
    let attributes = all_attributes(table);
    let widest = widest_type(alloc, attributes)?.min(WIDEST);
    let value = widest_value(alloc, table, attributes)?.min(WIDEST);
    let cell = widest_cell(alloc, table, columns, attributes)?.min(WIDEST);
    let is_whole = columns.len() <= columns_in(width, widest, value, cell);
    Ok(Layout {
        name: name_width(is_whole, widest),
        value,
        cell,
        is_whole,
    })
}

/// Returns how many columns have space in a line of a width.
pub(crate) fn most_columns(layout: Layout, width: usize) -> usize {
    columns_in(width, layout.name, layout.value, layout.cell)
}

/// Returns how many columns have space in a line of a width. The handle, the sizes and the spaces
/// between cells have 16 octets.
fn columns_in(width: usize, name: usize, value: usize, cell: usize) -> usize
    requires name { name ≤ 64 }
    requires value { value ≤ 64 }
    ensures { result ≡ columns_in width name value cell }
{
    width.saturating_sub(16 + name + value) / cell.max(1)
}

fn name_width(is_whole: bool, widest: usize) -> usize
    requires { widest ≤ 64 }
    ensures exact { result ≡ name_width is_whole widest }
    ensures narrow { result ≤ 64 }
{
    if is_whole { widest } else { widest.min(28) }
}

/// Returns the length of the longest name, not cut.
fn widest_type(alloc: Global, attributes: &[Attr]) -> Result<usize, AllocError>
    ensures { IfOk result (λ widest. widest ≡ widest_type attributes.now) }
{
    let mut widest = 0;
    for attr in attributes {
        let width = type_width(alloc, attr)?;
        widest = max_of(widest, width);
    }
    Ok(widest)
}

fn max_of(one: usize, other: usize) -> usize
    ensures { result ≡ max one other }
{
    one.max(other)
}

fn type_width(alloc: Global, attr: &Attr) -> Result<usize, AllocError>
    ensures { IfOk result (λ width. width ≡ type_width attr.now) }
{
    if !is_used(attr.role) {
        return Ok(0);
    }
    let mut name = Vec::new(alloc);
    add_type(&mut name, type_octets(attr.kind).as_slice())?;
    Ok(name.len())
}

/// Returns the length of the longest text of a value, at least that of its heading.
fn widest_value(alloc: Global, table: &Table, attributes: &[Attr]) -> Result<usize, AllocError>
    ensures { IfOk result (λ widest. widest ≡ widest_value table.now attributes.now) }
{
    let mut widest = 8;
    for attr in attributes {
        let width = value_width(alloc, table, attr)?;
        widest = max_of(widest, width);
    }
    Ok(widest)
}

fn value_width(alloc: Global, table: &Table, attr: &Attr) -> Result<usize, AllocError>
    ensures { IfOk result (λ width. width ≡ value_width table.now attr.now) }
{
    if !is_used(attr.role) {
        return Ok(0);
    }
    let value = short_value(alloc, told_value(table, attr.handle))?;
    Ok(value.len())
}

/// Returns the length of the longest cell of these rows, after two spaces.
fn widest_cell(
    alloc: Global,
    table: &Table,
    columns: &[Column],
    attributes: &[Attr],
) -> Result<usize, AllocError>
    ensures { IfOk result (λ widest. widest
        ≡ widest_cell table.now.attributes columns.now attributes.now) }
{
    let mut widest = 3;
    for attr in attributes {
        let width = row_width(alloc, table, columns, attr)?;
        widest = max_of(widest, width);
    }
    Ok(widest)
}

fn row_width(
    alloc: Global,
    table: &Table,
    columns: &[Column],
    attr: &Attr,
) -> Result<usize, AllocError>
    ensures { IfOk result
        (λ width. width ≡ row_width table.now.attributes columns.now attr.now) }
{
    if is_used(attr.role) {
        widest_cell_of(alloc, table, columns, attr)
    } else {
        Ok(0)
    }
}

fn widest_cell_of(
    alloc: Global,
    table: &Table,
    columns: &[Column],
    attr: &Attr,
) -> Result<usize, AllocError>
    ensures { IfOk result
        (λ widest. widest ≡ widest_cell_of table.now.attributes columns.now attr.now) }
{
    let mut widest = 0;
    for column in columns {
        let width = cell_width(alloc, table, attr, column)?;
        widest = max_of(widest, width);
    }
    Ok(widest)
}

fn cell_width(
    alloc: Global,
    table: &Table,
    attr: &Attr,
    column: &Column,
) -> Result<usize, AllocError>
    ensures { IfOk result
        (λ width. width ≡ cell_width table.now.attributes attr.now column.now) }
{
    let asked = Asked {
        key: column.key,
        handle: attr.handle,
    };
    let cell = cell(alloc, table, asked)?;
    Ok(cell.len() + 2)
}
