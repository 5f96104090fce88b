//! The columns of the matrix and their names.

ghost use Rattle.std.specs.Prelude.{◌≡◌, ◌++◌, IfOk, OnOk};
ghost use Rattle.std.specs.List.{flat_map};
ghost use Rattle.policy_words.specs.Columns.{kind_if_equal, kinds_of_column, matrix_columns, named_from, named_kinds, next_name};

use att_policy::KeyFacts;
use att_table::Table;
use policy_rights::{has_equal_rights, kinds_that_differ};
use std::alloc::{AllocError, Global};

/// A column: a name of one letter, and the key that encrypts a link, if one does.
#[derive(Clone, Copy)]
pub struct Column {
    pub name: u8,
    pub key: Option<KeyFacts>,
}

/// Returns the columns of kinds of keys, named in their order.
pub fn named_columns(alloc: Global, kinds: &[Option<KeyFacts>]) -> Result<Vec<Column>, AllocError>
    ensures { IfOk result (λ columns. columns.items ≡ named_from 65 kinds.now) }
{
    let mut columns = Vec::new(alloc);
    add_columns(&mut columns, kinds)?;
    Ok(columns)
}

fn add_columns(columns: &mut Vec<Column>, kinds: &[Option<KeyFacts>]) -> Result<(), AllocError>
    ensures ok { OnOk result (columns.new.items ≡ columns.old.items ++ named_from 65 kinds.now) }
{
    let mut name = b'A';
    for key in kinds {
        columns.push(Column { name, key: *key })?;
        name = next_name(name);
    }
    Ok(())
}

fn next_name(name: u8) -> u8
    ensures { result ≡ next_name name }
{
    match name {
        b'Z' => b'a',
        255 => b'A',
        _ => name + 1,
    }
}

/// Returns the columns of a matrix: one for all kinds of keys with equal rights.
pub(crate) fn matrix_columns(
    alloc: Global,
    table: &Table,
    kinds: &[Option<KeyFacts>],
) -> Result<Vec<Column>, AllocError>
    ensures { IfOk result
        (λ columns. columns.items ≡ matrix_columns table.now.attributes kinds.now) }
{
    named_columns(alloc, &kinds_that_differ(alloc, table, kinds)?)
}

/// Returns all kinds of keys with the names of their columns, column by column.
pub(crate) fn named_kinds(
    alloc: Global,
    table: &Table,
    kinds: &[Option<KeyFacts>],
    columns: &[Column],
) -> Result<Vec<Column>, AllocError>
    ensures { IfOk result
        (λ named. named.items ≡ named_kinds table.now.attributes kinds.now columns.now) }
{
    let mut named = Vec::new(alloc);
    add_kinds_of_columns(&mut named, table, kinds, columns)?;
    Ok(named)
}

fn add_kinds_of_columns(
    named: &mut Vec<Column>,
    table: &Table,
    kinds: &[Option<KeyFacts>],
    columns: &[Column],
) -> Result<(), AllocError>
    ensures ok { OnOk result (named.new.items ≡ named.old.items
        ++ flat_map (kinds_of_column table.now.attributes kinds.now) columns.now) }
{
    for column in columns {
        add_kinds_of_column(named, table, column, kinds)?;
    }
    Ok(())
}

fn add_kinds_of_column(
    named: &mut Vec<Column>,
    table: &Table,
    column: &Column,
    kinds: &[Option<KeyFacts>],
) -> Result<(), AllocError>
    ensures ok { OnOk result (named.new.items ≡ named.old.items
        ++ kinds_of_column table.now.attributes kinds.now column.now) }
{
    for kind in kinds {
        add_kind_if_equal(named, table, column, *kind)?;
    }
    Ok(())
}

fn add_kind_if_equal(
    named: &mut Vec<Column>,
    table: &Table,
    column: &Column,
    kind: Option<KeyFacts>,
) -> Result<(), AllocError>
    ensures ok { OnOk result (named.new.items ≡ named.old.items
        ++ kind_if_equal table.now.attributes column.now kind) }
{
    if has_equal_rights(table, kind, column.key) {
        named.push(Column {
            name: column.name,
            key: kind,
        })?;
    }
    Ok(())
}
