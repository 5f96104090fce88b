//! The rights of a table as lines of fields.

ghost use Rattle.std.specs.Prelude.{◌≡◌, ◌++◌, ◌∷◌, IfOk, OnOk};
ghost use Rattle.std.specs.List.{flat_map};
ghost use Rattle.policy_words.specs.Cell.{always_of, cell_text, is_once, once_of};
ghost use Rattle.playground.specs.Fields.{cell_data, column_data, line_data, name_data, peer_data, rights_data, row_data, service_data};

use att_policy::KeyFacts;
use att_table::{Attr, Role, Table, is_service, type_octets};
use le_hci::Peer;
use le_security::Keys;
use policy_rights::{Right, all_attributes, columns_of, may_with, peers_of_kind};
use policy_words::{
    Column, Rights, add_key, add_length, add_peer_words, add_type, cell_of, named_columns,
    told_value,
};
use std::alloc::{AllocError, Global};
use text_words::{add_hex, add_number, add_octets};

/// Adds a line for each column, each of its peers, each service, value and descriptor.
///
/// The fields of a line are separated by tabs. On `Err` memory was refused and the text is invalid.
#[tactic(auto, unfolding(crate::specs::Fields::rights_data))]
pub(crate) fn add_rights_data(
    alloc: Global,
    text: &mut Vec<u8>,
    table: &Table,
    keys: &Keys,
) -> Result<(), AllocError>
    ensures ok { OnOk result (text.new.items ≡ text.old.items ++ rights_data table.now keys.now) }
{
    let columns = named_columns(alloc, &columns_of(alloc, keys)?)?;
    add_columns(alloc, text, keys, &columns)?;
    add_lines(alloc, text, table, &columns, all_attributes(table))
}

fn add_columns(
    alloc: Global,
    text: &mut Vec<u8>,
    keys: &Keys,
    columns: &[Column],
) -> Result<(), AllocError>
    ensures ok { OnOk result (text.new.items
        ≡ text.old.items ++ flat_map (column_data keys.now) columns.now) }
{
    for column in columns {
        add_column(alloc, text, keys, column)?;
    }
    Ok(())
}

#[tactic(auto, unfolding(crate::specs::Fields::column_data))]
fn add_column(
    alloc: Global,
    text: &mut Vec<u8>,
    keys: &Keys,
    column: &Column,
) -> Result<(), AllocError>
    ensures ok { OnOk result (text.new.items
        ≡ text.old.items ++ column_data keys.now column.now) }
{
    add_octets(text, b"column\t")?;
    add_octets(text, &[column.name, b'\t'])?;
    add_key(text, column.key)?;
    add_octets(text, b"\n")?;
    let peers = peers_of_kind(alloc, keys, column.key)?;
    add_peers(text, column, &peers)
}

fn add_peers(text: &mut Vec<u8>, column: &Column, peers: &[Peer]) -> Result<(), AllocError>
    ensures ok { OnOk result (text.new.items
        ≡ text.old.items ++ flat_map (peer_data column.now) peers.now) }
{
    for peer in peers {
        add_peer(text, column, peer)?;
    }
    Ok(())
}

#[tactic(auto, unfolding(crate::specs::Fields::peer_data))]
fn add_peer(text: &mut Vec<u8>, column: &Column, peer: &Peer) -> Result<(), AllocError>
    ensures ok { OnOk result (text.new.items
        ≡ text.old.items ++ peer_data column.now peer.now) }
{
    add_octets(text, b"peer\t")?;
    add_octets(text, &[column.name, b'\t'])?;
    add_peer_words(text, peer)?;
    add_octets(text, b"\n")
}

fn add_lines(
    alloc: Global,
    text: &mut Vec<u8>,
    table: &Table,
    columns: &[Column],
    attributes: &[Attr],
) -> Result<(), AllocError>
    ensures ok { OnOk result (text.new.items
        ≡ text.old.items ++ flat_map (line_data table.now columns.now) attributes.now) }
{
    for attr in attributes {
        add_line(alloc, text, table, columns, attr)?;
    }
    Ok(())
}

fn add_line(
    alloc: Global,
    text: &mut Vec<u8>,
    table: &Table,
    columns: &[Column],
    attr: &Attr,
) -> Result<(), AllocError>
    ensures ok { OnOk result (text.new.items
        ≡ text.old.items ++ line_data table.now columns.now attr.now) }
{
    match attr.role {
        Role::Declaration => add_service(text, table, attr),
        Role::Value | Role::Descriptor => add_row(alloc, text, table, columns, attr),
        Role::Configuration => Ok(()),
    }
}

#[tactic(auto, unfolding(crate::specs::Fields::service_data))]
fn add_service(text: &mut Vec<u8>, table: &Table, attr: &Attr) -> Result<(), AllocError>
    ensures ok { OnOk result (text.new.items
        ≡ text.old.items ++ service_data table.now attr.now) }
{
    if !is_service(attr.kind) {
        return Ok(());
    }
    add_octets(text, b"service\t")?;
    add_type(text, told_value(table, attr.handle))?;
    add_octets(text, b"\n")
}

#[tactic(auto, unfolding(crate::specs::Fields::row_data))]
fn add_row(
    alloc: Global,
    text: &mut Vec<u8>,
    table: &Table,
    columns: &[Column],
    attr: &Attr,
) -> Result<(), AllocError>
    ensures ok { OnOk result (text.new.items
        ≡ text.old.items ++ row_data table.now columns.now attr.now) }
{
    add_name(text, attr)?;
    add_octets(text, b"\t")?;
    add_hex(text, told_value(table, attr.handle))?;
    add_cells(alloc, text, table, columns, attr)?;
    add_octets(text, b"\n")
}

#[tactic(auto, unfolding(crate::specs::Fields::name_data))]
fn add_name(text: &mut Vec<u8>, attr: &Attr) -> Result<(), AllocError>
    ensures ok { OnOk result (text.new.items ≡ text.old.items ++ name_data attr.now) }
{
    add_octets(text, b"row\t")?;
    add_number(text, u64::from(attr.handle))?;
    add_octets(text, b"\t")?;
    add_type(text, type_octets(attr.kind).as_slice())?;
    add_octets(text, b"\t")?;
    add_length(text, attr)
}

fn add_cells(
    alloc: Global,
    text: &mut Vec<u8>,
    table: &Table,
    columns: &[Column],
    attr: &Attr,
) -> Result<(), AllocError>
    ensures ok { OnOk result (text.new.items
        ≡ text.old.items ++ flat_map (cell_data table.now attr.now) columns.now) }
{
    for column in columns {
        add_cell(alloc, text, table, attr, column)?;
    }
    Ok(())
}

fn add_cell(
    alloc: Global,
    text: &mut Vec<u8>,
    table: &Table,
    attr: &Attr,
    column: &Column,
) -> Result<(), AllocError>
    ensures ok { OnOk result (text.new.items
        ≡ text.old.items ++ cell_data table.now attr.now column.now) }
{
    let cell = cell_at(alloc, table, attr.handle, column.key)?;
    add_octets(text, b"\t")?;
    add_octets(text, &cell)
}

fn cell_at(
    alloc: Global,
    table: &Table,
    handle: u16,
    key: Option<KeyFacts>,
) -> Result<Vec<u8>, AllocError>
    ensures { IfOk result (λ cell. cell.items ≡ cell_text table.now.attributes handle key) }
{
    cell_of(alloc, always(table, handle, key), once(table, handle, key))
}

fn always(table: &Table, handle: u16, key: Option<KeyFacts>) -> Rights
    ensures { result ≡ always_of table.now.attributes handle key }
{
    Rights {
        read: may_with(table, key, false, handle, Right::Read),
        write: may_with(table, key, false, handle, Right::Write),
        command: may_with(table, key, false, handle, Right::Command),
        notify: may_with(table, key, false, handle, Right::Notify),
        indicate: may_with(table, key, false, handle, Right::Indicate),
        subscribe: may_with(table, key, false, handle, Right::Subscribe),
    }
}

fn once(table: &Table, handle: u16, key: Option<KeyFacts>) -> Rights
    ensures { result ≡ once_of table.now.attributes handle key }
{
    Rights {
        read: is_once(table, handle, key, Right::Read),
        write: is_once(table, handle, key, Right::Write),
        command: is_once(table, handle, key, Right::Command),
        notify: is_once(table, handle, key, Right::Notify),
        indicate: is_once(table, handle, key, Right::Indicate),
        subscribe: is_once(table, handle, key, Right::Subscribe),
    }
}

fn is_once(table: &Table, handle: u16, key: Option<KeyFacts>, right: Right) -> bool
    ensures { result ≡ is_once table.now.attributes handle key right }
{
    may_with(table, key, true, handle, right) && !may_with(table, key, false, handle, right)
}
