//! Lines about the state of a host: its connections and their subscriptions.

ghost use Rattle.std.specs.Prelude.{◌≡◌, ◌++◌, OnOk};
ghost use Rattle.std.specs.List.{flat_map};
ghost use Rattle.gatt_host.specs.Connections.{connections_in};
ghost use Rattle.app_lines.specs.Told.{lines_of_connection};
ghost use Rattle.device_host.specs.Answers.{end_line, entry_line, lines_if_secured, lines_of_subscriptions, state_lines, subscription_lines};

use app_lines::{Names, Told, add_if_named, add_named_line, add_told};
use att_table::ConfigRow;
use gatt_host::{Host, Notice};
use std::alloc::AllocError;

/// Adds a line for each connection.
pub(crate) fn add_connections(
    text: &mut Vec<u8>,
    names: &Names,
    host: &Host,
) -> Result<(), AllocError>
    ensures ok { OnOk result (text.new.items
        ≡ text.old.items ++ flat_map (lines_of_connection names.now.named)
        (connections_in host.now)) }
{
    for connection in host.connections() {
        add_if_named(text, names, &connection)?;
    }
    Ok(())
}

/// Adds a line for each subscription in force of the connection with a handle.
pub(crate) fn add_subscriptions(
    text: &mut Vec<u8>,
    names: &Names,
    host: &Host,
    handle: u16,
) -> Result<(), AllocError>
    ensures ok { OnOk result (text.new.items
        ≡ text.old.items ++ subscription_lines names.now.named host.now handle) }
{
    match (names.name_of(handle), host.row(handle)) {
        (Some(name), Some(row)) => add_row(text, name, row),
        _ => Ok(()),
    }
}

/// Adds a line for each subscription in force.
pub(crate) fn add_all_subscriptions(
    text: &mut Vec<u8>,
    names: &Names,
    host: &Host,
) -> Result<(), AllocError>
    ensures ok { OnOk result (text.new.items ≡ text.old.items
        ++ flat_map (lines_of_subscriptions names.now.named host.now)
        (connections_in host.now)) }
{
    for connection in host.connections() {
        add_subscriptions(text, names, host, connection.handle)?;
    }
    Ok(())
}

/// Adds a line for each subscription in force of the connections whose links have become secure.
pub(crate) fn add_secured(
    text: &mut Vec<u8>,
    names: &Names,
    host: &Host,
    secured: &[u16],
) -> Result<(), AllocError>
    ensures ok { OnOk result (text.new.items ≡ text.old.items
        ++ flat_map (lines_if_secured secured.now names.now.named host.now)
        (connections_in host.now)) }
{
    for connection in host.connections() {
        if secured.contains(&connection.handle) {
            add_subscriptions(text, names, host, connection.handle)?;
        }
    }
    Ok(())
}

/// Adds a line for each connection, which has ended.
pub(crate) fn add_ends(text: &mut Vec<u8>, names: &Names, host: &Host) -> Result<(), AllocError>
    ensures ok { OnOk result (text.new.items
        ≡ text.old.items ++ flat_map (end_line names.now.named) (connections_in host.now)) }
{
    for connection in host.connections() {
        let handle = connection.handle;
        if let Some(name) = names.name_of(handle) {
            add_named_line(text, name, &Notice::Disconnected { handle })?;
        }
    }
    Ok(())
}

/// Adds the state that a new application reads.
pub(crate) fn add_state(
    text: &mut Vec<u8>,
    started: u64,
    is_serving: bool,
    names: &Names,
    host: &Host,
) -> Result<(), AllocError>
    ensures ok { OnOk result (text.new.items
        ≡ text.old.items ++ state_lines started is_serving names.now.named host.now) }
{
    let told = if is_serving {
        Told::Serving
    } else {
        Told::Waiting
    };
    add_told(text, &Told::Started(started))?;
    add_told(text, &told)?;
    add_connections(text, names, host)?;
    add_all_subscriptions(text, names, host)
}

fn add_row(text: &mut Vec<u8>, name: u64, row: &ConfigRow) -> Result<(), AllocError>
    ensures ok { OnOk result
        (text.new.items ≡ text.old.items ++ flat_map (entry_line name) row.now) }
{
    for place in 0..row.len() {
        add_entry(text, name, row.entry(place))?;
    }
    Ok(())
}

fn add_entry(text: &mut Vec<u8>, name: u64, entry: (u16, u8)) -> Result<(), AllocError>
    ensures ok { OnOk result (text.new.items ≡ text.old.items ++ entry_line name entry) }
{
    let (attribute, bits) = entry;
    if bits == 0 {
        return Ok(());
    }
    let line = Told::Subscribed {
        name,
        attribute,
        bits,
    };
    add_told(text, &line)
}
