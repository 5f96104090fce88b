//! Unrequested lines to the application.

ghost use Rattle.std.specs.Prelude.{◌≡◌, ◌++◌, OnOk};
ghost use Rattle.app_lines.specs.Told.{attribute_end, connection_lines, key_line, told_line, value_line};
ghost use Rattle.app_lines.specs.Told.{lines_of_connection, subscribed_line, words_line};
ghost use Rattle.app_lines.specs.declared.told.Told.TheVariants.{Started};

use crate::names::Names;
use crate::notice_text::{add_named_line, add_number, add_value};
use host_api::{Connection, Notice};
use std::alloc::AllocError;

/// A line to the application that is not a notice of the host.
#[derive(Clone, Copy)]
pub enum Told<'a> {
    /// A controller is served.
    Serving,
    /// There is no controller and no connection.
    Waiting,
    /// The host stopped for this reason.
    Stopped(&'a str),
    /// Another application replaces this one.
    Replaced,
    /// Unique number of this start of the device.
    Started(u64),
    /// A client wrote the value at a handle while no application was connected. Holds the current
    /// value.
    Missed { handle: u16, value: &'a [u8] },
    /// Another connection updated the value at a handle.
    Updated { handle: u16, value: &'a [u8] },
    /// Subscription of a connection to an attribute, by its configuration bits.
    Subscribed { name: u64, attribute: u16, bits: u8 },
    /// Saving failed for this reason.
    Unsaved(&'a str),
    /// Everything is saved again.
    Saved,
}

/// Appends the line.
pub fn add_told(text: &mut Vec<u8>, told: &Told<'_>) -> Result<(), AllocError>
    // The line has exactly these octets.
    ensures ok { OnOk result (text.new.items ≡ text.old.items ++ told_line told.now) }
{
    match told {
        Told::Serving => text.extend_from_slice(b"+ serving\n"),
        Told::Waiting => text.extend_from_slice(b"+ waiting\n"),
        Told::Replaced => text.extend_from_slice(b"+ replaced\n"),
        Told::Stopped(words) => add_words(text, b"+ stopped: ", words),
        Told::Started(number) => add_started(text, *number),
        Told::Missed { handle, value } => add_value_line(text, b"+ missed", *handle, value),
        Told::Updated { handle, value } => add_value_line(text, b"+ updated", *handle, value),
        Told::Subscribed {
            name,
            attribute,
            bits,
        } => add_subscribed(text, *name, u64::from(*attribute), u64::from(*bits)),
        Told::Unsaved(words) => add_words(text, b"+ unsaved: ", words),
        Told::Saved => text.extend_from_slice(b"+ saved\n"),
    }
}

fn add_words(text: &mut Vec<u8>, about: &[u8], words: &str) -> Result<(), AllocError>
    ensures ok { OnOk result (text.new.items
        ≡ text.old.items ++ words_line about.now words.now) }
{
    text.extend_from_slice(about)?;
    text.extend_from_slice(words.as_bytes())?;
    text.extend_from_slice(b"\n")
}

fn add_started(text: &mut Vec<u8>, number: u64) -> Result<(), AllocError>
    ensures ok { OnOk result (text.new.items ≡ text.old.items ++ told_line (Started number)) }
{
    text.extend_from_slice(b"+ started")?;
    add_number(text, number)?;
    text.extend_from_slice(b"\n")
}

fn add_value_line(
    text: &mut Vec<u8>,
    about: &[u8],
    handle: u16,
    value: &[u8],
) -> Result<(), AllocError>
    ensures ok { OnOk result (text.new.items
        ≡ text.old.items ++ value_line about.now handle value.now) }
{
    text.extend_from_slice(about)?;
    add_number(text, u64::from(handle))?;
    add_value(text, value)?;
    text.extend_from_slice(b"\n")
}

fn add_subscribed(
    text: &mut Vec<u8>,
    name: u64,
    attribute: u64,
    bits: u64,
) -> Result<(), AllocError>
    ensures ok { OnOk result (text.new.items
        ≡ text.old.items ++ subscribed_line name attribute bits) }
{
    text.extend_from_slice(b"+ subscribed")?;
    add_number(text, name)?;
    add_attribute(text, attribute, bits)
}

fn add_attribute(text: &mut Vec<u8>, attribute: u64, bits: u64) -> Result<(), AllocError>
    ensures ok { OnOk result (text.new.items ≡ text.old.items ++ attribute_end attribute bits) }
{
    add_number(text, attribute)?;
    add_number(text, bits)?;
    text.extend_from_slice(b"\n")
}

/// Appends the lines of a connection: its peer, and its key if it has one.
fn add_connection(text: &mut Vec<u8>, name: u64, connection: &Connection) -> Result<(), AllocError>
    ensures ok { OnOk result (text.new.items
        ≡ text.old.items ++ connection_lines name connection.now) }
{
    add_named_line(
        text,
        name,
        &Notice::Connected {
            handle: connection.handle,
            peer: connection.peer,
        },
    )?;
    add_key(text, name, connection)
}

/// Appends the lines of a connection, if it has a name.
pub fn add_if_named(
    text: &mut Vec<u8>,
    names: &Names,
    connection: &Connection,
) -> Result<(), AllocError>
    ensures ok { OnOk result (text.new.items
        ≡ text.old.items ++ lines_of_connection names.now.named connection.now) }
{
    match names.name_of(connection.handle) {
        Some(name) => add_connection(text, name, connection),
        None => Ok(()),
    }
}

fn add_key(text: &mut Vec<u8>, name: u64, connection: &Connection) -> Result<(), AllocError>
    ensures ok { OnOk result (text.new.items
        ≡ text.old.items ++ key_line name connection.now connection.now.key) }
{
    let handle = connection.handle;
    match connection.key {
        Some(facts) => add_named_line(text, name, &Notice::Secured { handle, facts }),
        None => Ok(()),
    }
}
