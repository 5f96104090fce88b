//! The words of entries of a response.

use crate::handles::{Handles, add_handle, add_range};
use crate::server_pdu::Form;
use crate::text::Text;
use crate::types::add_type;

/// The most entries that are shown.
const SHOWN: usize = 8;

/// Adds the entries of a size, up to `SHOWN`, and the number of those that are left.
pub(crate) fn add_entries(
    text: &mut Text,
    form: Form,
    size: usize,
    octets: &[u8],
    handles: Handles<'_>,
) {
    let mut rest = octets;
    let mut separator = ": ";
    for _entry in 0..SHOWN {
        let Some((entry, left)) = rest.split_at_checked(size) else {
            return;
        };
        text.add(separator);
        add_entry(text, form, entry, handles);
        separator = "; ";
        rest = left;
    }
    match rest.len().checked_div(size) {
        Some(more) if more > 0 => {
            text.add("; ");
            text.add_count(more);
            text.add(" more");
        }
        _ => {}
    }
}

fn add_entry(text: &mut Text, form: Form, entry: &[u8], handles: Handles<'_>) {
    match form {
        Form::Information => add_information(text, entry),
        Form::Group => {
            add_group(text, entry);
        }
        Form::HandleAndValue => add_handle_and_value(text, entry, handles),
        Form::GroupAndValue => {
            let value = add_group(text, entry);
            text.add(", ");
            add_group_value(text, value);
        }
    }
}

fn add_information(text: &mut Text, entry: &[u8]) {
    if let [low, high, kind @ ..] = entry {
        text.add("handle ");
        text.add_number(u16::from_le_bytes([*low, *high]));
        text.add(" of type ");
        add_type(text, kind);
    }
}

/// Adds the handles of a group, and returns what follows them.
fn add_group<'a>(text: &mut Text, entry: &'a [u8]) -> &'a [u8] {
    match entry {
        [first_low, first_high, last_low, last_high, value @ ..] => {
            let first = u16::from_le_bytes([*first_low, *first_high]);
            let last = u16::from_le_bytes([*last_low, *last_high]);
            add_range(text, first, last);
            value
        }
        _ => &[],
    }
}

fn add_handle_and_value(text: &mut Text, entry: &[u8], handles: Handles<'_>) {
    if let [low, high, value @ ..] = entry {
        text.add("handle ");
        add_handle(text, u16::from_le_bytes([*low, *high]), handles);
        text.add(", ");
        text.add_value(value);
    }
}

/// Adds the value of a group, which for services is a type (Core 5.0, Vol 3 Part G, 4.4.1).
fn add_group_value(text: &mut Text, value: &[u8]) {
    match value.len() {
        2 | 16 => add_type(text, value),
        _ => text.add_value(value),
    }
}
