//! Attribute types as texts.

use crate::text::Text;

/// Adds a type, given by its octets, least significant first. A 16-bit type has its name after it.
pub(crate) fn add_type(text: &mut Text, octets: &[u8]) {
    add_uuid(text, octets);
    if let Some(name) = name_of_type(octets) {
        text.add(" (");
        text.add(name);
        text.add(")");
    }
}

/// Adds the name of a type, or its UUID if it has none.
pub(crate) fn add_type_name(text: &mut Text, octets: &[u8]) {
    match name_of_type(octets) {
        Some(name) => text.add(name),
        None => add_uuid(text, octets),
    }
}

/// Adds a UUID of 16 or 128 bits, most significant first.
fn add_uuid(text: &mut Text, octets: &[u8]) {
    match octets {
        [low, high] => text.add_hex(&[*high, *low]),
        _ => match <[u8; 16]>::try_from(octets) {
            Ok(octets) => add_long_uuid(text, octets),
            Err(_) => text.add_value(octets),
        },
    }
}

/// Adds a UUID of 128 bits with its hyphens (RFC 4122, 3).
fn add_long_uuid(text: &mut Text, octets: [u8; 16]) {
    let [a, b, c, d, e, f, g, h, i, j, k, l, m, n, o, p] = octets;
    text.add_hex(&[p, o, n, m]);
    text.add("-");
    text.add_hex(&[l, k]);
    text.add("-");
    text.add_hex(&[j, i]);
    text.add("-");
    text.add_hex(&[h, g]);
    text.add("-");
    text.add_hex(&[f, e, d, c, b, a]);
}

/// Returns the name of a 16-bit type, if it has one.
fn name_of_type(octets: &[u8]) -> Option<&'static str> {
    match octets {
        [low, high] => name_of_number(u16::from_le_bytes([*low, *high])),
        _ => None,
    }
}

/// Returns the name of a declaration (Core 5.0, Vol 3 Part G, 3.4) or of another 16-bit type.
fn name_of_number(number: u16) -> Option<&'static str> {
    match number {
        0x2800 => Some("Primary Service"),
        0x2801 => Some("Secondary Service"),
        0x2802 => Some("Include"),
        0x2803 => Some("Characteristic"),
        _ => policy_words::name_of(number),
    }
}
