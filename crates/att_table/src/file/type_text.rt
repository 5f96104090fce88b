//! Attribute types as texts.

ghost use Rattle.std.specs.Prelude.{◌≡◌};
ghost use Rattle.att_table.specs.file.TypeText.{type_named, short_type_named, long_type_named, is_type_of_value};

use att_numbers::attribute_type;
use att_numbers::attribute_type::{
    CHARACTERISTIC, CLIENT_CHARACTERISTIC_CONFIGURATION, INCLUDE, PRIMARY_SERVICE,
    SECONDARY_SERVICE,
};
use uuid::Uuid;

/// Reads a type: four hexadecimal digits, or a UUID in any text form.
pub fn read_type(text: &str) -> Option<u128>
    ensures { result ≡ type_named text.now }
{
    read_short(text).or_else(|| read_long(text))
}

fn read_short(text: &str) -> Option<u128>
    ensures { result ≡ short_type_named text.now }
{
    let mut octets = [0; 2];
    hex::decode_to_slice(text, &mut octets).ok()?;
    Some(attribute_type::from_16_bits(u16::from_be_bytes(octets)))
}

fn read_long(text: &str) -> Option<u128>
    ensures { result ≡ long_type_named text.now }
{
    let uuid = Uuid::try_parse(text).ok()?;
    Some(uuid.as_u128())
}

/// Returns true if a value or descriptor in a file may have this type.
///
/// Declarations and CCCDs are written in other ways.
pub fn is_type_of_value(kind: u128) -> bool
    ensures { result ≡ is_type_of_value kind }
{
    !matches!(
        kind,
        PRIMARY_SERVICE
            | SECONDARY_SERVICE
            | INCLUDE
            | CHARACTERISTIC
            | CLIENT_CHARACTERISTIC_CONFIGURATION
    )
}
