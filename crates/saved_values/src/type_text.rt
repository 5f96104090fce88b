//! Attribute types as texts.

ghost use Rattle.std.specs.Prelude.{◌≡◌, ◌≤◌, ◌++◌, length, IsTrue, OnOk};
ghost use Rattle.att_numbers.specs.AttributeType.{is_of_16_bits};
ghost use Rattle.saved_values.specs.TypeText.{long_type_text, short_type_text, type_text};

use att_table::is_of_16_bits;
use std::alloc::AllocError;
use uuid::Uuid;

/// Adds a type: four hexadecimal digits for 16 bits, otherwise a UUID with hyphens.
pub fn add_type(text: &mut Vec<u8>, kind: u128) -> Result<(), AllocError>
    ensures ok { OnOk result (text.new.items ≡ text.old.items ++ type_text kind) }
{
    if is_of_16_bits(kind) {
        add_short(text, kind)
    } else {
        add_long(text, kind)
    }
}

fn add_short(text: &mut Vec<u8>, kind: u128) -> Result<(), AllocError>
    requires { IsTrue (is_of_16_bits kind) }
    ensures ok { OnOk result (text.new.items ≡ text.old.items ++ short_type_text kind) }
{
    let mut digits = [0; 4];
    hex::encode_to_slice(((kind >> 96) as u16).to_be_bytes(), &mut digits).unwrap();
    text.extend_from_slice(&digits)
}

fn add_long(text: &mut Vec<u8>, kind: u128) -> Result<(), AllocError>
    ensures ok { OnOk result (text.new.items ≡ text.old.items ++ long_type_text kind) }
{
    let mut buffer = Uuid::encode_buffer();
    text.extend_from_slice(write_long(kind, &mut buffer).as_bytes())
}

fn write_long(kind: u128, buffer: &mut [u8]) -> &str
    requires { 36 ≤ length buffer.old }
    ensures { result.now ≡ long_type_text kind }
{
    Uuid::from_u128(kind).hyphenated().encode_lower(buffer)
}
